//! A store and a sink in memory whose calls fail by number.

ghost use Rattle.std.specs.Prelude.{◌≡◌, ◌<◌, ◌≤◌, ◌↔◌, ◌++◌, [], None, Some, min, length, take, IfOk, OnErr, IsErrOf, IsTrue, IsFalse};
ghost use Rattle.rz_io.specs.Device.{Absent, Present, told_by};
ghost use Rattle.rz_io.specs.Memory.{no_call_yet, next_fails, after_call};

use crate::lookup::copy_of;
use crate::schedule::FaultSchedule;
use crate::{Files, ReadFault, Sink, WriteFault};
use rz_rules::{Bytes, Name, Numbers};
use std::alloc::Global;
use std::marker::Model;

/// A store whose calls of `read` count from 0, and fail where their number is listed. The first
/// file of a name counts.
#[derive(Drop)]
pub struct MemoryFiles {
    files: Vec<(Name, Bytes)>,
    schedule: FaultSchedule,
}

impl Model for MemoryFiles {
    ghost use Rattle.rz_io.specs.Memory.{Store};

    ghost Value = { Store };

    ghost view = { λ store. record { files = store.files.items; schedule = store.schedule } };
}

impl MemoryFiles {
    /// A store of these files, and the numbers of the calls that fail. Its reads allocate where the
    /// list does.
    pub fn new(files: Vec<(Name, Bytes)>, fails: Numbers) -> Self
        ensures { result ≡ record { files = files.items; schedule = no_call_yet fails } }
    {
        MemoryFiles {
            files,
            schedule: FaultSchedule::new(fails),
        }
    }
}

impl Files for MemoryFiles {
    ghost told = { λ store. told_by store.files };

    ghost count = { λ store. store.schedule.faults };

    fn read(&mut self, name: &str) -> Result<Bytes, ReadFault>
        ensures bytes { IfOk result (λ bytes. told_by self.old.files name.now ≡ Present bytes) }
        ensures missing { IsErrOf result ReadFault.Missing
            ↔ (IsFalse (next_fails self.old.schedule)
            × (told_by self.old.files name.now ≡ Absent)) }
        ensures failed { IsErrOf result ReadFault.Failed ↔ IsTrue (next_fails self.old.schedule) }
        ensures counted { self.new ≡ record self.old { schedule = after_call self.old.schedule } }
        ensures never_falls { self.old.schedule.faults ≤ self.new.schedule.faults }
    {
        if self.schedule.next_call() {
            return Err(ReadFault::Failed);
        }
        copy_of(*self.files.allocator(), self.files.as_slice(), name)
    }

    fn faults(&self) -> u64 {
        self.schedule.faults()
    }
}

/// A sink whose calls of `write` count from 0, and fail where their number is listed. Each other
/// call takes one chunk, or the whole piece where that is shorter.
#[derive(Drop)]
pub struct MemorySink {
    chunk: u64,
    bytes: Bytes,
    schedule: FaultSchedule,
}

impl Model for MemorySink {
    ghost use Rattle.std.specs.Prelude.{◌<◌};
    ghost use Rattle.rz_io.specs.Memory.{Outlet};

    ghost Value = { Outlet };

    ghost view = { λ sink. record {
      chunk = sink.chunk;
      bytes = sink.bytes;
      schedule = sink.schedule;
    } };

    ghost invariant = { λ sink. 0 < sink.chunk };
}

impl MemorySink {
    /// A sink that has taken nothing, and keeps its bytes here. A call takes at most `chunk` bytes;
    /// then come the numbers of the calls that fail.
    pub fn new(alloc: Global, chunk: u64, fails: Numbers) -> Self
        requires { 0 < chunk }
        ensures { result ≡ record { chunk = chunk; bytes = []; schedule = no_call_yet fails } }
    {
        MemorySink {
            chunk,
            bytes: Bytes::new(alloc),
            schedule: FaultSchedule::new(fails),
        }
    }

    /// All bytes that it took.
    pub fn taken(&self) -> &Bytes
        ensures { result.now ≡ self.now.bytes }
    {
        &self.bytes
    }
}

impl Sink for MemorySink {
    ghost taken = { λ sink. Some sink.bytes };

    ghost offers = { λ _. None };

    ghost count = { λ sink. sink.schedule.faults };

    fn write(&mut self, piece: &[u8]) -> Result<u64, WriteFault>
        requires { 0 < length piece.now }

        ensures some { IfOk result (λ n. 0 < n) }
        ensures chunk { IfOk result (λ n. n ≡ min self.old.chunk (length piece.now)) }
        ensures ok { IfOk result (λ n. self.new ≡ record self.old {
          bytes = self.old.bytes ++ take n piece.now;
          schedule = after_call self.old.schedule;
        }) }
        ensures err { OnErr result (self.new ≡ record self.old {
          schedule = after_call self.old.schedule;
        }) }

        ensures failed { IsErrOf result WriteFault.Failed ↔ IsTrue (next_fails self.old.schedule) }
        ensures never_falls { self.old.schedule.faults ≤ self.new.schedule.faults }
    {
        if self.schedule.next_call() {
            return Err(WriteFault::Failed);
        }
        let taken = self.chunk.min(piece.len() as u64);
        self.bytes.extend_from_slice(&piece[..taken as usize])?;
        Ok(taken)
    }

    fn faults(&self) -> u64 {
        self.schedule.faults()
    }
}
