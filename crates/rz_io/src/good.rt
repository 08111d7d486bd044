//! A store and a sink in memory that never fail.

ghost use Rattle.std.specs.Prelude.{◌≡◌, ◌↔◌, ◌<◌, [], ◌++◌, None, Some, length, IfOk, OnOk, OnErr, IsErrOf, IsOkUnless};
ghost use Rattle.rz_io.specs.Device.{Absent, Present, told_by};

use crate::lookup::copy_of;
use crate::{Files, ReadFault, Sink, WriteFault};
use rz_rules::{Bytes, Name};
use std::alloc::Global;
use std::marker::Model;

/// A store that never fails, seen as the list of its files. The first of a name counts.
#[derive(Drop)]
pub struct GoodFiles {
    files: Vec<(Name, Bytes)>,
}

impl Model for GoodFiles {
    ghost use Rattle.std.specs.Prelude.{List, ℕ};

    ghost Value = { List (List ℕ × List ℕ) };

    ghost view = { λ store. store.files.items };
}

impl GoodFiles {
    /// A store of these files. Its reads allocate where the list does.
    pub fn new(files: Vec<(Name, Bytes)>) -> Self
        ensures { result ≡ files.items }
    {
        GoodFiles { files }
    }
}

impl Files for GoodFiles {
    ghost told = { told_by };

    ghost count = { λ _. 0 };

    fn read(&mut self, name: &str) -> Result<Bytes, ReadFault>
        ensures bytes { IfOk result (λ bytes. told_by self.old name.now ≡ Present bytes) }
        ensures missing { IsErrOf result ReadFault.Missing ↔ (told_by self.old name.now ≡ Absent) }
        ensures never_fails { IsErrOf result ReadFault.Failed → ⊥ }
        ensures kept { self.new ≡ self.old }
    {
        copy_of(*self.files.allocator(), self.files.as_slice(), name)
    }

    fn faults(&self) -> u64 {
        0
    }
}

/// A sink that never fails, seen as the bytes that it took.
#[derive(Drop)]
pub struct GoodSink {
    bytes: Bytes,
}

impl Model for GoodSink {
    ghost use Rattle.std.specs.Prelude.{List, ℕ};

    ghost Value = { List ℕ };

    ghost view = { λ sink. sink.bytes };
}

impl GoodSink {
    /// A sink that has taken nothing, and keeps its bytes here.
    pub fn new(alloc: Global) -> Self
        ensures { result ≡ [] }
    {
        GoodSink {
            bytes: Bytes::new(alloc),
        }
    }

    /// All bytes that it took.
    pub fn taken(&self) -> &Bytes
        ensures { result.now ≡ self.now }
    {
        &self.bytes
    }
}

impl Sink for GoodSink {
    ghost taken = { λ sink. Some sink };

    ghost offers = { λ _. None };

    ghost count = { λ _. 0 };

    fn write(&mut self, piece: &[u8]) -> Result<u64, WriteFault>
        requires { 0 < length piece.now }
        ensures whole { IfOk result (λ n. n ≡ length piece.now) }
        ensures ok { OnOk result (self.new ≡ self.old ++ piece.now) }
        ensures err { OnErr result (self.new ≡ self.old) }
        ensures only_memory { IsOkUnless result WriteFault.OutOfMemory }
    {
        self.bytes.extend_from_slice(piece)?;
        Ok(piece.len() as u64)
    }

    fn faults(&self) -> u64 {
        0
    }
}
