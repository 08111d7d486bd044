//! A sink over a writer.

ghost use Rattle.std.specs.Prelude.{◌≡◌, ◌≢◌, ◌⊎◌, ◌<◌, ◌≤◌, None, length, take, IfOk, IfErr, OnErr, IsErrOf};
ghost use Rattle.std.specs.IoError.{error_kind};
ghost use Rattle.std.specs.Io.KnownBytes.{Appends, Keeps};
ghost use Rattle.rz_io.specs.Device.{count_after};

use crate::turns::{TURNS, is_interrupted};
use crate::{Sink, WriteFault};
use std::io;
use std::io::{ErrorKind, Write};
use std::marker::Model;

/// A sink that hands all that it is offered to a writer.
#[derive(Drop)]
pub struct WriterSink<W> {
    writer: W,
    faults: u64,
}

impl<W> Model for WriterSink<W> {
    ghost use Rattle.rz_io.specs.Device.{Adapter};

    ghost Value = { Adapter W };

    ghost view = { λ sink. record { device = sink.writer; faults = sink.faults } };
}

impl<W> WriterSink<W> {
    /// The sink of a writer, with no fault yet.
    pub fn from_writer(writer: W) -> Self
        ensures { result ≡ record { device = writer; faults = 0 } }
    {
        WriterSink { writer, faults: 0 }
    }

    /// The writer.
    pub fn writer(&self) -> &W
        ensures { result.now ≡ self.now.device }
    {
        &self.writer
    }
}

impl<W: Write> Sink for WriterSink<W> {
    ghost taken = { λ sink. W.contents sink.device };

    ghost offers = { λ _. None };

    ghost count = { λ sink. sink.faults };

    fn write(&mut self, piece: &[u8]) -> Result<u64, WriteFault>
        requires { 0 < length piece.now }

        ensures some { IfOk result (λ n. 0 < n) }
        ensures within { IfOk result (λ n. n ≤ length piece.now) }
        ensures ok { IfOk result (λ n.
            Appends (W.contents self.old.device) (W.contents self.new.device) (take n piece.now)) }
        ensures err { OnErr result
            (Keeps (W.contents self.old.device) (W.contents self.new.device)) }

        ensures failed { IsErrOf result WriteFault.Failed
            → self.new.faults ≡ count_after self.old.faults }
        ensures other { IsErrOf result WriteFault.Failed ⊎ (self.new.faults ≡ self.old.faults) }
        ensures never_falls { self.old.faults ≤ self.new.faults }
    {
        match write_some(&mut self.writer, piece) {
            Ok(taken) => Ok(taken as u64),
            Err(e) if e.kind() == ErrorKind::OutOfMemory => Err(WriteFault::OutOfMemory),
            Err(_) => {
                self.faults = self.faults.saturating_add(1);
                Err(WriteFault::Failed)
            }
        }
    }

    fn faults(&self) -> u64 {
        self.faults
    }
}

/// One write of a piece, tried again where a signal interrupts it. Nothing taken is an error.
fn write_some<W: Write>(writer: &mut W, piece: &[u8]) -> io::Result<usize>
    requires { 0 < length piece.now }
    ensures some { IfOk result (λ n. 0 < n) }
    ensures within { IfOk result (λ n. n ≤ length piece.now) }
    ensures ok { IfOk result (λ n.
        Appends (W.contents writer.old) (W.contents writer.new) (take n piece.now)) }
    ensures err { OnErr result (Keeps (W.contents writer.old) (W.contents writer.new)) }
    ensures retried { IfErr result (λ e. error_kind e ≢ ErrorKind.Interrupted) }
{
    for _ in 0..TURNS {
        match writer.write(piece) {
            Ok(0) => return Err(io::Error::from(ErrorKind::WriteZero)),
            Ok(taken) => return Ok(taken),
            Err(e) if is_interrupted(&e) => {}
            Err(e) => return Err(e),
        }
    }
    Err(io::Error::from(ErrorKind::TimedOut))
}
