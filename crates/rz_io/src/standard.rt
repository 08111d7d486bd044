//! The standard output.

ghost use Rattle.std.specs.Prelude.{◌≡◌};

use crate::writer::WriterSink;
use std::io;
use std::io::Printer;

/// The standard output of a system.
pub type StdSink<'a, R> = WriterSink<Printer<'a, R>>;

impl<'a, R: Print> WriterSink<Printer<'a, R>> {
    /// The output of a system, with no fault yet.
    pub fn new(system: &'a R) -> Self
        ensures { result.faults ≡ 0 }
    {
        WriterSink::from_writer(io::writer(system))
    }
}
