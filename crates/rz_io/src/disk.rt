//! The files of the system.

ghost use Rattle.std.specs.Prelude.{◌≡◌, None};

use crate::reader::{Opener, ReaderFiles};
use std::fs::File;
use std::{io, rt};

/// Opens the files of a system, whose bytes aren't known.
#[derive(Drop)]
pub struct Disk<R> {
    system: R,
}

impl<R: rt::Files> Opener for Disk<R> {
    type Reader = R::File;

    ghost holds = { λ _ _. None };

    fn open(&self, name: &str) -> io::Result<R::File> {
        File::open(&self.system, name)
    }
}

/// The files of a system.
pub type DiskFiles<R> = ReaderFiles<Disk<R>>;

impl<R: rt::Files + AllocGlobal> ReaderFiles<Disk<R>> {
    /// The files of a system, with no fault yet.
    pub fn new(system: R) -> Self
        ensures { result.faults ≡ 0 }
    {
        ReaderFiles::from_opener(system.alloc(), Disk { system })
    }
}
