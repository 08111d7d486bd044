//! A store of files under names.

ghost use Rattle.std.specs.Prelude.{◌≡◌, ℕ, ◌≤◌, List, IfOk, IsErrOf};
ghost use Rattle.rz_io.specs.Device.{Told, Absent, MayRead, Rose};
ghost use Rattle.rz_io.specs.declared.files.ReadFault.TheVariants.{OutOfMemory};

use rz_rules::Bytes;
use std::alloc::{AllocError, AllocFailed};

/// Why a read gave no bytes.
#[derive(Clone, Copy, Debug, PartialEq, Eq)]
pub enum ReadFault {
    /// The store has no such name.
    Missing,
    /// The store failed, and counted that.
    Failed,
    /// Memory ran out, which may be at any time.
    OutOfMemory,
}

impl From<rz_rules::OutOfMemory> for ReadFault {
    ghost from_gives = { λ _ e. e ≡ OutOfMemory };

    fn from(_error: rz_rules::OutOfMemory) -> Self {
        ReadFault::OutOfMemory
    }
}

impl From<AllocError> for ReadFault {
    ghost from_gives = { λ _ e. e ≡ OutOfMemory };

    fn from(_error: AllocError) -> Self {
        ReadFault::OutOfMemory
    }
}

impl<T: Drop> From<AllocFailed<T>> for ReadFault {
    ghost from_gives = { λ _ e. e ≡ OutOfMemory };

    fn from(_error: AllocFailed<T>) -> Self {
        ReadFault::OutOfMemory
    }
}

/// A store that is read by name. Names are compared as texts, byte by byte.
pub trait Files {
    /// What the store tells of each name.
    ghost told: { Self → List ℕ → Told };

    /// How many faults there were so far, up to 2^64 - 1.
    ghost count: { Self → ℕ };

    /// All bytes of a file. After an answer other than `Ok` the store can be read again.
    fn read(&mut self, name: &str) -> Result<Bytes, ReadFault>
        ensures bytes { IfOk result (MayRead (told self.old name.now)) }
        ensures missing { IsErrOf result ReadFault.Missing → told self.old name.now ≡ Absent }
        ensures failed { IsErrOf result ReadFault.Failed → Rose (count self.old) (count self.new) }
        ensures never_falls { count self.old ≤ count self.new }
        ensures kept { (other : List ℕ) → told self.new other ≡ told self.old other };

    /// How many faults there were so far; the count stops at 2^64 - 1.
    fn faults(&self) -> u64
        ensures { result ≡ count self.now };
}
