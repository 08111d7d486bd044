//! Why a question has no answer.

ghost use Rattle.std.specs.Prelude.{◌≡◌};
ghost use Rattle.rz_cube.specs.declared.faults.CubeFault.TheVariants.{OutOfMemory};

use std::alloc::AllocFailed;
use std::error::Error;
use std::fmt;

/// Why a question on a cube or a point has no answer.
#[derive(Clone, Copy, Debug, PartialEq, Eq)]
pub enum CubeFault {
    /// The cube has more than 64 leaves.
    WideCube,
    /// A variable isn't in the context, or what is projected has no product as its cube.
    BadPoint,
    /// Memory ran out, which may be at any time.
    OutOfMemory,
}

impl fmt::Display for CubeFault {
    fn fmt<W: fmt::Write>(&self, f: &mut fmt::Formatter<W>) -> fmt::Result {
        f.write_str(match self {
            CubeFault::WideCube => "the cube has more than 64 leaves",
            CubeFault::BadPoint => "no point over the context",
            CubeFault::OutOfMemory => "out of memory",
        })
    }
}

impl Error for CubeFault {}

impl From<rz_rules::OutOfMemory> for CubeFault {
    ghost from_gives = { λ _ fault. fault ≡ OutOfMemory };

    fn from(_error: rz_rules::OutOfMemory) -> Self {
        CubeFault::OutOfMemory
    }
}

impl<T: Drop> From<AllocFailed<T>> for CubeFault {
    ghost from_gives = { λ _ fault. fault ≡ OutOfMemory };

    fn from(_error: AllocFailed<T>) -> Self {
        CubeFault::OutOfMemory
    }
}
