//! Why bytes give no part.

use rz_rules::OutOfMemory as NoMemory;

/// Why bytes give no part.
#[derive(Clone, Copy, Debug, PartialEq, Eq)]
pub enum DrvFault {
    /// They are the spelling of no part. This line, counted from 1, is the first that isn't in the grammar.
    Malformed(u64),
    /// Memory ran out.
    OutOfMemory,
}

impl From<NoMemory> for DrvFault {
    ghost use Rattle.std.specs.Prelude.{◌≡◌};
    ghost use Rattle.rz_drv.specs.declared.faults.DrvFault.TheVariants.{OutOfMemory};

    ghost from_gives = { λ _ fault. fault ≡ OutOfMemory };

    fn from(_error: NoMemory) -> DrvFault {
        DrvFault::OutOfMemory
    }
}
