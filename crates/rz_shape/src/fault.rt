//! Why a form is no cube, point or tope.

use rz_rules::Refusal;
use std::alloc::AllocFailed;

/// Why a form is not read.
#[derive(Debug, Drop, PartialEq, Eq)]
pub enum ShapeFault {
    /// The form is refused. `at` is the number of a token within the form's command, or within the
    /// text where that is a sequent.
    Refused { why: Refusal, at: u64 },
    /// Memory ran out. This can be the answer to any form.
    OutOfMemory,
}

impl From<rz_rules::OutOfMemory> for ShapeFault {
    ghost use Rattle.std.specs.Prelude.{◌≡◌};
    ghost use Rattle.rz_shape.specs.declared.fault.ShapeFault.TheVariants.{OutOfMemory as NoMemory};

    ghost from_gives = { λ _ fault. fault ≡ NoMemory };

    fn from(_error: rz_rules::OutOfMemory) -> ShapeFault {
        ShapeFault::OutOfMemory
    }
}

impl<T: Drop> From<AllocFailed<T>> for ShapeFault {
    ghost use Rattle.std.specs.Prelude.{◌≡◌};
    ghost use Rattle.rz_shape.specs.declared.fault.ShapeFault.TheVariants.{OutOfMemory as NoMemory};

    ghost from_gives = { λ _ fault. fault ≡ NoMemory };

    fn from(_error: AllocFailed<T>) -> ShapeFault {
        ShapeFault::OutOfMemory
    }
}
