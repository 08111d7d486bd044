//! Why a file has no text.

ghost use Rattle.std.specs.Prelude.{◌≡◌};
ghost use Rattle.rz_literate.specs.declared.fault.TextFault.TheVariants.{OutOfMemory};

use std::alloc::AllocError;

/// Why a file has no text.
#[derive(Clone, Copy, Debug, PartialEq, Eq)]
pub enum TextFault {
    /// The bytes are not UTF-8. The number counts the bytes before the first that belongs to no character.
    NotText(u64),
    /// Memory ran out.
    OutOfMemory,
}

impl From<AllocError> for TextFault {
    ghost from_gives = { λ _ fault. fault ≡ OutOfMemory };

    fn from(_error: AllocError) -> TextFault {
        TextFault::OutOfMemory
    }
}
