//! Bytes to a part.

ghost use Rattle.std.specs.Prelude.{◌≡◌, IfOk, IfErr};
ghost use Rattle.rz_drv.specs.Part.{IsPart, spelling, IsFault, HasOwnSpelling};

use crate::faults::DrvFault;
use crate::parts::Part;
use crate::reading::Reader;
use std::alloc::Global;

/// The part that bytes spell.
///
/// Else `Malformed` names the first line that isn't in the grammar: the bytes are no spelling.
pub fn decode(alloc: Global, bytes: &[u8]) -> Result<Part, DrvFault>
    ensures part { IfOk result IsPart }
    ensures spelling { IfOk result (λ part. spelling part ≡ bytes.now) }
    // No other part has this spelling.
    ensures only { IfOk result HasOwnSpelling }
    ensures fault { IfErr result (IsFault bytes.now) }
{
    let mut reader = Reader::open(alloc, bytes)?;
    let mut part = Part::new(alloc);
    while let Some(item) = reader.next(alloc)? {
        part.add(item)?;
    }
    Ok(part)
}
