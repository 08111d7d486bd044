//! The files of the stores in memory, by name.

ghost use Rattle.std.specs.Prelude.{◌≡◌, ◌↔◌, IfSome, IfNone, IfOk, IsErrOf};
ghost use Rattle.rz_io.specs.Device.{Absent, Present, told_by};

use crate::ReadFault;
use rz_rules::{Bytes, Name};
use std::alloc::Global;

/// A copy of the bytes of the first file of a name.
pub fn copy_of(alloc: Global, files: &[(Name, Bytes)], name: &str) -> Result<Bytes, ReadFault>
    ensures bytes { IfOk result (λ bytes. told_by files.now name.now ≡ Present bytes) }
    ensures missing { IsErrOf result ReadFault.Missing ↔ (told_by files.now name.now ≡ Absent) }
    ensures never_fails { IsErrOf result ReadFault.Failed → ⊥ }
{
    match find(files, name) {
        Some(bytes) => Ok(Bytes::from_slice(alloc, bytes.as_slice())?),
        None => Err(ReadFault::Missing),
    }
}

/// The bytes of the first file of a name.
fn find<'a>(files: &'a [(Name, Bytes)], name: &str) -> Option<&'a Bytes>
    ensures present { IfSome result (λ bytes. told_by files.now name.now ≡ Present bytes.now) }
    ensures absent { IfNone result (told_by files.now name.now ≡ Absent) }
{
    for file in files {
        if file.0.as_str() == name {
            return Some(&file.1);
        }
    }
    None
}
