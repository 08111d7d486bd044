//! The file, item by item.

ghost use Rattle.std.specs.Prelude.{◌≡◌, IfOk, IfErr};
ghost use Rattle.rz_kernel.specs.declared.answer.KernelAnswer.{KernelAnswer};
ghost use Rattle.rz_kernel.specs.Answer.{KernelSays};
ghost use Rattle.rz_kernel.specs.Run.{FaultSays};

use crate::answer::KernelAnswer;
use crate::state::KernelState;
use rz_drv::{DrvFault, Reader};
use rz_pool::HashKey;
use rz_rules::OutOfMemory;
use sha2::{Digest, Sha256};
use std::alloc::Global;

/// Says of bytes whether they are a file of derivations.
///
/// `Yes` has the number of claims. Else the number of the first bad line comes, counted from 1: `Malformed` where it
/// isn't in the grammar, `BadRow` where it is a step that doesn't follow.
pub fn kernel(alloc: Global, bytes: &[u8]) -> Result<KernelAnswer, OutOfMemory>
    ensures says { IfOk result (KernelSays bytes.now) }
    // No other answer would do.
    ensures only { IfOk result (λ answer. (other : KernelAnswer) → KernelSays bytes.now other
        → answer ≡ other) }
{
    match read_items(alloc, bytes) {
        Ok(answer) => Ok(answer),
        Err(DrvFault::Malformed(line)) => Ok(KernelAnswer::Malformed(line)),
        Err(DrvFault::OutOfMemory) => Err(OutOfMemory),
    }
}

/// Reads all items. It fails at a line that isn't in the grammar.
fn read_items(alloc: Global, bytes: &[u8]) -> Result<KernelAnswer, DrvFault>
    ensures answer { IfOk result (KernelSays bytes.now) }
    ensures fault { IfErr result (FaultSays bytes.now) }
{
    let mut reader = Reader::open(alloc, bytes)?;
    let mut state = KernelState::new(alloc, hash_key(bytes));
    while let Some(item) = reader.next(alloc)? {
        if !state.take(alloc, item)? {
            return Ok(KernelAnswer::BadRow(reader.line()));
        }
    }
    Ok(KernelAnswer::Yes(state.claims.len() as u64))
}

/// A key that nobody can foresee who doesn't know the whole file.
fn hash_key(bytes: &[u8]) -> HashKey {
    let [a, b, c, d, e, f, g, h, i, j, k, l, m, n, o, p, ..] = Sha256::digest(bytes);
    HashKey {
        first: u64::from_le_bytes([a, b, c, d, e, f, g, h]),
        second: u64::from_le_bytes([i, j, k, l, m, n, o, p]),
    }
}
