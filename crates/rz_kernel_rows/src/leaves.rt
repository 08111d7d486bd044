//! How wide a cube is.

ghost use Rattle.std.specs.Prelude.{◌<◌, ◌≤◌, ◌↔◌, [], ◌∷◌, ◌+◌, ◌++◌, length, All, IsTrue, IfOk, IfSome, IfNone};
ghost use Rattle.rz_rules.specs.Tree.{tree_of};
ghost use Rattle.rz_rules.specs.Cube.{leaves};
ghost use Rattle.rz_kernel_rows.specs.Leaves.{IsStep};

use rz_pool::{Pool, parts_of};
use rz_rules::OutOfMemory;
use std::alloc::Global;

/// The most leaves that the cube of a context's entry may have.
const MOST_LEAVES: usize = 64;

/// Whether a cube has at most 64 leaves.
///
/// It ends as soon as there are more, so that a cube of very many leaves over few nodes takes no longer.
pub fn is_narrow(alloc: Global, pool: &Pool, cube: u64) -> Result<bool, OutOfMemory>
    requires { cube < length pool.now.nodes }
    ensures { IfOk result (λ yes. IsTrue yes ↔ (leaves (tree_of pool.now.nodes cube) ≤ 64)) }
{
    let mut count = 0;
    let mut waiting = Vec::new(alloc);
    waiting.push(cube)?;
    while let Some(next) = waiting.pop() {
        count = counted(pool, next, &mut waiting, count)?;
        if count + waiting.len() > MOST_LEAVES {
            return Ok(false);
        }
    }
    Ok(true)
}

/// Counts a cube: one leaf more, or its two parts wait to be counted.
fn counted(
    pool: &Pool,
    cube: u64,
    waiting: &mut Vec<u64>,
    count: usize,
) -> Result<usize, OutOfMemory>
    requires there { cube < length pool.now.nodes }
    requires low { All (λ id. id < length pool.now.nodes) waiting.old.items }
    requires few { count ≤ 64 }
    ensures step { IfOk result
        (IsStep pool.now.nodes (waiting.old.items ++ cube ∷ []) count waiting.new.items) }
    ensures bound { IfOk result (λ new. new ≤ count + 1) }
{
    let Some((left, right)) = parts_of(pool, cube) else {
        return Ok(count + 1);
    };
    waiting.push(right)?;
    waiting.push(left)?;
    Ok(count)
}
