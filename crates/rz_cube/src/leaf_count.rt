//! How wide a cube is.

ghost use Rattle.std.specs.Prelude.{◌≡◌, ◌≢◌, Err, ◌<◌, ◌≤◌, [], ◌∷◌, ◌+◌, ◌++◌, length, All, IfOk};
ghost use Rattle.rz_rules.specs.Tree.{tree_of};
ghost use Rattle.rz_rules.specs.Cube.{leaves};
ghost use Rattle.rz_cube.specs.Point.{IsStep};

use crate::faults::CubeFault;
use rz_pool::{Pool, parts_of};
use rz_rules::OutOfMemory;
use std::alloc::Global;

/// The most leaves that a cube may have.
pub const MOST_LEAVES: usize = 64;

/// How many leaves a cube of this pool has: cubes in it that are no products.
///
/// It ends as soon as there are more than 64, so that a cube of very many leaves over few nodes
/// takes no longer.
pub fn leaves(alloc: Global, pool: &Pool, cube: u64) -> Result<u64, CubeFault>
    requires { cube < length pool.now.nodes }
    ensures count { IfOk result (λ count. count ≡ leaves (tree_of pool.now.nodes cube)) }
    ensures few { IfOk result (λ count. count ≤ 64) }

    // A fault is want of memory, or there are more than 64.
    ensures wide { result ≡ Err CubeFault.WideCube → 64 < leaves (tree_of pool.now.nodes cube) }
    ensures no_other { result ≢ Err CubeFault.BadPoint }
{
    let mut count = 0;
    let mut waiting = Vec::new(alloc);
    waiting.push(cube)?;
    while let Some(next) = waiting.pop() {
        count = counted(pool, next, &mut waiting, count)?;
        if count + waiting.len() > MOST_LEAVES {
            return Err(CubeFault::WideCube);
        }
    }
    Ok(count as u64)
}

/// Counts a cube: one leaf more, or its two parts wait to be counted.
fn counted(
    pool: &Pool,
    cube: u64,
    waiting: &mut Vec<u64>,
    count: usize,
) -> Result<usize, OutOfMemory>
    requires there { cube < length pool.now.nodes }
    requires low { All (λ id. id < length pool.now.nodes) waiting.old.items }
    requires few { count ≤ 64 }
    ensures step { IfOk result
        (IsStep pool.now.nodes (waiting.old.items ++ cube ∷ []) count waiting.new.items) }
    ensures bound { IfOk result (λ new. new ≤ count + 1) }
{
    let Some((left, right)) = parts_of(pool, cube) else {
        return Ok(count + 1);
    };
    waiting.push(right)?;
    waiting.push(left)?;
    Ok(count)
}
