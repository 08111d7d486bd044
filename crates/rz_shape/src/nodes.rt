//! What is asked of cubes.

ghost use Rattle.std.specs.Prelude.{◌≡◌, ◌<◌, ◌≤◌, length, nat_lt, IfOk, IfSome, IfNone};
ghost use Rattle.rz_rules.specs.Tree.{tree_of};
ghost use Rattle.rz_rules.specs.Cube.{cube_two, leaves, product};
ghost use Rattle.rz_pool.specs.Pool.{Grows};
ghost use Rattle.rz_rules.specs.Same.{same_tree};

use rz_cube::{CubeFault, leaves};
use rz_pool::Pool;
use rz_rules::{Kids, Kind, OutOfMemory};
use std::alloc::Global;

/// How many leaves a cube has; `None` where there are more than 64.
fn few_leaves(alloc: Global, pool: &Pool, cube: u64) -> Result<Option<u64>, OutOfMemory>
    requires { cube < length pool.now.nodes }
    ensures wide { IfOk result (λ count. IfNone count (64 < leaves (tree_of pool.now.nodes cube))) }
    ensures count { IfOk result (λ count. IfSome count
        (λ n. n ≡ leaves (tree_of pool.now.nodes cube))) }
    ensures few { IfOk result (λ count. IfSome count (λ n. n ≤ 64)) }
{
    match leaves(alloc, pool, cube) {
        Ok(count) => Ok(Some(count)),
        Err(CubeFault::WideCube) => Ok(None),
        Err(_) => Err(OutOfMemory),
    }
}

/// Whether the product of two cubes would have more than 64 leaves.
pub(crate) fn is_wide(
    alloc: Global,
    pool: &Pool,
    left: u64,
    right: u64,
) -> Result<bool, OutOfMemory>
    requires left { left < length pool.now.nodes }
    requires right { right < length pool.now.nodes }
    ensures { IfOk result (λ wide. nat_lt 64
        (leaves (product (tree_of pool.now.nodes left) (tree_of pool.now.nodes right))) ≡ wide) }
{
    let Some(left) = few_leaves(alloc, pool, left)? else {
        return Ok(true);
    };
    let Some(right) = few_leaves(alloc, pool, right)? else {
        return Ok(true);
    };
    Ok(left + right > 64)
}

/// Whether two ids stand for one tree.
pub(crate) fn is_same(pool: &Pool, i: u64, j: u64) -> bool
    requires left { i < length pool.now.nodes }
    requires right { j < length pool.now.nodes }
    ensures { same_tree (tree_of pool.now.nodes i) (tree_of pool.now.nodes j) ≡ result }
{
    pool.are_same(i, j)
}

/// Whether a cube is the directed interval.
pub(crate) fn is_interval(pool: &mut Pool, cube: u64) -> Result<bool, OutOfMemory>
    requires { cube < length pool.old.nodes }
    ensures test { IfOk result (λ is. same_tree (tree_of pool.old.nodes cube) cube_two ≡ is) }
    ensures grows { Grows pool.old.nodes pool.new.nodes }
{
    let interval = pool.make_unnamed(Kind::CubeTwo, 0, Kids::new())?;
    Ok(is_same(pool, cube, interval))
}
