//! The cube and the coordinates of one point over a context.

ghost use Rattle.std.specs.Prelude.{◌≡◌, ◌≢◌, ◌<◌, length, Some, None, Err, IfOk, OnOk, IsSome};
ghost use Rattle.rz_rules.specs.Tree.{tree_of};
ghost use Rattle.rz_rules.specs.Cube.{binders_of};
ghost use Rattle.rz_rules.specs.Tope.{cube_of, IsPointOf};
ghost use Rattle.rz_rules.specs.Coordinate.{coordinates};
ghost use Rattle.rz_pool.specs.Pool.{Grows};
ghost use Rattle.rz_cube.specs.Cached.{CachesOver};

use crate::faults::CubeFault;
use crate::points::{Points, cubes_of};
use rz_pool::Pool;
use rz_rules::{Coords, OutOfMemory};
use std::alloc::Global;

/// The cube of a point over a context, an id of the pool, where it is made if it isn't there yet.
pub fn cube_of(alloc: Global, pool: &mut Pool, context: u64, point: u64) -> Result<u64, CubeFault>
    requires context { context < length pool.old.nodes }
    requires point { point < length pool.old.nodes }
    ensures cube { IfOk result (λ cube. IsPointOf (binders_of (tree_of pool.old.nodes context))
        (tree_of pool.new.nodes cube) (tree_of pool.old.nodes point)) }
    ensures within { IfOk result (λ cube. cube < length pool.new.nodes) }

    // A fault is want of memory, or the point has no cube there.
    ensures bad { result ≡ Err CubeFault.BadPoint → cube_of
        (binders_of (tree_of pool.old.nodes context)) (tree_of pool.old.nodes point) ≡ None }
    ensures no_other { result ≢ Err CubeFault.WideCube }

    ensures grows { Grows pool.old.nodes pool.new.nodes }
{
    let points = points_over(alloc, pool, context, point)?;
    points.point(point).cube.ok_or(CubeFault::BadPoint)
}

/// The coordinates of a point over a context, in order.
///
/// Each point below is visited once, and costs as much as it has coordinates. A projection costs
/// besides as much as the paths in the left part of its operand's cube are long.
pub fn coordinates(
    alloc: Global,
    pool: &mut Pool,
    context: u64,
    point: u64,
) -> Result<Coords, CubeFault>
    requires context { context < length pool.old.nodes }
    requires point { point < length pool.old.nodes }
    ensures list { IfOk result (λ list. list ≡ coordinates
        (binders_of (tree_of pool.old.nodes context)) (tree_of pool.old.nodes point)) }
    ensures point { OnOk result (IsSome (cube_of
        (binders_of (tree_of pool.old.nodes context)) (tree_of pool.old.nodes point))) }

    // A fault is want of memory, or the point has no cube there.
    ensures bad { result ≡ Err CubeFault.BadPoint → cube_of
        (binders_of (tree_of pool.old.nodes context)) (tree_of pool.old.nodes point) ≡ None }
    ensures no_other { result ≢ Err CubeFault.WideCube }

    ensures nodes { pool.new.nodes ≡ pool.old.nodes }
{
    let mark = pool.mark();
    let points = points_over(alloc, pool, context, point);
    pool.release(mark);
    let points = points?;
    let cached = points.point(point);
    match cached.cube {
        Some(_) => Ok(cached.coordinates.copy()?),
        None => Err(CubeFault::BadPoint),
    }
}

/// What is known of a point and its parts over a context.
fn points_over(
    alloc: Global,
    pool: &mut Pool,
    context: u64,
    point: u64,
) -> Result<Points, OutOfMemory>
    requires context { context < length pool.old.nodes }
    requires point { point < length pool.old.nodes }
    ensures cached { IfOk result (λ points. CachesOver pool.new.nodes
        (tree_of pool.old.nodes context) (tree_of pool.old.nodes point) points point) }
    ensures grows { Grows pool.old.nodes pool.new.nodes }
{
    let entries = cubes_of(alloc, pool, context)?;
    let mut points = Points::new(alloc, pool)?;
    points.cache_parts(alloc, pool, &entries, point)?;
    Ok(points)
}
