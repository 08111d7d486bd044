//! The truth of topes.

ghost use Rattle.std.specs.Prelude.{◌≡◌, ℕ, ◌<◌, List, length, nat_eq, IfOk};
ghost use Rattle.std.specs.HashMap.{get};
ghost use Rattle.rz_rules.specs.Tree.{tree_of};
ghost use Rattle.rz_rules.specs.Cube.{binders_of};
ghost use Rattle.rz_rules.specs.Validity.{rank_in, truth};
ghost use Rattle.rz_pool.specs.Pool.{Grows};
ghost use Rattle.rz_cube.specs.Point.{binders_at};
ghost use Rattle.rz_pool.specs.Cubes.{AreCubes};
ghost use Rattle.rz_tope.specs.Tope.{KidsHaveTruths};

use crate::ranks::{first_value, values};
use rz_cube::{Points, cubes_of};
use rz_pool::{Pool, three_kids, two_kids};
use rz_rules::{Coord, Kind, OutOfMemory, Ranks};
use std::alloc::Global;
use std::collections::HashMap;

/// Whether a tope over a context is true where the coordinates of its points have these ranks.
///
/// Each part is visited once, and costs as much as its points have coordinates.
pub fn truth(
    alloc: Global,
    pool: &mut Pool,
    context: u64,
    tope: u64,
    ranks: &Ranks,
) -> Result<bool, OutOfMemory>
    requires context { context < length pool.old.nodes }
    requires tope { tope < length pool.old.nodes }
    ensures truth { IfOk result (λ answer. answer ≡ truth
        (binders_of (tree_of pool.old.nodes context)) (rank_in ranks.now)
        (tree_of pool.old.nodes tope)) }
    ensures nodes { pool.new.nodes ≡ pool.old.nodes }
{
    let mark = pool.mark();
    let answer = truth_with_cubes(alloc, pool, context, tope, ranks.as_slice());
    pool.release(mark);
    answer
}

/// The same, which leaves in the pool what it made there.
fn truth_with_cubes(
    alloc: Global,
    pool: &mut Pool,
    context: u64,
    tope: u64,
    ranks: &[(Coord, u64)],
) -> Result<bool, OutOfMemory>
    requires context { context < length pool.old.nodes }
    requires tope { tope < length pool.old.nodes }
    ensures truth { IfOk result (λ answer. answer ≡ truth
        (binders_of (tree_of pool.old.nodes context)) (rank_in ranks.now)
        (tree_of pool.old.nodes tope)) }
    ensures grows { Grows pool.old.nodes pool.new.nodes }
{
    let entries = cubes_of(alloc, pool, context)?;
    truth_over(alloc, pool, &entries, tope, ranks)
}

/// Whether a tope over these cubes is true at these ranks.
fn truth_over(
    alloc: Global,
    pool: &mut Pool,
    entries: &[u64],
    tope: u64,
    ranks: &[(Coord, u64)],
) -> Result<bool, OutOfMemory>
    requires entries { AreCubes pool.old.nodes entries.now }
    requires tope { tope < length pool.old.nodes }
    ensures truth { IfOk result (λ answer. answer ≡ truth
        (binders_at pool.old.nodes entries.now) (rank_in ranks.now)
        (tree_of pool.old.nodes tope)) }
    ensures grows { Grows pool.old.nodes pool.new.nodes }
{
    let mut points = Points::new(alloc, pool)?;
    let mut table = HashMap::new(alloc);
    let mut parts = pool.parts(tope)?;
    while let Some(part) = parts.pop() {
        points.cache(alloc, pool, entries, part)?;
        let answer = truth_by_kids(alloc, pool, &points, &table, ranks, part)?;
        table.insert(part, answer)?;
    }
    Ok(table[&tope])
}

/// Whether a tope is true, where that and the coordinates of points are cached its kids.
fn truth_by_kids(
    alloc: Global,
    pool: &Pool,
    points: &Points,
    table: &HashMap<u64, bool>,
    ranks: &[(Coord, u64)],
    id: u64,
) -> Result<bool, OutOfMemory>
    requires there { id < length pool.now.nodes }
    requires kids { (entries : List ℕ)
        × KidsHaveTruths pool.now.nodes entries ranks.now points.now (get nat_eq table.now) id }
    ensures { IfOk result (λ answer. (entries : List ℕ)
        → KidsHaveTruths pool.now.nodes entries ranks.now points.now (get nat_eq table.now) id
        → answer ≡ truth (binders_at pool.now.nodes entries) (rank_in ranks.now)
        (tree_of pool.now.nodes id)) }
{
    let node = pool.node(id);
    match node.kind {
        Kind::Top => Ok(true),
        Kind::Conjunction => {
            let (p, q) = two_kids(&node.kids);
            let first = table[&p];
            let second = table[&q];
            Ok(first && second)
        }
        Kind::Disjunction => {
            let (p, q) = two_kids(&node.kids);
            let first = table[&p];
            let second = table[&q];
            Ok(first || second)
        }
        Kind::EqualPoints => {
            let (_, s, u) = three_kids(&node.kids);
            let first = values(alloc, ranks, points.point(s).coordinates.as_slice())?;
            let second = values(alloc, ranks, points.point(u).coordinates.as_slice())?;
            Ok(first.as_slice() == second.as_slice())
        }
        Kind::AtMost => {
            let (s, u) = two_kids(&node.kids);
            let first = values(alloc, ranks, points.point(s).coordinates.as_slice())?;
            let second = values(alloc, ranks, points.point(u).coordinates.as_slice())?;
            Ok(first_value(&first) <= first_value(&second))
        }
        _ => Ok(false),
    }
}
