//! The coordinates that occur in topes.

ghost use Rattle.std.specs.Prelude.{◌≡◌, ℕ, ◌<◌, ◌≤◌, ◌++◌, List, length, map, drop, nat_eq, IfOk, OnOk};
ghost use Rattle.rz_rules.specs.declared.coordinates.Coord.{Coord};
ghost use Rattle.std.specs.HashMap.{get};
ghost use Rattle.rz_rules.specs.Tree.{tree_of};
ghost use Rattle.rz_rules.specs.Validity.{compared, occurring};
ghost use Rattle.rz_pool.specs.Pool.{Grows};
ghost use Rattle.rz_cube.specs.Point.{binders_at};
ghost use Rattle.rz_pool.specs.Cubes.{AreCubes};
ghost use Rattle.rz_tope.specs.Occurrence.{occurrences, raised_by};
ghost use Rattle.rz_pool.specs.Entry.{IsLast};
ghost use Rattle.rz_tope.specs.Tope.{KidsHaveLists};

use crate::lists::{add, all_raised, merged, rest};
use rz_cube::{Points, cubes_of};
use rz_pool::{Entry, Last, Pool, last_entry, three_kids, two_kids};
use rz_rules::{Coords, Kind, OutOfMemory};
use std::alloc::Global;
use std::collections::HashMap;

/// The coordinates of variables that occur in the tope entries of a context or in a tope over it,
/// each once, in order of first occurrence, the context's outermost entry first. A variable counts
/// from the innermost entry of the whole context.
pub fn occurring(
    alloc: Global,
    pool: &mut Pool,
    context: u64,
    tope: u64,
) -> Result<Coords, OutOfMemory>
    requires context { context < length pool.old.nodes }
    requires tope { tope < length pool.old.nodes }
    ensures list { IfOk result (λ list. list ≡ occurring
        (tree_of pool.old.nodes context) (tree_of pool.old.nodes tope)) }
    ensures nodes { pool.new.nodes ≡ pool.old.nodes }
{
    let entries = cubes_of(alloc, pool, context)?;
    let list = compared(alloc, pool, &entries, tope)?;
    let mut walk = Walk {
        at: context,
        behind: 0,
        list,
    };
    while let Some(last) = last_entry(pool, walk.at) {
        walk.pass(alloc, pool, &entries, last)?;
    }
    Ok(walk.list)
}

/// A walk through a context, from its innermost entry to its outermost.
#[derive(Drop)]
pub(crate) struct Walk {
    /// The context that is still to be passed.
    at: u64,
    /// How many cube entries were passed.
    behind: usize,
    /// What occurs in the entries that were passed, and in the tope at the end.
    list: Coords,
}

impl Walk {
    ghost use Rattle.rz_tope.specs.Walk.{IsWalk};

    /// Passes the last entry of the context that is left.
    fn pass(
        &mut self,
        alloc: Global,
        pool: &mut Pool,
        entries: &[u64],
        last: Last,
    ) -> Result<(), OutOfMemory>
        requires lower { last.before < self.old.at }
        requires last { IsLast pool.old.nodes self.old.at last }
        requires entries { AreCubes pool.old.nodes entries.now }
        requires walk { (whole : List Coord) × IsWalk pool.old.nodes entries.now whole self.old }
        ensures walk { OnOk result ((whole : List Coord)
            → IsWalk pool.old.nodes entries.now whole self.old
            → IsWalk pool.old.nodes entries.now whole self.new) }
        ensures at { OnOk result (self.new.at ≡ last.before) }
        ensures nodes { pool.new.nodes ≡ pool.old.nodes }
    {
        match last.entry {
            Entry::Cube(_) => self.behind += 1,
            Entry::Tope(tope) => self.list = self.list_with(alloc, pool, entries, tope)?,
            Entry::Term(_) => {}
        }
        self.at = last.before;
        Ok(())
    }

    /// What occurs in a tope over the context that is left, and then what occurred so far.
    fn list_with(
        &self,
        alloc: Global,
        pool: &mut Pool,
        entries: &[u64],
        tope: u64,
    ) -> Result<Coords, OutOfMemory>
        requires entries { AreCubes pool.old.nodes entries.now }
        requires tope { tope < length pool.old.nodes }
        requires behind { self.now.behind ≤ length entries.now }
        ensures list { IfOk result (λ list. list ≡ occurrences (map (raised_by self.now.behind)
            (compared (binders_at pool.old.nodes (drop self.now.behind entries.now))
            (tree_of pool.old.nodes tope)) ++ self.now.list)) }
        ensures nodes { pool.new.nodes ≡ pool.old.nodes }
    {
        let list = compared(alloc, pool, rest(entries, self.behind), tope)?;
        let mut list = all_raised(alloc, list.as_slice(), self.behind as u64)?;
        add(&mut list, self.list.as_slice())?;
        Ok(list)
    }
}

/// The coordinates of variables that a tope over these cubes compares, each once.
fn compared(
    alloc: Global,
    pool: &mut Pool,
    entries: &[u64],
    tope: u64,
) -> Result<Coords, OutOfMemory>
    requires entries { AreCubes pool.old.nodes entries.now }
    requires tope { tope < length pool.old.nodes }
    ensures list { IfOk result (λ list. list ≡ occurrences
        (compared (binders_at pool.old.nodes entries.now) (tree_of pool.old.nodes tope))) }
    ensures nodes { pool.new.nodes ≡ pool.old.nodes }
{
    let mark = pool.mark();
    let answer = compared_with_cubes(alloc, pool, entries, tope);
    pool.release(mark);
    answer
}

/// The same, which leaves in the pool what it made there.
fn compared_with_cubes(
    alloc: Global,
    pool: &mut Pool,
    entries: &[u64],
    tope: u64,
) -> Result<Coords, OutOfMemory>
    requires entries { AreCubes pool.old.nodes entries.now }
    requires tope { tope < length pool.old.nodes }
    ensures list { IfOk result (λ list. list ≡ occurrences
        (compared (binders_at pool.old.nodes entries.now) (tree_of pool.old.nodes tope))) }
    ensures grows { Grows pool.old.nodes pool.new.nodes }
{
    let mut points = Points::new(alloc, pool)?;
    let mut table: HashMap<u64, Coords> = HashMap::new(alloc);
    let mut parts = pool.parts(tope)?;
    while let Some(part) = parts.pop() {
        points.cache(alloc, pool, entries, part)?;
        let list = compared_by_kids(alloc, pool, &points, &table, part)?;
        table.insert(part, list)?;
    }
    match table.remove(&tope) {
        Some(list) => Ok(list),
        None => unreachable!(),
    }
}

/// The coordinates that a tope compares, where those are cached its kids.
fn compared_by_kids(
    alloc: Global,
    pool: &Pool,
    points: &Points,
    table: &HashMap<u64, Coords>,
    id: u64,
) -> Result<Coords, OutOfMemory>
    requires there { id < length pool.now.nodes }
    requires kids { (entries : List ℕ)
        × KidsHaveLists pool.now.nodes entries points.now (get nat_eq table.now) id }
    ensures { IfOk result (λ list. (entries : List ℕ)
        → KidsHaveLists pool.now.nodes entries points.now (get nat_eq table.now) id
        → list ≡ occurrences (compared (binders_at pool.now.nodes entries)
        (tree_of pool.now.nodes id))) }
{
    let node = pool.node(id);
    match node.kind {
        Kind::Conjunction | Kind::Disjunction => {
            let (p, q) = two_kids(&node.kids);
            merged(alloc, table[&p].as_slice(), table[&q].as_slice())
        }
        Kind::EqualPoints => {
            let (_, s, u) = three_kids(&node.kids);
            let first = points.point(s).coordinates.as_slice();
            merged(alloc, first, points.point(u).coordinates.as_slice())
        }
        Kind::AtMost => {
            let (s, u) = two_kids(&node.kids);
            let first = points.point(s).coordinates.as_slice();
            merged(alloc, first, points.point(u).coordinates.as_slice())
        }
        _ => Ok(Coords::new(alloc)),
    }
}
