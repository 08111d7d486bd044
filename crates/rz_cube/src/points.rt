//! Points over the cubes of a context.
//!
//! What is known of a point is its cube, where it has one, and its coordinates. Each point is cached
//! once, after its kids. Cubes are made in the pool where they aren't there yet.

ghost use Rattle.std.specs.Prelude.{◌≡◌, ℕ, ◌<◌, [], ◌∷◌, ◌++◌, length, is_some, nat_eq, Some, None, IfOk, IfSome, IfNone, OnOk, map, option_map, option_and_then, slice_get, IsSome};
ghost use Rattle.std.specs.HashMap.{get};
ghost use Rattle.std.specs.Option.{option_copied};
ghost use Rattle.rz_rules.specs.declared.kinds.Sort.TheVariants.{Cube};
ghost use Rattle.rz_rules.specs.Form.{form};
ghost use Rattle.rz_rules.specs.Tree.{At, trees_of, tree_of};
ghost use Rattle.rz_rules.specs.Cube.{product as product_tree, cubes_of as entries_of, left_part, right_part};
ghost use Rattle.rz_rules.specs.Tope.{cube_of};
ghost use Rattle.rz_rules.specs.Coordinate.{coordinates, coordinates_of_variable, left_width};
ghost use Rattle.rz_pool.specs.Pool.{Grows};
ghost use Rattle.rz_cube.specs.Point.{binders_at};
ghost use Rattle.rz_pool.specs.Cubes.{AreCubes, AreKidsOf, IsCubeAt, IsCubeId};

use crate::lists::{back, copied, front, joined, only};
use crate::paths::paths;
use rz_pool::{
    Entry, Pool, last_entry, left_of, make_cube, one_kid, product_of, right_of, two_kids,
};
use rz_rules::{Coord, Coords, Kids, Kind, OutOfMemory};
use std::alloc::Global;
use std::collections::HashMap;

/// The cubes of a context's cube entries, the innermost first.
pub fn cubes_of(alloc: Global, pool: &Pool, context: u64) -> Result<Vec<u64>, OutOfMemory>
    requires { context < length pool.now.nodes }
    ensures trees { IfOk result (λ cubes. map (tree_of pool.now.nodes) cubes.items
        ≡ entries_of (tree_of pool.now.nodes context)) }
    ensures cubes { IfOk result (λ cubes. AreCubes pool.now.nodes cubes.items) }
{
    let mut cubes = Vec::new(alloc);
    let mut at = context;
    while let Some(last) = last_entry(pool, at) {
        if let Entry::Cube(cube) = last.entry {
            cubes.push(cube)?;
        }
        at = last.before;
    }
    Ok(cubes)
}

/// The cube of a variable; `None` where there is no such entry.
fn entry_cube(entries: &[u64], index: u64) -> Option<u64>
    ensures { result ≡ slice_get entries.now index }
{
    entries.get(index as usize).copied()
}

/// How many coordinates the points of the first part of a product have; 0 where there is none.
fn width_of_left(alloc: Global, pool: &Pool, cube: Option<u64>) -> Result<u64, OutOfMemory>
    requires { IfSome cube (IsCubeAt pool.now.nodes) }
    ensures { IfOk result (λ width. width
        ≡ left_width (option_map (tree_of pool.now.nodes) cube)) }
{
    match left_of(pool, cube) {
        Some(left) => Ok(paths(alloc, pool, left)?.len()),
        None => Ok(0),
    }
}

/// The coordinates of a variable of this cube; none where it has none.
fn variable_coordinates(
    alloc: Global,
    pool: &Pool,
    variable: u64,
    cube: Option<u64>,
) -> Result<Coords, OutOfMemory>
    requires { IfSome cube (IsCubeAt pool.now.nodes) }
    ensures { IfOk result (λ list. list
        ≡ coordinates_of_variable variable (option_map (tree_of pool.now.nodes) cube)) }
{
    let mut list = Coords::new(alloc);
    let Some(cube) = cube else {
        return Ok(list);
    };
    for path in paths(alloc, pool, cube)?.into_vec() {
        list.push(Coord::Of { variable, path })?;
    }
    Ok(list)
}

/// What is known of a point.
#[derive(Debug, Drop)]
pub struct CachedPoint {
    /// Its cube, an id of the pool; `None` where it has none.
    pub cube: Option<u64>,
    /// Its coordinates.
    pub coordinates: Coords,
}

/// What is known of points over some cubes, by their ids.
#[derive(Drop)]
pub struct Points {
    /// The directed interval.
    interval: u64,
    table: HashMap<u64, CachedPoint>,
}

impl Points {
    ghost use Rattle.rz_cube.specs.Cached.{IsPoints, Caches, CachesKids, cached_of};

    /// Nothing is cached yet.
    pub fn new(alloc: Global, pool: &mut Pool) -> Result<Points, OutOfMemory>
        ensures points { IfOk result (IsPoints pool.new.nodes) }
        ensures grows { Grows pool.old.nodes pool.new.nodes }
    {
        let interval = make_cube(pool, Kind::CubeTwo, Kids::new())?;
        Ok(Points {
            interval,
            table: HashMap::new(alloc),
        })
    }

    /// Caches a tree and all its parts, where the entries are cubes, the innermost first.
    pub fn cache_parts(
        &mut self,
        alloc: Global,
        pool: &mut Pool,
        entries: &[u64],
        tree: u64,
    ) -> Result<(), OutOfMemory>
        requires there { tree < length pool.old.nodes }
        requires entries { AreCubes pool.old.nodes entries.now }
        requires points { IsPoints pool.old.nodes self.old }
        ensures points { OnOk result (IsPoints pool.new.nodes self.new) }
        ensures cached { OnOk result (Caches pool.new.nodes entries.now self.new tree) }
        ensures grows { Grows pool.old.nodes pool.new.nodes }
    {
        let mut parts = pool.parts(tree)?;
        while let Some(part) = parts.pop() {
            self.cache(alloc, pool, entries, part)?;
        }
        Ok(())
    }

    /// Caches a tree, where its kids are cached.
    pub fn cache(
        &mut self,
        alloc: Global,
        pool: &mut Pool,
        entries: &[u64],
        id: u64,
    ) -> Result<(), OutOfMemory>
        requires there { id < length pool.old.nodes }
        requires entries { AreCubes pool.old.nodes entries.now }
        requires points { IsPoints pool.old.nodes self.old }
        requires kids { CachesKids pool.old.nodes entries.now self.old id }
        ensures points { OnOk result (IsPoints pool.new.nodes self.new) }
        ensures cached { OnOk result (Caches pool.new.nodes entries.now self.new id) }
        ensures kept { OnOk result ((q : ℕ) → Caches pool.old.nodes entries.now self.old q
            → Caches pool.new.nodes entries.now self.new q) }
        ensures grows { Grows pool.old.nodes pool.new.nodes }
    {
        let coordinates = self.coordinates_by_kids(alloc, pool, entries, id)?;
        let cube = self.cube_by_kids(alloc, pool, entries, id)?;
        self.table.insert(id, CachedPoint { cube, coordinates })?;
        Ok(())
    }

    /// The cube of a point, where its kids are cached; `None` where it has none.
    fn cube_by_kids(
        &self,
        alloc: Global,
        pool: &mut Pool,
        entries: &[u64],
        id: u64,
    ) -> Result<Option<u64>, OutOfMemory>
        requires there { id < length pool.old.nodes }
        requires entries { AreCubes pool.old.nodes entries.now }
        requires points { IsPoints pool.old.nodes self.now }
        requires kids { CachesKids pool.old.nodes entries.now self.now id }
        ensures cached { IfOk result (IsCubeId pool.new.nodes
            (cube_of (binders_at pool.old.nodes entries.now) (tree_of pool.old.nodes id))) }
        ensures grows { Grows pool.old.nodes pool.new.nodes }
    {
        let node = pool.node(id);
        match node.kind {
            Kind::PointVariable => Ok(entry_cube(entries, node.number)),
            Kind::OnlyPoint => Ok(Some(make_cube(pool, Kind::CubeOne, Kids::new())?)),
            Kind::Zero | Kind::One => Ok(Some(self.interval)),
            Kind::PointPair => {
                let (s, u) = two_kids(&node.kids);
                product_of(pool, self.point(s).cube, self.point(u).cube)
            }
            Kind::PointLeft => Ok(left_of(pool, self.point(one_kid(&node.kids)).cube)),
            Kind::PointRight => Ok(right_of(pool, self.point(one_kid(&node.kids)).cube)),
            _ => Ok(None),
        }
    }

    /// The coordinates of a point, where its kids are cached.
    fn coordinates_by_kids(
        &self,
        alloc: Global,
        pool: &Pool,
        entries: &[u64],
        id: u64,
    ) -> Result<Coords, OutOfMemory>
        requires there { id < length pool.now.nodes }
        requires entries { AreCubes pool.now.nodes entries.now }
        requires kids { CachesKids pool.now.nodes entries.now self.now id }
        ensures { IfOk result (λ list. list ≡ coordinates
            (binders_at pool.now.nodes entries.now) (tree_of pool.now.nodes id)) }
    {
        let node = pool.node(id);
        match node.kind {
            Kind::PointVariable => {
                let cube = entry_cube(entries, node.number);
                variable_coordinates(alloc, pool, node.number, cube)
            }
            Kind::Zero => only(alloc, Coord::Zero),
            Kind::One => only(alloc, Coord::One),
            Kind::PointPair => {
                let (s, u) = two_kids(&node.kids);
                let first = self.point(s).coordinates.as_slice();
                joined(alloc, first, self.point(u).coordinates.as_slice())
            }
            Kind::PointLeft => {
                let point = self.point(one_kid(&node.kids));
                let width = width_of_left(alloc, pool, point.cube)?;
                copied(alloc, front(point.coordinates.as_slice(), width))
            }
            Kind::PointRight => {
                let point = self.point(one_kid(&node.kids));
                let width = width_of_left(alloc, pool, point.cube)?;
                copied(alloc, back(point.coordinates.as_slice(), width))
            }
            _ => Ok(Coords::new(alloc)),
        }
    }

    /// What is known of a point that was cached.
    pub fn point(&self, id: u64) -> &CachedPoint
        requires { IsSome (cached_of self.now id) }
        ensures { cached_of self.now id ≡ Some result.now }
    {
        &self.table[&id]
    }
}
