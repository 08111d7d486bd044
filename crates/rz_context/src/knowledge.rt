//! What is known of points and topes over contexts.
//!
//! A tope is judged by its parts, each of which is visited once, after its kids, over the cube entries of a context.
//! What was found out is kept, and isn't found out again. The cube of each point is made in the pool where it isn't
//! there yet, so that cubes are compared by their ids.

ghost use Rattle.std.specs.Prelude.{◌≡◌, ℕ, ◌<◌, ◌≤◌, ◌↔◌, ◌⊎◌, [], ◌∷◌, length, true, IsTrue, All, Contains, None, Some, IfOk, IfSome, IfNone, OnOk, map, option_map, option_and_then, slice_get};
ghost use Rattle.std.specs.BTreeSet.{contains};
ghost use Rattle.std.specs.Ordering.{nat_cmp};
ghost use Rattle.rz_rules.specs.declared.kinds.Sort.TheVariants.{Cube};
ghost use Rattle.rz_rules.specs.declared.nodes.Node.{Node};
ghost use Rattle.rz_rules.specs.Form.{form};
ghost use Rattle.rz_rules.specs.Tree.{At, trees_of, tree_of};
ghost use Rattle.rz_rules.specs.Cube.{binders_of, cube_two, cubes_of, product as product_tree, left_part, right_part};
ghost use Rattle.rz_rules.specs.Tope.{cube_of, IsTopeOver, IsPointOf};
ghost use Rattle.rz_pool.specs.Pool.{Grows};
ghost use Rattle.rz_pool.specs.Cubes.{AreKidsOf, IsCubeAt, IsCubeId};
ghost use Rattle.rz_context.specs.Summary.{IsFound, measured};
ghost use Rattle.rz_context.specs.Knowledge.{IsAdded, IsCovered, IsKnown, IsCaching, IsCachedOf, Caches, CachesKids, cached_in, view_of};

use crate::summaries::{FoundEntry, Measure, Summaries};
use rz_pool::{
    HashKey, Pool, left_of, make_cube, one_kid, product_of, right_of, three_kids, two_kids,
};
use rz_rules::{Kids, Kind, Name, Node, OutOfMemory};
use std::alloc::Global;
use std::collections::{BTreeSet, HashMap};

/// A node that is looked at over a context.
#[derive(Clone, Copy, Debug, PartialEq, Eq, Hash)]
pub struct View {
    /// The id of the context.
    pub context: u64,
    /// The id of the node.
    pub node: u64,
}

/// What a node is over a context.
#[derive(Clone, Copy, Debug, PartialEq, Eq)]
pub struct Cached {
    /// The id of its cube, where it is a point that has one there.
    pub cube: Option<u64>,
    /// Whether it is a tope over the context.
    pub is_over: bool,
}

/// Whether the id of a cube is this one.
fn is_cube(id: Option<u64>, cube: u64) -> bool
    ensures { IsTrue result ↔ (id ≡ Some cube) }
{
    id == Some(cube)
}

/// Whether a cube is the directed interval.
fn is_interval(pool: &Pool, cube: Option<u64>) -> bool
    requires { IfSome cube (IsCubeAt pool.now.nodes) }
    ensures { IsTrue result
        ↔ (option_map (tree_of pool.now.nodes) cube ≡ Some cube_two) }
{
    let Some(id) = cube else {
        return false;
    };
    match pool.node(id).kind {
        Kind::CubeTwo => true,
        _ => false,
    }
}

/// What is known of the contexts of a pool, and of points and topes over them.
#[derive(Debug, Drop)]
pub struct Knowledge {
    /// The summaries of contexts.
    summaries: Summaries,
    /// What nodes are over contexts that end with a cube entry, or have no entry.
    cached: HashMap<View, Cached, HashKey>,
}

impl Knowledge {
    /// Knowledge of nothing.
    pub fn new(alloc: Global, pool: &Pool) -> Knowledge
        ensures { (nodes : _) → IsKnown nodes result }
    {
        Knowledge {
            summaries: Summaries::new(alloc),
            cached: HashMap::with_hasher(alloc, pool.hash_key()),
        }
    }

    /// What is known of a node over a context.
    fn cached(&self, context: u64, node: u64) -> Option<Cached>
        ensures { result ≡ cached_in self.now (view_of context node) }
    {
        self.cached.get(&View { context, node }).copied()
    }

    /// Notes what a node is over a context.
    fn note(&mut self, context: u64, node: u64, cached: Cached) -> Result<(), OutOfMemory>
        ensures cached { OnOk result (cached_in self.new (view_of context node) ≡ Some cached) }
        ensures others { OnOk result ((view : _) → (view ≡ view_of context node)
            ⊎ (cached_in self.new view ≡ cached_in self.old view)) }
        ensures summaries { self.new.summaries ≡ self.old.summaries }
    {
        self.cached.insert(View { context, node }, cached)?;
        Ok(())
    }

    /// The cube of a point that was cached; `None` where it has none.
    fn cube_at(&self, context: u64, node: u64) -> Option<u64>
        ensures { (nodes : _) → IsKnown nodes self.now → Caches self.now context node
            → IsCubeId nodes
            (cube_of (binders_of (tree_of nodes context)) (tree_of nodes node)) result }
    {
        self.cached(context, node)?.cube
    }

    /// Whether a tree is known to be a tope over a context.
    fn is_cached_over(&self, context: u64, node: u64) -> bool
        ensures { (nodes : _) → IsKnown nodes self.now → Caches self.now context node
            → IsTrue result ↔ IsTopeOver (binders_of (tree_of nodes context)) (tree_of nodes node) }
    {
        match self.cached(context, node) {
            Some(cached) => cached.is_over,
            None => false,
        }
    }

    /// Adds ids to those that wait, but those that are cached.
    fn add_uncached(
        &self,
        context: u64,
        waiting: &mut BTreeSet<u64>,
        ids: &[u64],
    ) -> Result<(), OutOfMemory>
        ensures { OnOk result (IsAdded (contains nat_cmp waiting.old) (contains nat_cmp waiting.new)
            (Caches self.now context) ids.now) }
    {
        for id in ids {
            self.add_if_uncached(context, waiting, *id)?;
        }
        Ok(())
    }

    /// Adds an id to those that wait, but where it is cached.
    fn add_if_uncached(
        &self,
        context: u64,
        waiting: &mut BTreeSet<u64>,
        id: u64,
    ) -> Result<(), OutOfMemory>
        ensures kept { OnOk result ((other : ℕ) → contains nat_cmp waiting.old other ≡ true
            → contains nat_cmp waiting.new other ≡ true) }
        ensures only { OnOk result ((other : ℕ) → contains nat_cmp waiting.new other ≡ true
            → (contains nat_cmp waiting.old other ≡ true) ⊎ (other ≡ id)) }
        ensures here { OnOk result ((contains nat_cmp waiting.new id ≡ true)
            ⊎ Caches self.now context id) }
    {
        if self.cached(context, id).is_none() {
            waiting.insert(id)?;
        }
        Ok(())
    }

    /// The parts of a tree of which it is not cached, each once, falling, so that each stands before its kids.
    fn uncached_parts(
        &self,
        alloc: Global,
        pool: &Pool,
        context: u64,
        id: u64,
    ) -> Result<Vec<u64>, OutOfMemory>
        requires { id < length pool.now.nodes }
        ensures { IfOk result
            (λ parts. IsCaching pool.now.nodes id (Caches self.now context) parts.items) }
    {
        let mut waiting = BTreeSet::new(alloc);
        self.add_uncached(context, &mut waiting, &[id])?;
        let mut parts = Vec::new(alloc);
        while let Some(part) = waiting.pop_last() {
            self.add_uncached(context, &mut waiting, pool.node(part).kids.as_slice())?;
            parts.push(part)?;
        }
        Ok(parts)
    }

    /// The cube of a variable; `None` where the context has no such cube entry.
    fn entry_cube(&self, pool: &Pool, context: u64, index: u64) -> Option<u64>
        requires known { IsKnown pool.now.nodes self.now }
        requires context { IsCovered self.now context }
        ensures { IsCubeId pool.now.nodes
            (slice_get (cubes_of (tree_of pool.now.nodes context)) index) result }
    {
        let found = self.summaries.find(pool, context, Measure::Cubes, index)?;
        Some(found.last.entry.tree())
    }

    /// The cube of a point, where that of its kids is known; `None` where it has none.
    fn point_cube(
        &self,
        alloc: Global,
        pool: &mut Pool,
        context: u64,
        id: u64,
    ) -> Result<Option<u64>, OutOfMemory>
        requires there { id < length pool.old.nodes }
        requires known { IsKnown pool.old.nodes self.now }
        requires context { IsCovered self.now context }
        requires kids { CachesKids pool.old.nodes self.now context id }
        ensures cached { IfOk result (IsCubeId pool.new.nodes (cube_of
            (binders_of (tree_of pool.old.nodes context)) (tree_of pool.old.nodes id))) }
        ensures grows { Grows pool.old.nodes pool.new.nodes }
    {
        let node = pool.node(id);
        match node.kind {
            Kind::PointVariable => Ok(self.entry_cube(pool, context, node.number)),
            Kind::OnlyPoint => Ok(Some(make_cube(pool, Kind::CubeOne, Kids::new())?)),
            Kind::Zero | Kind::One => { Ok(Some(make_cube(pool, Kind::CubeTwo, Kids::new())?)) }
            Kind::PointPair => {
                let (s, u) = two_kids(&node.kids);
                product_of(pool, self.cube_at(context, s), self.cube_at(context, u))
            }
            Kind::PointLeft => Ok(left_of(pool, self.cube_at(context, one_kid(&node.kids)))),
            Kind::PointRight => Ok(right_of(pool, self.cube_at(context, one_kid(&node.kids)))),
            _ => Ok(None),
        }
    }

    /// Whether a tree is a tope over a context, where that is known of its kids.
    fn is_over_by_kids(&self, pool: &Pool, context: u64, id: u64) -> bool
        requires there { id < length pool.now.nodes }
        requires known { IsKnown pool.now.nodes self.now }
        requires kids { CachesKids pool.now.nodes self.now context id }
        ensures { IsTrue result ↔ IsTopeOver (binders_of (tree_of pool.now.nodes context))
            (tree_of pool.now.nodes id) }
    {
        let node = pool.node(id);
        match node.kind {
            Kind::Top | Kind::Bottom => true,
            Kind::Conjunction | Kind::Disjunction => {
                let (p, q) = two_kids(&node.kids);
                self.is_cached_over(context, p) && self.is_cached_over(context, q)
            }
            Kind::EqualPoints => {
                let (cube, s, u) = three_kids(&node.kids);
                is_cube(self.cube_at(context, s), cube) && is_cube(self.cube_at(context, u), cube)
            }
            Kind::AtMost => {
                let (s, u) = two_kids(&node.kids);
                is_interval(pool, self.cube_at(context, s))
                    && is_interval(pool, self.cube_at(context, u))
            }
            _ => false,
        }
    }

    /// Caches what a tree is, where that is known of its kids.
    fn cache(
        &mut self,
        alloc: Global,
        pool: &mut Pool,
        context: u64,
        id: u64,
    ) -> Result<(), OutOfMemory>
        requires there { id < length pool.old.nodes }
        requires live { context < length pool.old.nodes }
        requires known { IsKnown pool.old.nodes self.old }
        requires context { IsCovered self.old context }
        requires kids { CachesKids pool.old.nodes self.old context id }
        ensures known { OnOk result (IsKnown pool.new.nodes self.new) }
        ensures cached { OnOk result (Caches self.new context id) }
        ensures kept { OnOk result ((node : ℕ) → Caches self.old context node
            → Caches self.new context node) }
        ensures summaries { self.new.summaries ≡ self.old.summaries }
        ensures grows { Grows pool.old.nodes pool.new.nodes }
    {
        let cube = self.point_cube(alloc, pool, context, id)?;
        let is_over = self.is_over_by_kids(pool, context, id);
        self.note(context, id, Cached { cube, is_over })?;
        Ok(())
    }

    /// Caches what a tree and its parts are over a context, each once, the kids before their node.
    fn cache_parts(
        &mut self,
        alloc: Global,
        pool: &mut Pool,
        context: u64,
        id: u64,
    ) -> Result<(), OutOfMemory>
        requires there { id < length pool.old.nodes }
        requires live { context < length pool.old.nodes }
        requires known { IsKnown pool.old.nodes self.old }
        requires context { IsCovered self.old context }
        ensures known { OnOk result (IsKnown pool.new.nodes self.new) }
        ensures cached { OnOk result (Caches self.new context id) }
        ensures summaries { self.new.summaries ≡ self.old.summaries }
        ensures grows { Grows pool.old.nodes pool.new.nodes }
    {
        let mut parts = self.uncached_parts(alloc, pool, context, id)?;
        while let Some(part) = parts.pop() {
            self.cache(alloc, pool, context, part)?;
        }
        Ok(())
    }

    /// The context at the start of this one with its cube entries, over which points and topes are cached.
    fn scope_of(&mut self, pool: &Pool, context: u64) -> Result<u64, OutOfMemory>
        requires there { context < length pool.now.nodes }
        requires known { IsKnown pool.now.nodes self.old }
        ensures there { IfOk result (λ scope. scope < length pool.now.nodes) }
        ensures covered { IfOk result (IsCovered self.new) }
        ensures cubes { IfOk result (λ scope. binders_of (tree_of pool.now.nodes scope)
            ≡ binders_of (tree_of pool.now.nodes context)) }
        ensures known { OnOk result (IsKnown pool.now.nodes self.new) }
    {
        self.summaries.learn(pool)?;
        Ok(self.summaries.scope(context))
    }

    /// Whether a tope is over a context. What it makes in the pool stays there.
    pub fn is_over(
        &mut self,
        alloc: Global,
        pool: &mut Pool,
        context: u64,
        tope: u64,
    ) -> Result<bool, OutOfMemory>
        requires context { context < length pool.old.nodes }
        requires tope { tope < length pool.old.nodes }
        requires known { IsKnown pool.old.nodes self.old }
        ensures over { IfOk result (λ yes. IsTrue yes ↔ IsTopeOver
            (binders_of (tree_of pool.old.nodes context)) (tree_of pool.old.nodes tope)) }
        ensures known { OnOk result (IsKnown pool.new.nodes self.new) }
        ensures grows { Grows pool.old.nodes pool.new.nodes }
    {
        let scope = self.scope_of(pool, context)?;
        self.cache_parts(alloc, pool, scope, tope)?;
        Ok(self.is_cached_over(scope, tope))
    }

    /// Whether a point is over a context and has this cube there. What it makes in the pool stays there.
    pub fn is_point_of(
        &mut self,
        alloc: Global,
        pool: &mut Pool,
        context: u64,
        cube: u64,
        point: u64,
    ) -> Result<bool, OutOfMemory>
        requires context { context < length pool.old.nodes }
        requires cube { cube < length pool.old.nodes }
        requires point { point < length pool.old.nodes }
        requires known { IsKnown pool.old.nodes self.old }
        ensures point { IfOk result (λ yes. IsTrue yes
            ↔ IsPointOf (binders_of (tree_of pool.old.nodes context))
            (tree_of pool.old.nodes cube) (tree_of pool.old.nodes point)) }
        ensures known { OnOk result (IsKnown pool.new.nodes self.new) }
        ensures grows { Grows pool.old.nodes pool.new.nodes }
    {
        let scope = self.scope_of(pool, context)?;
        self.cache_parts(alloc, pool, scope, point)?;
        match self.cube_at(scope, point) {
            Some(found) => Ok(pool.are_same(found, cube)),
            None => Ok(false),
        }
    }

    /// The entry of a context with this number, counted by a measure from 0 at the innermost; `None` where it has none.
    pub fn find(
        &mut self,
        pool: &Pool,
        context: u64,
        by: Measure,
        number: u64,
    ) -> Result<Option<FoundEntry>, OutOfMemory>
        requires context { context < length pool.now.nodes }
        requires known { IsKnown pool.now.nodes self.old }
        ensures found { IfOk result
            (λ answer. IfSome answer (IsFound pool.now.nodes context by number)) }
        ensures none { IfOk result (λ answer. IfNone answer
            (measured by (tree_of pool.now.nodes context) ≤ number)) }
        ensures known { OnOk result (IsKnown pool.now.nodes self.new) }
    {
        self.summaries.learn(pool)?;
        Ok(self.summaries.find(pool, context, by, number))
    }
}
