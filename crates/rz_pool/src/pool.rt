//! Nodes that are kept once each.

ghost use Rattle.std.specs.Prelude.{IsTrue, ◌≡◌, [], Some, ◌+◌, ◌<◌, ◌≤◌, ◌↔◌, ℕ, length, take, slice_get, Contains, IsOk, IfOk, OnOk, OnErr, IfSome};
ghost use Rattle.rz_rules.specs.Tree.{HasForm, tree_of, tree_over, trees_in};
ghost use Rattle.rz_rules.specs.Substitution.{NoneFrom};
ghost use Rattle.rz_pool.specs.Free.{free_bound, free_least, NoneBetween, AreSpansOf};
ghost use Rattle.rz_pool.specs.Pool.{IsPool, Grows, Makes};

use crate::kept::Kept;
use crate::keys::HashKey;
use crate::spans::Spans;
use indexmap::IndexMap;
use rz_rules::{Node, OutOfMemory, Space};
use std::alloc::Global;
use std::marker::Model;

/// Nodes by their ids, which count up from 0 in the order in which the nodes were made.
#[derive(Debug, Drop)]
pub struct Pool {
    /// Each node, with the spans of the free variables of its tree.
    nodes: IndexMap<Node, Spans, HashKey>,
    /// Answers of questions on these trees.
    pub(crate) kept: Kept,
}

impl Model for Pool {
    ghost use Rattle.indexmap.specs.IndexMap.{keys, values, spare};
    ghost use Rattle.rz_pool.specs.Pool.{Contents, IsPool};
    ghost use Rattle.rz_pool.specs.Free.{HaveSpans};
    ghost use Rattle.rz_pool.specs.Kept.{AreRight, pairs_of};

    ghost Value = { Contents };

    ghost view = { λ pool. record { nodes = keys pool.nodes; spare = spare pool.nodes } };

    ghost invariant = { λ pool. IsPool (keys pool.nodes)
        × HaveSpans (keys pool.nodes) (values pool.nodes)
        × AreRight (keys pool.nodes) (pairs_of pool.kept.table) };
}

impl Pool {
    /// The empty pool, which grows in the given allocator and hashes by a key that everybody knows.
    pub fn new(alloc: Global) -> Pool
        ensures empty { result.nodes ≡ [] }
        ensures pool { IsPool result.nodes }
    {
        Pool::keyed(alloc, HashKey::KNOWN)
    }

    /// The empty pool, which grows in the given allocator and hashes by this key. No answer depends
    /// on the key.
    pub fn keyed(alloc: Global, key: HashKey) -> Pool
        ensures empty { result.nodes ≡ [] }
        ensures pool { IsPool result.nodes }
    {
        Pool {
            nodes: IndexMap::with_hasher(alloc, key),
            kept: Kept::nothing(),
        }
    }

    /// The key by which the pool hashes, for tables that are filled with ids of it.
    pub fn hash_key(&self) -> HashKey {
        *self.nodes.hasher()
    }

    /// The allocator in which the pool grows.
    pub(crate) fn allocator(&self) -> Global {
        *self.nodes.allocator()
    }

    /// The id of a node in this pool: that of the equal node where there is one, else a new one,
    /// the last.
    ///
    /// Its kids are ids of this pool. `accepts` tells whether a node has the form that it needs.
    pub fn make(&mut self, node: Node) -> Result<u64, OutOfMemory>
        requires { HasForm (trees_in self.old.nodes) (length self.old.nodes) node }
        ensures makes { IfOk result (Makes self.old.nodes node self.new.nodes) }
        ensures tree { IfOk result (λ id. tree_of self.new.nodes id
            ≡ tree_over (trees_in self.old.nodes) node) }
        ensures within { IfOk result (λ id. id < length self.new.nodes) }

        // A refusal changes nothing, and only a new node is refused.
        ensures err { OnErr result (self.new.nodes ≡ self.old.nodes) }
        ensures absent { OnErr result (¬ (Contains self.old.nodes node)) }

        // With room to spare it succeeds, and it uses up at most one place.
        ensures succeeds { 0 < self.old.spare → IsOk result }
        ensures spare { self.old.spare ≤ self.new.spare + 1 }

        ensures grows { Grows self.old.nodes self.new.nodes }
        ensures pool { IsPool self.new.nodes }
    {
        if let Some(id) = self.find(&node) {
            return Ok(id);
        }
        let spans = self.spans_of(&node);
        let (id, _) = self.nodes.insert_full(node, spans)?;
        Ok(id as u64)
    }

    /// The id of the equal node, where there is one.
    fn find(&self, node: &Node) -> Option<u64>
        ensures found { IfSome result (λ id. slice_get self.now.nodes id ≡ Some node.now) }
        ensures pool { IsPool self.now.nodes }
    {
        match self.nodes.get_index_of(node) {
            Some(id) => Some(id as u64),
            None => None,
        }
    }

    /// The node of an id of this pool.
    pub fn node(&self, id: u64) -> &Node
        requires { id < length self.now.nodes }
        ensures node { slice_get self.now.nodes id ≡ Some result.now }
        ensures tree { tree_of self.now.nodes id ≡ tree_over (trees_in self.now.nodes) result.now }
        ensures form { HasForm (trees_in self.now.nodes) id result.now }
        ensures pool { IsPool self.now.nodes }
    {
        match self.nodes.get_index(id as usize) {
            Some((node, _)) => node,
            None => unreachable!(),
        }
    }

    /// The spans of the free variables of a tree.
    pub(crate) fn spans(&self, id: u64) -> Spans
        requires { id < length self.now.nodes }
        ensures spans { AreSpansOf (tree_of self.now.nodes id) result }
        ensures pool { IsPool self.now.nodes }
    {
        self.nodes[id as usize]
    }

    /// The least index from which the tree of an id has no free variable of a space.
    ///
    /// It is one more than the greatest index of a free variable, and 0 where there is none.
    pub fn free_bound(&self, space: Space, id: u64) -> u64
        requires { id < length self.now.nodes }
        ensures value { result ≡ free_bound space (tree_of self.now.nodes id) }
        ensures least { (limit : ℕ)
            → NoneFrom space limit (tree_of self.now.nodes id) ↔ (result ≤ limit) }
        ensures pool { IsPool self.now.nodes }
    {
        self.spans(id).of(space).bound
    }

    /// An index below which the tree of an id has no free variable of a space.
    ///
    /// It is the least index of a free variable, or it is 0. A node keeps this one number and not
    /// all the indices, so it may be 0 where a binder in the tree has taken away the least of them.
    pub fn free_least(&self, space: Space, id: u64) -> u64
        requires { id < length self.now.nodes }
        ensures value { result ≡ free_least space (tree_of self.now.nodes id) }
        ensures least { 0 < result → (limit : ℕ)
            → NoneBetween space 0 limit (tree_of self.now.nodes id) ↔ (limit ≤ result) }
        ensures pool { IsPool self.now.nodes }
    {
        self.spans(id).of(space).least
    }

    /// Whether two ids stand for one tree: they do exactly where they are equal.
    pub fn are_same(&self, i: u64, j: u64) -> bool
        ensures same { IsTrue result ↔ (i ≡ j) }
        ensures pool { IsPool self.now.nodes }
    {
        let _ = &self.nodes;
        i == j
    }

    /// How many nodes there are: the ids are the numbers below it.
    pub fn len(&self) -> u64
        ensures len { result ≡ length self.now.nodes }
        ensures trees { (i j : ℕ) → i < result → j < result
            → (tree_of self.now.nodes i ≡ tree_of self.now.nodes j) ↔ (i ≡ j) }
        ensures pool { IsPool self.now.nodes }
    {
        self.nodes.len() as u64
    }

    /// The place to which `release` takes the pool back: the number of its nodes.
    pub fn mark(&self) -> u64
        ensures mark { result ≡ length self.now.nodes }
        ensures pool { IsPool self.now.nodes }
    {
        self.len()
    }

    /// Ends the ids from a mark on. The others keep their nodes, and the memory stays.
    pub fn release(&mut self, mark: u64)
        requires { mark ≤ length self.old.nodes }
        ensures nodes { self.new.nodes ≡ take mark self.old.nodes }
        ensures spare { self.old.spare ≤ self.new.spare }
        ensures pool { IsPool self.new.nodes }
    {
        if self.len() <= mark {
            return;
        }
        self.kept.clear();
        self.nodes.truncate(mark as usize);
    }

    /// Makes room for `n` more nodes, so that the next `n` calls of `make` need no memory.
    pub fn reserve(&mut self, n: u64) -> Result<(), OutOfMemory>
        ensures nodes { self.new.nodes ≡ self.old.nodes }
        ensures ok { OnOk result (n ≤ self.new.spare) }
        ensures succeeds { n ≤ self.old.spare → IsOk result }
        ensures spare { self.old.spare ≤ self.new.spare }
        ensures pool { IsPool self.new.nodes }
    {
        self.nodes.reserve(n as usize)?;
        Ok(())
    }
}
