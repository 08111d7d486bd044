//! Copies of trees from one pool into another.

ghost use Rattle.std.specs.Prelude.{◌≡◌, ℕ, Some, ◌+◌, ◌<◌, ◌||◌, nat_eq, length, map, All, IfOk, OnOk, IsSome, unwrap_or, slice_get};
ghost use Rattle.std.specs.List.{list_any};
ghost use Rattle.std.specs.Ordering.{nat_cmp, eq_by_cmp};
ghost use Rattle.std.specs.BTreeSet.{contains};
ghost use Rattle.std.specs.HashMap.{get};
ghost use Rattle.rz_rules.specs.Tree.{tree_of};
ghost use Rattle.rz_pool.specs.Part.{IsPart};
ghost use Rattle.rz_pool.specs.Pool.{Adds};
ghost use Rattle.rz_pool.specs.Copy.{ListsParts, IsCopied};

use crate::keys::HashKey;
use crate::pool::Pool;
use crate::waiting::add_all;
use rz_rules::{Kids, Node, OutOfMemory};
use std::collections::{BTreeSet, HashMap};

/// The copies' ids of these ids, each of which has a copy.
fn copied_kids(kids: &Kids, copies: &HashMap<u64, u64, HashKey>) -> Kids
    requires { All (λ kid. IsSome (get nat_eq copies.now kid)) kids.now }
    ensures { result ≡ map (λ kid. unwrap_or (get nat_eq copies.now kid) 0) kids.now }
{
    let mut copied = Kids::new();
    for kid in kids.as_slice() {
        copied.push(copies[kid]);
    }
    copied
}

impl Pool {
    /// Copies a tree into another pool, which shares what it has of it already, and answers the
    /// copy's id there.
    ///
    /// It visits each node below the id once, whatever the size of the two pools. A refusal may
    /// leave some parts of the tree behind.
    pub fn copy_to(&self, id: u64, to: &mut Pool) -> Result<u64, OutOfMemory>
        requires { id < length self.now.nodes }
        ensures within { IfOk result (λ copy. copy < length to.new.nodes) }
        ensures tree { IfOk result (λ copy. tree_of to.new.nodes copy ≡ tree_of self.now.nodes id) }

        // Whatever it answers, only the tree and its parts were added.
        ensures adds { Adds (IsPart (tree_of self.now.nodes id)) to.old.nodes to.new.nodes }
    {
        let parts = self.parts(id)?;
        let copies = self.copy_parts(id, parts, to)?;
        Ok(copies[&id])
    }

    /// The id and all ids below it, each once, falling.
    ///
    /// The contract says that the id is listed, that all listed ids stand for parts of its tree,
    /// and that each kid of a listed node stands after it. So a walk from the end of the list comes
    /// to
    /// each node after its kids.
    pub fn parts(&self, id: u64) -> Result<Vec<u64>, OutOfMemory>
        requires { id < length self.now.nodes }
        ensures { IfOk result (λ parts. ListsParts self.now.nodes id parts.items) }
    {
        let alloc = self.allocator();
        let mut waiting = BTreeSet::new(alloc);
        waiting.insert(id)?;
        let mut parts = Vec::new(alloc);
        while let Some(part) = waiting.pop_last() {
            add_all(&mut waiting, self.node(part).kids.as_slice())?;
            parts.push(part)?;
        }
        Ok(parts)
    }

    /// The copies of the listed nodes, by their ids here.
    fn copy_parts(
        &self,
        id: u64,
        mut parts: Vec<u64>,
        to: &mut Pool,
    ) -> Result<HashMap<u64, u64, HashKey>, OutOfMemory>
        requires { ListsParts self.now.nodes id parts.items }
        ensures copied { IfOk result
            (λ copies. IsCopied (get nat_eq copies) self.now.nodes to.new.nodes id) }
        ensures adds { Adds (IsPart (tree_of self.now.nodes id)) to.old.nodes to.new.nodes }
    {
        let mut copies = HashMap::with_hasher(self.allocator(), self.hash_key());
        while let Some(part) = parts.pop() {
            let copy = self.copy_node(part, &copies, to)?;
            copies.insert(part, copy)?;
        }
        Ok(copies)
    }

    /// The copy of one node whose kids have copies.
    fn copy_node(
        &self,
        id: u64,
        copies: &HashMap<u64, u64, HashKey>,
        to: &mut Pool,
    ) -> Result<u64, OutOfMemory>
        requires live { id < length self.now.nodes }
        requires kids { (node : _) → slice_get self.now.nodes id ≡ Some node
            → All (IsCopied (get nat_eq copies.now) self.now.nodes to.old.nodes) node.kids }
        ensures within { IfOk result (λ copy. copy < length to.new.nodes) }
        ensures tree { IfOk result (λ copy. tree_of to.new.nodes copy ≡ tree_of self.now.nodes id) }
        ensures adds { Adds (λ tree. tree ≡ tree_of self.now.nodes id) to.old.nodes to.new.nodes }
    {
        let node = self.node(id);
        let copy = Node {
            kind: node.kind,
            number: node.number,
            name: node.name.copy()?,
            kids: copied_kids(&node.kids, copies),
        };
        to.make(copy)
    }
}
