//! The test of a node before it is made.

ghost use Rattle.std.specs.Prelude.{◌≡◌, ◌<◌, ◌↔◌, IsTrue, length, map, All};
ghost use Rattle.rz_rules.specs.Tree.{HasForm, sort_of, tree_of, trees_in};

use crate::pool::Pool;
use rz_rules::{Node, Slot, Sort};

impl Pool {
    /// Whether a node may be made here.
    pub fn accepts(&self, node: &Node) -> bool
        ensures { IsTrue result
            ↔ HasForm (trees_in self.now.nodes) (length self.now.nodes) node.now }
    {
        node.is_labelled() && self.have_sorts(node.kids.as_slice(), node.kind.form().kids)
    }

    /// Whether these ids are there, and have the sorts of these places, one by one.
    fn have_sorts(&self, ids: &[u64], slots: &[Slot]) -> bool
        ensures { IsTrue result ↔ (All (λ id. id < length self.now.nodes) ids.now
            × (map sort_of (map (tree_of self.now.nodes) ids.now)
            ≡ map (λ slot. slot.sort) slots.now)) }
    {
        if ids.len() != slots.len() {
            return false;
        }
        for (i, id) in ids.iter().enumerate() {
            if !self.has_sort(*id, slots[i].sort) {
                return false;
            }
        }
        true
    }

    /// Whether an id is there, and has a sort.
    fn has_sort(&self, id: u64, sort: Sort) -> bool
        ensures { IsTrue result
            ↔ ((id < length self.now.nodes) × (sort_of (tree_of self.now.nodes id) ≡ sort)) }
    {
        id < self.len() && self.node(id).kind.form().sort == sort
    }
}
