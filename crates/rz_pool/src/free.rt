//! The spans of a node's free variables, from those of its kids.

ghost use Rattle.std.specs.Prelude.{◌≡◌, ◌<◌, All, length, map};
ghost use Rattle.rz_rules.specs.declared.kinds.Space.{Space};
ghost use Rattle.rz_rules.specs.Tree.{HasForm, tree_of, tree_over, trees_in, trees_of};
ghost use Rattle.rz_pool.specs.Spans.{span_of};
ghost use Rattle.rz_pool.specs.Free.{kids_bound, kids_least, AreSpansOf};

use crate::pool::Pool;
use crate::spans::Spans;
use rz_rules::{Node, Role, Slot};

impl Pool {
    /// The spans of a node that may be made here.
    pub(crate) fn spans_of(&self, node: &Node) -> Spans
        requires { HasForm (trees_in self.now.nodes) (length self.now.nodes) node.now }
        ensures { AreSpansOf (tree_over (trees_in self.now.nodes) node.now) result }
    {
        let form = node.kind.form();
        let kids = self.spans_of_kids(node.kids.as_slice(), form.kids);
        match form.role {
            Role::Variable(space) => kids.with(space, node.number),
            Role::Declared => Spans::EMPTY,
            Role::Former => kids,
        }
    }

    /// The spans of kids at these places, together.
    fn spans_of_kids(&self, ids: &[u64], slots: &[Slot]) -> Spans
        requires live { All (λ id. id < length self.now.nodes) ids.now }
        requires slots { length ids.now ≡ length slots.now }
        ensures bound { (space : Space) → (span_of result space).bound
            ≡ kids_bound space slots.now (trees_of (map (tree_of self.now.nodes) ids.now)) }
        ensures least { (space : Space) → (span_of result space).least
            ≡ kids_least space slots.now (trees_of (map (tree_of self.now.nodes) ids.now)) }
    {
        let mut spans = Spans::EMPTY;
        for i in 0..ids.len() {
            spans = spans.joined(self.spans(ids[i]), slots[i]);
        }
        spans
    }
}
