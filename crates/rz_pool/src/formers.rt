//! Nodes without a name.

ghost use Rattle.std.specs.Prelude.{◌≡◌, ◌<◌, [], length, map, IfOk};
ghost use Rattle.rz_rules.specs.Tree.{At, HasForm, tree_of, trees_in, trees_of};
ghost use Rattle.rz_pool.specs.Pool.{Grows, IsPool};

use crate::pool::Pool;
use rz_rules::{Kids, Kind, Name, Node, OutOfMemory};

impl Pool {
    /// The id of a node with neither number nor name.
    pub fn make_former(&mut self, kind: Kind, kids: Kids) -> Result<u64, OutOfMemory>
        requires { HasForm (trees_in self.old.nodes) (length self.old.nodes)
            (record { kind = kind; number = 0; name = []; kids = kids }) }
        ensures within { IfOk result (λ id. id < length self.new.nodes) }
        ensures tree { IfOk result (λ id. tree_of self.new.nodes id
            ≡ At kind 0 [] (trees_of (map (tree_of self.old.nodes) kids))) }
        ensures grows { Grows self.old.nodes self.new.nodes }
        ensures pool { IsPool self.new.nodes }
    {
        let name = Name::new(self.allocator());
        self.make(Node {
            kind,
            number: 0,
            name,
            kids,
        })
    }

    /// The id of a node without a name. Where its form isn't that of its kind, as where the index of a variable would
    /// reach 2^32, it is refused.
    pub fn make_unnamed(&mut self, kind: Kind, number: u64, kids: Kids) -> Result<u64, OutOfMemory>
        ensures within { IfOk result (λ id. id < length self.new.nodes) }
        ensures tree { IfOk result (λ id. tree_of self.new.nodes id
            ≡ At kind number [] (trees_of (map (tree_of self.old.nodes) kids))) }
        ensures grows { Grows self.old.nodes self.new.nodes }
    {
        let node = Node {
            kind,
            number,
            name: Name::new(self.allocator()),
            kids,
        };
        if !self.accepts(&node) {
            return Err(OutOfMemory);
        }
        self.make(node)
    }
}
