//! What a file says.

ghost use Rattle.std.specs.Prelude.{◌≡◌, [], ◌∷◌, ◌++◌, OnOk};
ghost use Rattle.rz_drv.specs.Items.{item_of};
ghost use Rattle.rz_drv.specs.Part.{items_of, IsBehind};

use crate::items::Item;
use rz_rules::{Items, Line, Name, Node, OutOfMemory};
use std::alloc::Global;

/// What a derivation file says. Nodes and steps are named by their places in the file, each counted from 0.
#[derive(Debug, Drop)]
pub struct Part {
    /// The nodes; a node's kids are earlier ones.
    pub nodes: Items<Node>,
    /// The steps; a step's premises are earlier ones.
    pub lines: Items<Line>,
    /// The claims: a name, and the step that it names.
    pub claims: Items<(Name, u64)>,
}

impl Part {
    /// The part with nothing in it, which grows in the given allocator.
    pub fn new(alloc: Global) -> Part
        ensures { items_of result ≡ [] }
    {
        Part {
            nodes: Items::new(alloc),
            lines: Items::new(alloc),
            claims: Items::new(alloc),
        }
    }

    /// Adds an item behind the others.
    pub(crate) fn add(&mut self, item: Item) -> Result<(), OutOfMemory>
        requires { IsBehind self.old item }
        ensures { OnOk result (items_of self.new ≡ items_of self.old ++ item_of item ∷ []) }
    {
        match item {
            Item::Node(node) => self.nodes.push(node),
            Item::Step(line) => self.lines.push(line),
            Item::Claim(name, step) => self.claims.push((name, step)),
        }
    }
}
