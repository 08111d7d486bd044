//! What is known while a file is read.

ghost use Rattle.std.specs.Prelude.{◌≡◌, ◌↔◌, length, IsTrue, IfOk, OnOk};
ghost use Rattle.std.specs.Bool.{OnTrue};
ghost use Rattle.rz_rules.specs.Tree.{HasForm, trees_in};
ghost use Rattle.rz_rules.specs.File.{NodeItem, StepItem, NodeFits, StepFits, Fits, ItemFollows, empty_state, extended};
ghost use Rattle.rz_drv.specs.Items.{item_of};
ghost use Rattle.rz_kernel.specs.State.{file_state, with_tree, IsKernelState};

use crate::places::{judgment_at, kids_at};
use rz_context::Knowledge;
use rz_drv::Item;
use rz_kernel_rows::follows_with;
use rz_pool::{HashKey, Pool};
use rz_rules::{Judgment, Line, Name, Node, OutOfMemory};
use std::alloc::Global;

/// What the lines so far give.
#[derive(Drop)]
pub struct KernelState {
    /// The different nodes of the file, each once.
    pub pool: Pool,
    /// For each node of the file in order, its id in the pool.
    pub places: Vec<u64>,
    /// What the steps of the file say, in order, over ids of the pool.
    pub said: Vec<Judgment>,
    /// What is known of the contexts of the pool.
    pub known: Knowledge,
    /// The claims of the file in order: a name, and the number of the step that it names.
    pub claims: Vec<(Name, u64)>,
}

impl KernelState {
    /// The state before the first item. The key is for the table of nodes.
    pub fn new(alloc: Global, key: HashKey) -> KernelState
        ensures empty { file_state result ≡ empty_state }
        ensures state { IsKernelState result }
    {
        let pool = Pool::keyed(alloc, key);
        KernelState {
            known: Knowledge::new(alloc, &pool),
            pool,
            places: Vec::new(alloc),
            said: Vec::new(alloc),
            claims: Vec::new(alloc),
        }
    }

    /// Adds a node over ids of the pool.
    pub fn add_node(&mut self, node: Node) -> Result<(), OutOfMemory>
        requires state { IsKernelState self.old }
        requires form { HasForm (trees_in self.old.pool.nodes) (length self.old.pool.nodes) node }
        ensures tree { OnOk result (file_state self.new ≡ with_tree self.old node) }
        ensures state { OnOk result (IsKernelState self.new) }
    {
        let place = self.pool.make(node)?;
        self.places.push(place)?;
        Ok(())
    }

    /// Takes the next item of the file, which fits; `false` where it is a step that doesn't follow.
    pub fn take(&mut self, alloc: Global, item: Item) -> Result<bool, OutOfMemory>
        requires state { IsKernelState self.old }
        requires fits { Fits (file_state self.old) (item_of item) }
        ensures follows { IfOk result (λ good. IsTrue good
            ↔ ItemFollows (file_state self.old) (item_of item)) }
        ensures known { IfOk result (λ good. OnTrue good
            (file_state self.new ≡ extended (file_state self.old) (item_of item))) }
        ensures state { OnOk result (IsKernelState self.new) }
    {
        match item {
            Item::Node(node) => self.take_node(node)?,
            Item::Step(line) => return self.take_step(alloc, line),
            Item::Claim(name, step) => self.claims.push((name, step))?,
        }
        Ok(true)
    }

    /// Takes a node of the file.
    fn take_node(&mut self, node: Node) -> Result<(), OutOfMemory>
        requires state { IsKernelState self.old }
        requires fits { NodeFits (file_state self.old) node }
        ensures known { OnOk result (file_state self.new
            ≡ extended (file_state self.old) (NodeItem node)) }
        ensures state { OnOk result (IsKernelState self.new) }
    {
        let kids = kids_at(&self.places, node.kids.as_slice());
        self.add_node(Node {
            kind: node.kind,
            number: node.number,
            name: node.name,
            kids,
        })
    }

    /// Takes a step of the file; `false` where it doesn't follow.
    fn take_step(&mut self, alloc: Global, line: Line) -> Result<bool, OutOfMemory>
        requires state { IsKernelState self.old }
        requires fits { StepFits (file_state self.old) line }
        ensures follows { IfOk result (λ good. IsTrue good
            ↔ ItemFollows (file_state self.old) (StepItem line)) }
        ensures known { IfOk result (λ good. OnTrue good
            (file_state self.new ≡ extended (file_state self.old) (StepItem line))) }
        ensures state { OnOk result (IsKernelState self.new) }
    {
        let says = judgment_at(&self.places, line.says);
        let placed = Line {
            row: line.row,
            number: line.number,
            says,
            from: line.from,
        };
        if !follows_with(alloc, &mut self.pool, &mut self.known, &self.said, &placed)? {
            return Ok(false);
        }
        self.said.push(says)?;
        Ok(true)
    }
}
