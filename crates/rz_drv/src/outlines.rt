//! What a file's items so far are for those behind them.

ghost use Rattle.std.specs.Prelude.{◌≡◌, ◌+◌, ◌<◌, ◌↔◌, ◌^◌, All, IsTrue, OnOk, OnErr, Some, map, slice_get};
ghost use Rattle.rz_rules.specs.Judgment.{ids_of, kind_of, sorts_of};
ghost use Rattle.rz_rules.specs.File.{FileState, Fits, empty_state, extended};
ghost use Rattle.rz_drv.specs.Items.{item_of, IsItem};
ghost use Rattle.rz_drv.specs.Outline.{IsOutline};

use crate::items::Item;
use rz_rules::{Judgment, Line, Node, OutOfMemory, Slot, Sort};
use std::alloc::Global;

/// What a file's items so far are for those behind them.
#[derive(Drop)]
pub struct Outline {
    /// The sort of each node.
    pub sorts: Vec<Sort>,
    /// How many steps there are.
    pub steps: u64,
    /// Whether there is a claim.
    pub claimed: bool,
}

impl Outline {
    /// The outline of no items.
    pub fn new(alloc: Global) -> Outline
        ensures { IsOutline empty_state result }
    {
        Outline {
            sorts: Vec::new(alloc),
            steps: 0,
            claimed: false,
        }
    }

    /// Whether an item fits behind those before it.
    pub fn takes(&self, item: &Item) -> bool
        requires { IsItem (item_of item.now) }
        ensures { (known : FileState) → IsOutline known self.now
            → (IsTrue result ↔ Fits known (item_of item.now)) }
    {
        match item {
            Item::Node(node) => self.takes_node(node),
            Item::Step(line) => self.takes_step(line),
            Item::Claim(_, step) => *step < self.steps,
        }
    }

    /// Adds an item that fits.
    pub fn add(&mut self, item: &Item) -> Result<(), OutOfMemory>
        requires { self.old.steps + 1 < 2 ^ 64 }
        ensures ok { OnOk result ((known : FileState) → IsOutline known self.old
            → IsOutline (extended known (item_of item.now)) self.new) }
        ensures err { OnErr result ((known : FileState) → IsOutline known self.old
            → IsOutline known self.new) }
    {
        match item {
            Item::Node(node) => self.sorts.push(node.kind.form().sort)?,
            Item::Step(_) => self.steps += 1,
            Item::Claim(_, _) => self.claimed = true,
        }
        Ok(())
    }

    /// Whether a node fits: no step or claim stands before it, and its kids are there with the sorts of its kind.
    fn takes_node(&self, node: &Node) -> bool
        requires { IsItem (item_of (Item.Node node.now)) }
        ensures { (known : FileState) → IsOutline known self.now
            → (IsTrue result ↔ Fits known (item_of (Item.Node node.now))) }
    {
        if self.steps > 0 || self.claimed {
            return false;
        }
        self.have_slots(node.kids.as_slice(), node.kind.form().kids)
    }

    /// Whether a step fits: no claim stands before it, and what it names is there, nodes with their sorts.
    fn takes_step(&self, line: &Line) -> bool
        requires { IsItem (item_of (Item.Step line.now)) }
        ensures { (known : FileState) → IsOutline known self.now
            → (IsTrue result ↔ Fits known (item_of (Item.Step line.now))) }
    {
        if self.claimed || !self.has_judgment(line.says) {
            return false;
        }
        all_below(line.from.as_slice(), self.steps)
    }

    /// Whether the nodes of a judgment are there and have their sorts.
    fn has_judgment(&self, says: Judgment) -> bool
        ensures { IsTrue result ↔ (map (slice_get self.now.sorts.items) (ids_of says)
            ≡ map (λ sort. Some sort) (sorts_of (kind_of says))) }
    {
        self.has_sort(says.context(), Sort::Context)
            && self.have_sorts(says.parts().as_slice(), says.kind().parts())
    }

    /// Whether these nodes are there and have the sorts of these places, one by one.
    fn have_slots(&self, ids: &[u64], slots: &[Slot]) -> bool
        ensures { IsTrue result ↔ (map (slice_get self.now.sorts.items) ids.now
            ≡ map (λ slot. Some slot.sort) slots.now) }
    {
        if ids.len() != slots.len() {
            return false;
        }
        for (i, id) in ids.iter().enumerate() {
            if !self.has_sort(*id, slots[i].sort) {
                return false;
            }
        }
        true
    }

    /// Whether these nodes are there and have these sorts, one by one.
    fn have_sorts(&self, ids: &[u64], sorts: &[Sort]) -> bool
        ensures { IsTrue result ↔ (map (slice_get self.now.sorts.items) ids.now
            ≡ map (λ sort. Some sort) sorts.now) }
    {
        if ids.len() != sorts.len() {
            return false;
        }
        for (i, id) in ids.iter().enumerate() {
            if !self.has_sort(*id, sorts[i]) {
                return false;
            }
        }
        true
    }

    /// Whether a node is there and has this sort.
    fn has_sort(&self, id: u64, sort: Sort) -> bool
        ensures { IsTrue result ↔ (slice_get self.now.sorts.items id ≡ Some sort) }
    {
        match self.sorts.get(id as usize) {
            Some(own) => *own == sort,
            None => false,
        }
    }
}

/// Whether all numbers are below a limit.
fn all_below(numbers: &[u64], limit: u64) -> bool
    ensures { IsTrue result ↔ All (λ n. n < limit) numbers.now }
{
    numbers.iter().all(|n| *n < limit)
}
