//! Questions that are asked of a pool again and again.

use crate::counts::Counts;

/// What becomes of the variables of a tree that are bound outside of it.
#[derive(Clone, Copy, Debug, PartialEq, Eq, Hash)]
pub enum VariableChange {
    /// Each that is bound at least `from` binders outside of the tree rises by `by`.
    Rise { from: Counts, by: Counts },
    /// The point with the id `value` takes the place of the first cube variable behind `at`.
    PutPoint { at: Counts, value: u64 },
    /// The term with the id `value` takes the place of the first term variable behind `at`.
    PutTerm { at: Counts, value: u64 },
}

/// Which tree comes of a tree where its variables change.
#[derive(Clone, Copy, Debug, PartialEq, Eq, Hash)]
pub struct Question {
    /// The tree's id.
    pub id: u64,
    pub change: VariableChange,
}
