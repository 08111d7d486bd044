//! Entailment of topes: whether a tope follows from those of a context, with a proof by the rows or
//! with ranks that refute it.
#![tactic(auto)]

mod atoms;
mod branches;
mod search;
mod solving;
mod statuses;
mod steps;
mod table;

pub use branches::Branch;
pub use search::Found;
pub use solving::{prove, ranks, root_branch};
pub use table::Table;
