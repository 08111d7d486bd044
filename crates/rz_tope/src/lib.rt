//! Topes over a context: whether one is true at given ranks, and which coordinates occur in it.
#![tactic(auto)]

mod lists;
mod occurrences;
mod ranks;
mod truths;

pub use occurrences::occurring;
pub use truths::truth;
