//! How steps of a derivation are made: one function for all rows whose rule is a text, and one for each of the structural
//! rows that are used so far.
#![tactic(auto)]

mod letters;
mod places;
mod structural;
mod texts;

pub use structural::{hypothesis, weaken};
pub use texts::conclude;
