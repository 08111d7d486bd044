//! The kernel's rows: whether a line follows by its row from earlier ones.
#![tactic(auto)]

mod conditions;
mod contexts;
mod formers;
mod leaves;
mod lines;
mod moves;
mod variables;

pub use lines::{follows, follows_with};
