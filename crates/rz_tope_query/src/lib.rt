//! The sequent that a text says, in a world, and whether it holds.
#![tactic(auto)]

mod contexts;
mod decision;
mod laws;
mod names;
mod reading;
mod sequent;
mod text;
mod topes;

pub use decision::{Decision, decide};
pub use laws::one_sequent;
pub use reading::question;
pub use sequent::Question;
