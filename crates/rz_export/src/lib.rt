//! A world as a derivation file: what some of its steps rest on, and nothing else.
#![tactic(auto)]

mod claims;
mod extract;
pub mod laws;
mod moves;
mod needs;

pub use claims::Claimed;
pub use extract::export;
