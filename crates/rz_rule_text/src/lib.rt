//! What the text of a row spells with trees of a pool in the place of its letters.
#![tactic(auto)]

mod letters;
mod substitution;
mod text;

pub use letters::{Finding, find, find_subject};
pub use text::spell;
