//! The topes of a sequent, read into parts, and its points, read at places.
#![tactic(auto)]

mod equations;
mod halves;
mod hypotheses;
mod join;
mod norms;
mod pairs;
mod parts;
mod places;
mod points;
mod reader;
mod sequents;
mod settings;
mod sides;
mod splits;
mod steps;

pub use sequents::{Sequent, read};
