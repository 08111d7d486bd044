//! Entailment of topes: whether a tope follows from those of a context, with a step that says so or
//! with ranks that refute it.
#![tactic(auto)]

mod contexts;
mod lines;
mod solver;
mod topes;
mod writing;

pub use contexts::{empty_context, with_cube, with_tope};
pub use solver::Solver;
