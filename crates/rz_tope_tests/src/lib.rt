//! Tests that cross the crates of evidence and of topes: what is made by rows is written as a file,
//! and the kernel accepts it.
#![tactic(auto)]

mod bench;
pub mod sequents;
pub mod tables;

pub use bench::{Bench, ClaimRow, MoveRow, NodeRow, StepRow, file_of};

#[cfg(test)]
mod decided;
#[cfg(test)]
mod files;
#[cfg(test)]
mod worlds;
