//! The kernel: says of a derivation file whether it is one.
//!
//! It reads the file item by item, keeps each tree once, and checks each step by its row.
#![tactic(auto)]

mod answer;
mod file;
mod places;
mod state;

pub use answer::KernelAnswer;
pub use file::kernel;
