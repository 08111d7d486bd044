//! Evidence: a log of lines, each of which follows from earlier ones, over a pool of trees.
#![tactic(auto)]

mod entail;
mod index;
pub mod laws;
mod log;
mod reachable;
mod tools;
mod world;

pub use entail::{Entail, Entailed};
pub use log::Log;
pub use tools::Tools;
pub use world::{Mark, World};
