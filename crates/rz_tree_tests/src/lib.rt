//! Tests of pools, substitution, cubes and topes, and trees as texts for the tests of all layers.
#![tactic(auto)]

mod trees;

pub use trees::read;

#[cfg(test)]
mod cubes;
#[cfg(test)]
mod helpers;
#[cfg(test)]
mod pools;
#[cfg(test)]
mod substitutions;
#[cfg(test)]
mod topes;
