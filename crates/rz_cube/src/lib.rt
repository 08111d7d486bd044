//! Cubes and points: how many leaves a cube has, and which cube and which coordinates a point has
//! over a context.
#![tactic(auto)]

mod faults;
mod leaf_count;
mod lists;
mod one_point;
mod paths;
mod points;

pub use faults::CubeFault;
pub use leaf_count::{MOST_LEAVES, leaves};
pub use one_point::{coordinates, cube_of};
pub use points::{CachedPoint, Points, cubes_of};
