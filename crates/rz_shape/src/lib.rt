//! Cubes, points and topes read from forms of the source: a node of a pool, or the first refusal
//! with its place.
#![tactic(auto)]

mod fault;
mod joins;
mod laws;
mod local;
mod nodes;
mod plans;
mod points;
mod shapes;
mod steps;
mod variables;
mod visits;
mod walk;

pub use fault::ShapeFault;
pub use laws::{cubes_are_narrow, points_are_of_their_cubes, topes_are_over_their_cubes};
pub use local::{Binder, Binders, Local};
pub use shapes::{cube, point, tope};
pub use variables::Variables;
