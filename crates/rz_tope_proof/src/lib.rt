//! Proofs of topes as terms, and the parts of which the topes of a sequent are made.
#![tactic(auto)]

mod parts;
mod places;
mod points;
mod proof;

pub use parts::{Form, Part, Side};
pub use places::{MOST_COORDINATES, MOST_PLACES, ONE, Places, ZERO};
pub use proof::{Claim, Inference, Proof, Reason};
