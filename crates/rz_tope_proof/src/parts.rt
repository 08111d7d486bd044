//! The parts of the topes of a sequent.

use crate::proof::Claim;

/// A point of the directed interval in a comparison.
#[derive(Clone, Copy)]
pub struct Side {
    /// The point, an id of the pool.
    pub point: u64,
    /// Its place.
    pub place: usize,
    /// The inference that it equals the place's point; `None` where it is that point.
    pub equation: Option<u64>,
}

/// How a part is made of earlier parts and of places.
#[derive(Clone, Copy)]
pub enum Form {
    /// It always holds.
    Top,
    /// It never holds.
    Bottom,
    /// A conjunction of two parts.
    And(usize, usize),
    /// A disjunction of two parts.
    Or(usize, usize),
    /// The first point is at most the second.
    AtMost(Side, Side),
    /// Two points of the directed interval are equal.
    Equal(Side, Side),
    /// Two points of a product are equal.
    EqualPairs {
        /// The cube, and the two points.
        of: (u64, u64, u64),
        /// The part that says that their left parts are equal.
        left: usize,
        /// The part that says that their right parts are equal.
        right: usize,
        /// The pairs of the parts of the first point, and of the second.
        pairs: (u64, u64),
    },
    /// A point equals itself.
    Same,
    /// Two points of the cube with one point are equal.
    OnePoint,
}

/// A part of a tope.
#[derive(Clone, Copy)]
pub struct Part {
    /// The part as a tope.
    pub claim: Claim,
    /// What it is made of.
    pub form: Form,
}
