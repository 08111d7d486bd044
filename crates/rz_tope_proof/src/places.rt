//! Places: the ends and the coordinates that a sequent speaks of.

ghost use Rattle.std.specs.Prelude.{◌≤◌};

/// The most coordinates of variables that may occur.
pub const MOST_COORDINATES: usize = 8;

/// The most places.
pub const MOST_PLACES: usize = 10;

/// The place of the end 0.
pub const ZERO: usize = 0;

/// The place of the end 1.
pub const ONE: usize = 1;

/// The places of a sequent: the two ends, and then the coordinates of variables that occur, in
/// order.
#[derive(Clone, Copy)]
pub struct Places {
    /// The directed interval.
    pub interval: u64,
    /// How many there are.
    pub count: usize,
    /// The normal point of each.
    pub points: [u64; MOST_PLACES],
    ghost bounds: { (2 ≤ count) × (count ≤ 10) },
}
