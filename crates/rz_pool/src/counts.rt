//! Counts of variables, one for each space.

ghost use Rattle.std.specs.Prelude.{◌≡◌};
ghost use Rattle.rz_rules.specs.Substitution.{only};
ghost use Rattle.rz_pool.specs.Counts.{depth_of};

use rz_rules::Space;

/// For each space a count of variables.
#[derive(Clone, Copy, Debug, PartialEq, Eq, PartialOrd, Ord, Hash)]
pub struct Counts {
    pub points: u64,
    pub terms: u64,
}

impl Counts {
    /// No variable of either space.
    pub const NONE: Counts = Counts {
        points: 0,
        terms: 0,
    };

    /// A count in one space, and none in the other.
    pub fn only(space: Space, count: u64) -> Counts
        ensures { depth_of result ≡ only space count }
    {
        match space {
            Space::Points => Counts {
                points: count,
                terms: 0,
            },
            Space::Terms => Counts {
                points: 0,
                terms: count,
            },
        }
    }

    /// The count in a space.
    pub fn of(self, space: Space) -> u64
        ensures { result ≡ depth_of self space }
    {
        match space {
            Space::Points => self.points,
            Space::Terms => self.terms,
        }
    }
}
