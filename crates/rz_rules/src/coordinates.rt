//! The coordinates of points, and ranks of coordinates.

ghost use Rattle.std.specs.Prelude.{◌≡◌, IfOk};

use crate::lists::{Items, Name, TryCopy};
use crate::memory::OutOfMemory;

/// The byte of a path that goes to the left part of a product.
pub const LEFT: u8 = b'l';

/// The byte of a path that goes to the right part of a product.
pub const RIGHT: u8 = b'r';

/// A coordinate of a point: what stands at one place where the point's cube has the directed interval.
#[derive(Debug, Drop, PartialEq, Eq, Hash)]
pub enum Coord {
    /// The end 0 of the directed interval.
    Zero,
    /// The end 1 of the directed interval.
    One,
    /// A part of a cube variable.
    Of {
        /// The index of the variable over the whole context, from its innermost cube entry, from 0.
        variable: u64,
        /// The way to the part: bytes `l` and `r`, that of the outermost product first.
        path: Name,
    },
}

impl Coord {
    /// An equal coordinate.
    pub fn copy(&self) -> Result<Coord, OutOfMemory>
        ensures { IfOk result (λ coordinate. coordinate ≡ self.now) }
    {
        match self {
            Coord::Zero => Ok(Coord::Zero),
            Coord::One => Ok(Coord::One),
            Coord::Of { variable, path } => Ok(Coord::Of {
                variable: *variable,
                path: path.copy()?,
            }),
        }
    }
}

impl TryCopy for Coord {
    fn try_copy(&self) -> Result<Coord, OutOfMemory> {
        self.copy()
    }
}

/// Coordinates in order.
pub type Coords = Items<Coord>;

/// A rank list: coordinates of variables, each with its rank, a number from 0 to one more than there are.
pub type Ranks = Items<(Coord, u64)>;

impl TryCopy for (Coord, u64) {
    fn try_copy(&self) -> Result<(Coord, u64), OutOfMemory> {
        Ok((self.0.copy()?, self.1))
    }
}
