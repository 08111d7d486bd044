//! The points of places.

ghost use Rattle.std.specs.Prelude.{◌≡◌, ◌<◌};
ghost use Rattle.rz_tope_proof.specs.Place.{point_at};

use crate::places::Places;

impl Places {
    /// The point of a place.
    pub fn point(&self, place: usize) -> u64
        requires { place < 10 }
        ensures { result ≡ point_at self.now place }
    {
        self.points[place]
    }
}
