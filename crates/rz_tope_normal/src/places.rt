//! The places of a sequent.

ghost use Rattle.std.specs.Prelude.{◌≡◌, ◌≤◌, length, IfOk};
ghost use Rattle.rz_pool.specs.Pool.{Grows};
ghost use Rattle.rz_tope_normal.specs.Placed.{ArePlacesOf, place_of, position};

use crate::points::point_of;
use rz_pool::Pool;
use rz_rules::{Coord, Kids, Kind, OutOfMemory};
use rz_tope_proof::{MOST_PLACES, ONE, Places, ZERO};
use std::alloc::Global;

/// The places of the ends and of these coordinates.
pub(crate) fn places(alloc: Global, pool: &mut Pool, list: &[Coord]) -> Result<Places, OutOfMemory>
    requires { length list.now ≤ 8 }
    ensures places { IfOk result (λ places. ArePlacesOf pool.new.nodes places list.now) }
    ensures grows { Grows pool.old.nodes pool.new.nodes }
{
    let interval = pool.make_unnamed(Kind::CubeTwo, 0, Kids::new())?;
    let mut points = [0; MOST_PLACES];
    points[ZERO] = pool.make_unnamed(Kind::Zero, 0, Kids::new())?;
    points[ONE] = pool.make_unnamed(Kind::One, 0, Kids::new())?;
    for (position, coordinate) in list.iter().enumerate() {
        points[position + 2] = point_of(pool, coordinate)?;
    }
    Ok(Places {
        interval,
        count: list.len() + 2,
        points,
    })
}

/// The place of an end or of a coordinate in a list.
pub(crate) fn place_of(list: &[Coord], coordinate: &Coord) -> usize
    requires { length list.now ≤ 8 }
    ensures { result ≡ place_of list.now coordinate.now }
{
    match coordinate {
        Coord::Zero => ZERO,
        Coord::One => ONE,
        Coord::Of { .. } => position(list, coordinate) + 2,
    }
}

/// The first position of a coordinate in a list, or the list's length.
fn position(list: &[Coord], coordinate: &Coord) -> usize
    ensures place { result ≡ position list.now coordinate.now }
    ensures within { result ≤ length list.now }
{
    for (position, other) in list.iter().enumerate() {
        if *other == *coordinate {
            return position;
        }
    }
    list.len()
}
