//! The ranks of coordinates.

ghost use Rattle.std.specs.Prelude.{◌≡◌, map, IfOk, unwrap_or, slice_index};
ghost use Rattle.std.specs.Map.{lookup};
ghost use Rattle.rz_rules.specs.Coordinate.{are_same};
ghost use Rattle.rz_rules.specs.Validity.{rank_in};

use rz_rules::{Coord, OutOfMemory};
use std::alloc::Global;

/// The rank of a coordinate of a variable: that of the first pair with it, 0 where there is none.
fn rank_of_variable(ranks: &[(Coord, u64)], coordinate: &Coord) -> u64
    ensures { result ≡ unwrap_or (lookup (are_same coordinate.now) ranks.now) 0 }
{
    for pair in ranks {
        if *coordinate == pair.0 {
            return pair.1;
        }
    }
    0
}

/// The rank of a coordinate.
pub(crate) fn rank_in(ranks: &[(Coord, u64)], coordinate: &Coord) -> u64
    ensures { result ≡ rank_in ranks.now coordinate.now }
{
    match coordinate {
        Coord::Zero => 0,
        Coord::One => ranks.len() as u64 + 1,
        Coord::Of { .. } => rank_of_variable(ranks, coordinate),
    }
}

/// The ranks of some coordinates, in order.
pub(crate) fn values(
    alloc: Global,
    ranks: &[(Coord, u64)],
    list: &[Coord],
) -> Result<Vec<u64>, OutOfMemory>
    ensures { IfOk result (λ values. values.items ≡ map (rank_in ranks.now) list.now) }
{
    let mut values = Vec::new(alloc);
    for coordinate in list {
        values.push(rank_in(ranks, coordinate))?;
    }
    Ok(values)
}

/// The first of some ranks, 0 where there is none.
pub(crate) fn first_value(values: &[u64]) -> u64
    ensures { result ≡ slice_index values.now 0 }
{
    values.first().copied().unwrap_or(0)
}
