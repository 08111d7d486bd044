//! Lists of coordinates, each once.

ghost use Rattle.std.specs.Prelude.{◌≡◌, ◌+◌, ◌^◌, ◌<◌, ◌≤◌, ◌++◌, length, drop, map, All, IfOk, OnOk};
ghost use Rattle.rz_tope.specs.Occurrence.{added, is_new, occurrences, raised_by, IsNamedBelow};

use rz_rules::{Coord, Coords, OutOfMemory};
use std::alloc::Global;

/// Whether a coordinate is one of a variable that isn't in a list.
fn is_new(list: &[Coord], coordinate: &Coord) -> bool
    ensures { result ≡ is_new list.now coordinate.now }
{
    match coordinate {
        Coord::Zero | Coord::One => false,
        Coord::Of { .. } => !list.contains(coordinate),
    }
}

/// Adds the coordinates of variables that aren't in the list yet, in order.
pub(crate) fn add(list: &mut Coords, items: &[Coord]) -> Result<(), OutOfMemory>
    ensures { OnOk result (list.new ≡ added list.old items.now) }
{
    for coordinate in items {
        if is_new(list.as_slice(), coordinate) {
            list.push(coordinate.copy()?)?;
        }
    }
    Ok(())
}

/// The coordinates of variables of two lists, each once, in order of first occurrence.
pub(crate) fn merged(
    alloc: Global,
    first: &[Coord],
    second: &[Coord],
) -> Result<Coords, OutOfMemory>
    ensures { IfOk result (λ list. list ≡ occurrences (first.now ++ second.now)) }
{
    let mut list = Coords::new(alloc);
    add(&mut list, first)?;
    add(&mut list, second)?;
    Ok(list)
}

/// A coordinate, as it is named behind so many more cube entries.
fn raised(coordinate: &Coord, by: u64) -> Result<Coord, OutOfMemory>
    requires { IsNamedBelow (2 ^ 64) (raised_by by coordinate.now) }
    ensures { IfOk result (λ raised. raised ≡ raised_by by coordinate.now) }
{
    match coordinate {
        Coord::Zero => Ok(Coord::Zero),
        Coord::One => Ok(Coord::One),
        Coord::Of { variable, path } => Ok(Coord::Of {
            variable: *variable + by,
            path: path.copy()?,
        }),
    }
}

/// Coordinates, as they are named behind so many more cube entries.
pub(crate) fn all_raised(alloc: Global, items: &[Coord], by: u64) -> Result<Coords, OutOfMemory>
    requires { All (λ coordinate. IsNamedBelow (2 ^ 64) (raised_by by coordinate)) items.now }
    ensures { IfOk result (λ list. list ≡ map (raised_by by) items.now) }
{
    let mut list = Coords::new(alloc);
    for coordinate in items {
        list.push(raised(coordinate, by)?)?;
    }
    Ok(list)
}

/// The cubes behind so many.
pub(crate) fn rest(entries: &[u64], count: usize) -> &[u64]
    requires { count ≤ length entries.now }
    ensures rest { result.now ≡ drop count entries.now }
    ensures few { length entries.now < 2 ^ 63 }
{
    &entries[count..]
}
