//! Points and the nodes that stand for them.

ghost use Rattle.std.specs.Prelude.{◌≡◌, ◌<◌, length, IfOk};
ghost use Rattle.rz_rules.specs.Tree.{tree_of};
ghost use Rattle.rz_pool.specs.Pool.{Grows};
ghost use Rattle.rz_rules.specs.Tope.{point_variable};
ghost use Rattle.rz_rules.specs.Coordinate.{half, point_of, part_at};

use rz_pool::Pool;
use rz_rules::{Coord, Kids, Kind, LEFT, Name, OutOfMemory};

/// The id of the part of a point on one side.
fn half(pool: &mut Pool, way: u8, point: u64) -> Result<u64, OutOfMemory>
    ensures within { IfOk result (λ id. id < length pool.new.nodes) }
    ensures tree { IfOk result (λ id. tree_of pool.new.nodes id
        ≡ half way (tree_of pool.old.nodes point)) }
    ensures grows { Grows pool.old.nodes pool.new.nodes }
{
    let kids = Kids::from_slice(&[point]);
    if way == LEFT {
        pool.make_unnamed(Kind::PointLeft, 0, kids)
    } else {
        pool.make_unnamed(Kind::PointRight, 0, kids)
    }
}

/// The id of the part of a variable at the end of a path.
fn part_of(pool: &mut Pool, index: u64, path: &Name) -> Result<u64, OutOfMemory>
    ensures within { IfOk result (λ id. id < length pool.new.nodes) }
    ensures tree { IfOk result (λ id. tree_of pool.new.nodes id
        ≡ part_at (point_variable index) path.now) }
    ensures grows { Grows pool.old.nodes pool.new.nodes }
{
    let mut point = pool.make_unnamed(Kind::PointVariable, index, Kids::new())?;
    for way in path.as_str().as_bytes() {
        point = half(pool, *way, point)?;
    }
    Ok(point)
}

/// The id of the normal point with one coordinate.
pub(crate) fn point_of(pool: &mut Pool, coordinate: &Coord) -> Result<u64, OutOfMemory>
    ensures within { IfOk result (λ id. id < length pool.new.nodes) }
    ensures tree { IfOk result (λ id. tree_of pool.new.nodes id ≡ point_of coordinate.now) }
    ensures grows { Grows pool.old.nodes pool.new.nodes }
{
    match coordinate {
        Coord::Zero => pool.make_unnamed(Kind::Zero, 0, Kids::new()),
        Coord::One => pool.make_unnamed(Kind::One, 0, Kids::new()),
        Coord::Of { variable, path } => part_of(pool, *variable, path),
    }
}
