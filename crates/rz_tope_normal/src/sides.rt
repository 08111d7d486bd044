//! The sides of comparisons.

ghost use Rattle.std.specs.Prelude.{◌≡◌, ◌≤◌, [], ◌∷◌, Some, IsSome, length};
ghost use Rattle.rz_rules.specs.declared.coordinates.Coord.{Coord};
ghost use Rattle.rz_rules.specs.Tree.{tree_of};
ghost use Rattle.rz_cube.specs.declared.points.CachedPoint.{CachedPoint};
ghost use Rattle.rz_cube.specs.Cached.{cached_of};
ghost use Rattle.rz_tope_normal.specs.Placed.{place_of};
ghost use Rattle.rz_rules.specs.Cube.{binders_of, cube_two};
ghost use Rattle.rz_rules.specs.Coordinate.{coordinates};
ghost use Rattle.rz_rules.specs.Tope.{IsPointOf};
ghost use Rattle.rz_tope_proof.specs.Reading.{IsSide};
ghost use Rattle.rz_tope_normal.specs.Norm.{AreNorms, IsKnown, IsSetting};
ghost use Rattle.rz_tope_normal.specs.Read.{AreAmong, IsSideAt};

use crate::norms::Norms;
use crate::places::place_of;
use crate::settings::Setting;
use rz_pool::Pool;
use rz_rules::Coord;
use rz_tope_proof::{Proof, Side};

/// A known point of the directed interval, at its place.
pub(crate) fn side(
    pool: &Pool,
    setting: &Setting,
    list: &[Coord],
    proof: &Proof,
    norms: &Norms,
    point: u64,
) -> Side
    requires few { length list.now ≤ 8 }
    requires setting { IsSetting pool.now.nodes
        (tree_of pool.now.nodes setting.now.context) list.now setting.now }
    requires norms { AreNorms pool.now.nodes (tree_of pool.now.nodes setting.now.context)
        setting.now.entries.items proof.now norms.now }
    requires known { IsKnown norms.now point }
    requires point { IsPointOf (binders_of (tree_of pool.now.nodes setting.now.context))
        cube_two (tree_of pool.now.nodes point) }
    requires among { AreAmong list.now (coordinates
        (binders_of (tree_of pool.now.nodes setting.now.context))
        (tree_of pool.now.nodes point)) }
    ensures side { IsSide pool.now.nodes (tree_of pool.now.nodes setting.now.context)
        setting.now.places proof.now result }
    ensures at { IsSideAt pool.now.nodes
        (binders_of (tree_of pool.now.nodes setting.now.context)) list.now result }
    ensures point { result.point ≡ point }
{
    let _ = pool.len();
    let _ = proof.inferences();
    let _ = setting.context;
    let norm = norms.norm(point);
    let place = place(list, norms, point);
    Side {
        point,
        place,
        equation: norm.equation,
    }
}

/// The place of a point with one coordinate that was cached.
fn place(list: &[Coord], norms: &Norms, point: u64) -> usize
    requires few { length list.now ≤ 8 }
    requires cached { IsSome (cached_of norms.now.points point) }
    ensures { (cached : CachedPoint) (c : Coord) → cached_of norms.now.points point ≡ Some cached
        → cached.coordinates ≡ c ∷ [] → result ≡ place_of list.now c }
{
    match norms.points.point(point).coordinates.get(0) {
        Some(coordinate) => place_of(list, coordinate),
        None => 0,
    }
}
