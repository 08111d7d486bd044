//! Cubes by their ids, and the parts of a product.

ghost use Rattle.std.specs.Prelude.{◌≡◌, ◌<◌, [], length, Some, IfOk, IfSome, IfNone, map, option_map, option_and_then};
ghost use Rattle.rz_rules.specs.declared.kinds.Sort.TheVariants.{Cube};
ghost use Rattle.rz_rules.specs.Form.{form};
ghost use Rattle.rz_rules.specs.Tree.{At, trees_of, tree_of};
ghost use Rattle.rz_rules.specs.Cube.{product as product_tree, left_part, right_part};
ghost use Rattle.rz_pool.specs.Pool.{Grows};
ghost use Rattle.rz_pool.specs.Cubes.{AreKidsOf, IsCubeAt, IsCubeId, IsNoProduct, IsProductOf};

use crate::kids::two_kids;
use crate::pool::Pool;
use rz_rules::{Kids, Kind, OutOfMemory};

/// The two parts of a cube that is a product.
pub fn parts_of(pool: &Pool, cube: u64) -> Option<(u64, u64)>
    requires { cube < length pool.now.nodes }
    ensures parts { IfSome result (IsProductOf pool.now.nodes cube) }
    ensures none { IfNone result (IsNoProduct (tree_of pool.now.nodes cube)) }
{
    let node = pool.node(cube);
    match node.kind {
        Kind::Product => Some(two_kids(&node.kids)),
        _ => None,
    }
}

/// The id of a cube with these parts.
pub fn make_cube(pool: &mut Pool, kind: Kind, kids: Kids) -> Result<u64, OutOfMemory>
    requires sort { (form kind).sort ≡ Cube }
    requires kids { AreKidsOf pool.old.nodes kind kids }
    ensures cube { IfOk result (IsCubeAt pool.new.nodes) }
    ensures tree { IfOk result (λ cube. tree_of pool.new.nodes cube
        ≡ At kind 0 [] (trees_of (map (tree_of pool.old.nodes) kids))) }
    ensures grows { Grows pool.old.nodes pool.new.nodes }
{
    pool.make_former(kind, kids)
}

/// The product of two cubes; `None` where one of them is missing.
pub fn product_of(
    pool: &mut Pool,
    left: Option<u64>,
    right: Option<u64>,
) -> Result<Option<u64>, OutOfMemory>
    requires left { IfSome left (IsCubeAt pool.old.nodes) }
    requires right { IfSome right (IsCubeAt pool.old.nodes) }
    ensures cube { IfOk result (IsCubeId pool.new.nodes
        (option_and_then (λ l. option_and_then (λ r. Some (product_tree l r))
        (option_map (tree_of pool.old.nodes) right)) (option_map (tree_of pool.old.nodes) left))) }
    ensures grows { Grows pool.old.nodes pool.new.nodes }
{
    let (Some(left), Some(right)) = (left, right) else {
        return Ok(None);
    };
    let kids = Kids::from_slice(&[left, right]);
    Ok(Some(make_cube(pool, Kind::Product, kids)?))
}

/// The first part of a product; `None` where there is none.
pub fn left_of(pool: &Pool, cube: Option<u64>) -> Option<u64>
    requires { IfSome cube (IsCubeAt pool.now.nodes) }
    ensures { IsCubeId pool.now.nodes
        (option_and_then left_part (option_map (tree_of pool.now.nodes) cube)) result }
{
    let (left, _) = parts_of(pool, cube?)?;
    Some(left)
}

/// The last part of a product; `None` where there is none.
pub fn right_of(pool: &Pool, cube: Option<u64>) -> Option<u64>
    requires { IfSome cube (IsCubeAt pool.now.nodes) }
    ensures { IsCubeId pool.now.nodes
        (option_and_then right_part (option_map (tree_of pool.now.nodes) cube)) result }
{
    let (_, right) = parts_of(pool, cube?)?;
    Some(right)
}
