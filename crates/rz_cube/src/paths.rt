//! The leaves of a cube at which its points have coordinates.
//!
//! Each cube below is visited once, after its parts, and costs as much as its paths are long.

ghost use Rattle.std.specs.Prelude.{◌≡◌, ◌<◌, ◌+◌, ◌∷◌, ◌++◌, length, map, nat_eq, Some, All, IfOk, OnOk, IsSome, slice_get};
ghost use Rattle.std.specs.HashMap.{get};
ghost use Rattle.rz_rules.specs.Tree.{tree_of};
ghost use Rattle.rz_rules.specs.Coordinate.{paths};
ghost use Rattle.rz_cube.specs.Point.{HasPaths, KidsHavePaths};

use crate::lists::only;
use rz_pool::{Pool, two_kids};
use rz_rules::{Items, Kind, LEFT, Name, OutOfMemory, RIGHT};
use std::alloc::Global;
use std::collections::HashMap;

/// The ways to the leaves of a cube that are the directed interval, from left to right.
pub(crate) fn paths(alloc: Global, pool: &Pool, cube: u64) -> Result<Items<Name>, OutOfMemory>
    requires { cube < length pool.now.nodes }
    ensures { IfOk result (λ list. list ≡ paths (tree_of pool.now.nodes cube)) }
{
    let mut table: HashMap<u64, Items<Name>> = HashMap::new(alloc);
    let mut parts = pool.parts(cube)?;
    while let Some(part) = parts.pop() {
        let list = paths_by_kids(alloc, pool, &table, part)?;
        table.insert(part, list)?;
    }
    match table.remove(&cube) {
        Some(list) => Ok(list),
        None => unreachable!(),
    }
}

/// The paths of a cube, where those of its parts are in the table.
fn paths_by_kids(
    alloc: Global,
    pool: &Pool,
    table: &HashMap<u64, Items<Name>>,
    cube: u64,
) -> Result<Items<Name>, OutOfMemory>
    requires there { cube < length pool.now.nodes }
    requires kids { KidsHavePaths pool.now.nodes (get nat_eq table.now) cube }
    ensures { IfOk result (λ list. list ≡ paths (tree_of pool.now.nodes cube)) }
{
    let node = pool.node(cube);
    match node.kind {
        Kind::CubeTwo => only(alloc, Name::new(alloc)),
        Kind::Product => {
            let (left, right) = two_kids(&node.kids);
            product_paths(alloc, table[&left].as_slice(), table[&right].as_slice())
        }
        _ => Ok(Items::new(alloc)),
    }
}

/// The paths of a product, from those of its parts.
fn product_paths(alloc: Global, left: &[Name], right: &[Name]) -> Result<Items<Name>, OutOfMemory>
    ensures { IfOk result (λ list. list ≡ map (λ path. LEFT ∷ path) left.now
        ++ map (λ path. RIGHT ∷ path) right.now) }
{
    let mut list = Items::new(alloc);
    append_behind(alloc, &mut list, LEFT, left)?;
    append_behind(alloc, &mut list, RIGHT, right)?;
    Ok(list)
}

/// Adds paths at the end, each behind one side more.
fn append_behind(
    alloc: Global,
    list: &mut Items<Name>,
    side: u8,
    paths: &[Name],
) -> Result<(), OutOfMemory>
    requires { side < 128 }
    ensures { OnOk result (list.new ≡ list.old ++ map (λ path. side ∷ path) paths.now) }
{
    for path in paths {
        list.push(path_behind(alloc, side, path)?)?;
    }
    Ok(())
}

/// A path behind one side more.
fn path_behind(alloc: Global, side: u8, path: &Name) -> Result<Name, OutOfMemory>
    requires { side < 128 }
    ensures { IfOk result (λ longer. longer ≡ side ∷ path.now) }
{
    let mut text = String::new(alloc);
    text.push(char::from(side))?;
    text.push_str(path.as_str())?;
    Name::from_text(alloc, text.as_str())
}
