//! Two parts that make a whole.

ghost use Rattle.std.specs.Prelude.{◌≡◌, ◌<◌, ℕ, List, [], ◌∷◌, Ok, Err, length, map, IfOk, IfErr, OnOk};
ghost use Rattle.rz_rules.specs.Tree.{At, trees_of, tree_of};
ghost use Rattle.rz_pool.specs.Pool.{Grows};
ghost use Rattle.rz_shape.specs.Answer.{IsFaultOf};
ghost use Rattle.rz_shape.specs.Walk.{IsOutcome, IsThere, alone, join_reading, left_reading, leaf_of, outcome_of};

use crate::fault::ShapeFault;
use crate::nodes::{is_interval, is_same, is_wide};
use crate::points::{make_point, refuse};
use crate::steps::{Join, Leaf, Outcome};
use rz_pool::Pool;
use rz_rules::{Kids, Kind, OutOfMemory, Refusal};
use rz_syntax::Raw;
use std::alloc::Global;

/// A cube or a tope with these kids.
fn make_alone(pool: &mut Pool, kind: Kind, kids: Kids) -> Result<Outcome, OutOfMemory>
    ensures tree { IfOk result (IsOutcome pool.new.nodes
        (Ok (alone (At kind 0 [] (trees_of (map (tree_of pool.old.nodes) kids)))))) }
    ensures grows { Grows pool.old.nodes pool.new.nodes }
{
    let node = pool.make_unnamed(kind, 0, kids)?;
    Ok(Outcome { node, cube: node })
}

/// A point without parts, of a cube without parts.
fn make_end(pool: &mut Pool, kind: Kind, cube: Kind) -> Result<Outcome, OutOfMemory>
    ensures point { IfOk result (IsOutcome pool.new.nodes (Ok (record {
      point = At kind 0 [] (trees_of []);
      cube = At cube 0 [] (trees_of []);
    }))) }
    ensures grows { Grows pool.old.nodes pool.new.nodes }
{
    let cube = pool.make_unnamed(cube, 0, Kids::new())?;
    make_point(pool, kind, 0, Kids::new(), cube)
}

/// What a form without parts is.
pub(crate) fn make_leaf(pool: &mut Pool, leaf: Leaf) -> Result<Outcome, OutOfMemory>
    ensures leaf { IfOk result (IsOutcome pool.new.nodes (Ok (leaf_of leaf))) }
    ensures grows { Grows pool.old.nodes pool.new.nodes }
{
    match leaf {
        Leaf::CubeOne => make_alone(pool, Kind::CubeOne, Kids::new()),
        Leaf::CubeTwo => make_alone(pool, Kind::CubeTwo, Kids::new()),
        Leaf::Star => make_end(pool, Kind::OnlyPoint, Kind::CubeOne),
        Leaf::EndZero => make_end(pool, Kind::Zero, Kind::CubeTwo),
        Leaf::EndOne => make_end(pool, Kind::One, Kind::CubeTwo),
        Leaf::Top => make_alone(pool, Kind::Top, Kids::new()),
        Leaf::Bottom => make_alone(pool, Kind::Bottom, Kids::new()),
    }
}

/// What is asked of the left part before the right one is read.
pub(crate) fn enter(pool: &mut Pool, join: Join, left: Raw, read: Outcome) -> Result<(), ShapeFault>
    requires { IsThere pool.old.nodes read }
    ensures read { OnOk result (left_reading join left (outcome_of pool.old.nodes read)
        ≡ Ok (outcome_of pool.old.nodes read)) }
    ensures refused { IfErr result
        (IsFaultOf (left_reading join left (outcome_of pool.old.nodes read))) }
    ensures grows { Grows pool.old.nodes pool.new.nodes }
{
    match join {
        Join::AtMost => within_interval(pool, left, read),
        Join::Product | Join::Pair | Join::And | Join::Or | Join::SamePoint => Ok(()),
    }
}

/// A point that is of no directed interval is refused at its form.
fn within_interval(pool: &mut Pool, raw: Raw, point: Outcome) -> Result<(), ShapeFault>
    requires { IsThere pool.old.nodes point }
    ensures read { OnOk result (left_reading Join.AtMost raw (outcome_of pool.old.nodes point)
        ≡ Ok (outcome_of pool.old.nodes point)) }
    ensures refused { IfErr result
        (IsFaultOf (left_reading Join.AtMost raw (outcome_of pool.old.nodes point))) }
    ensures grows { Grows pool.old.nodes pool.new.nodes }
{
    let within = is_interval(pool, point.cube)?;
    if within {
        Ok(())
    } else {
        Err(refuse(Refusal::BadPoint, raw))
    }
}

fn product(
    alloc: Global,
    pool: &mut Pool,
    whole: Raw,
    left: Outcome,
    right: Outcome,
) -> Result<Outcome, ShapeFault>
    requires left { IsThere pool.old.nodes left }
    requires right { IsThere pool.old.nodes right }
    ensures read { (place : Raw) → IfOk result (IsOutcome pool.new.nodes (join_reading Join.Product
        whole place (outcome_of pool.old.nodes left) (outcome_of pool.old.nodes right))) }
    ensures refused { (place : Raw) → IfErr result (IsFaultOf (join_reading Join.Product
        whole place (outcome_of pool.old.nodes left) (outcome_of pool.old.nodes right))) }
    ensures grows { Grows pool.old.nodes pool.new.nodes }
{
    let wide = is_wide(alloc, pool, left.node, right.node)?;
    if wide {
        return Err(refuse(Refusal::WideCube, whole));
    }
    let kids = Kids::from_slice(&[left.node, right.node]);
    Ok(make_alone(pool, Kind::Product, kids)?)
}

fn pair(
    alloc: Global,
    pool: &mut Pool,
    whole: Raw,
    left: Outcome,
    right: Outcome,
) -> Result<Outcome, ShapeFault>
    requires left { IsThere pool.old.nodes left }
    requires right { IsThere pool.old.nodes right }
    ensures read { (place : Raw) → IfOk result (IsOutcome pool.new.nodes (join_reading Join.Pair
        whole place (outcome_of pool.old.nodes left) (outcome_of pool.old.nodes right))) }
    ensures refused { (place : Raw) → IfErr result (IsFaultOf (join_reading Join.Pair
        whole place (outcome_of pool.old.nodes left) (outcome_of pool.old.nodes right))) }
    ensures grows { Grows pool.old.nodes pool.new.nodes }
{
    let wide = is_wide(alloc, pool, left.cube, right.cube)?;
    if wide {
        return Err(refuse(Refusal::WideCube, whole));
    }
    let cubes = Kids::from_slice(&[left.cube, right.cube]);
    let cube = pool.make_unnamed(Kind::Product, 0, cubes)?;
    let kids = Kids::from_slice(&[left.node, right.node]);
    Ok(make_point(pool, Kind::PointPair, 0, kids, cube)?)
}

fn equality(
    pool: &mut Pool,
    place: Raw,
    left: Outcome,
    right: Outcome,
) -> Result<Outcome, ShapeFault>
    requires left { IsThere pool.old.nodes left }
    requires right { IsThere pool.old.nodes right }
    ensures read { (whole : Raw) → IfOk result (IsOutcome pool.new.nodes (join_reading
        Join.SamePoint whole place (outcome_of pool.old.nodes left)
        (outcome_of pool.old.nodes right))) }
    ensures refused { (whole : Raw) → IfErr result (IsFaultOf (join_reading
        Join.SamePoint whole place (outcome_of pool.old.nodes left)
        (outcome_of pool.old.nodes right))) }
    ensures grows { Grows pool.old.nodes pool.new.nodes }
{
    if !is_same(pool, right.cube, left.cube) {
        return Err(refuse(Refusal::BadPoint, place));
    }
    let kids = Kids::from_slice(&[left.cube, left.node, right.node]);
    Ok(make_alone(pool, Kind::EqualPoints, kids)?)
}

fn order(pool: &mut Pool, place: Raw, left: Outcome, right: Outcome) -> Result<Outcome, ShapeFault>
    requires left { IsThere pool.old.nodes left }
    requires right { IsThere pool.old.nodes right }
    ensures read { (whole : Raw) → IfOk result (IsOutcome pool.new.nodes (join_reading
        Join.AtMost whole place (outcome_of pool.old.nodes left)
        (outcome_of pool.old.nodes right))) }
    ensures refused { (whole : Raw) → IfErr result (IsFaultOf (join_reading
        Join.AtMost whole place (outcome_of pool.old.nodes left)
        (outcome_of pool.old.nodes right))) }
    ensures grows { Grows pool.old.nodes pool.new.nodes }
{
    let within = is_interval(pool, right.cube)?;
    if !within {
        return Err(refuse(Refusal::BadPoint, place));
    }
    let kids = Kids::from_slice(&[left.node, right.node]);
    Ok(make_alone(pool, Kind::AtMost, kids)?)
}

/// What two parts make. A product and a pair are refused at the whole form, and a right point of
/// another cube at its own.
pub(crate) fn join_parts(
    alloc: Global,
    pool: &mut Pool,
    join: Join,
    whole: Raw,
    place: Raw,
    left: Outcome,
    right: Outcome,
) -> Result<Outcome, ShapeFault>
    requires left { IsThere pool.old.nodes left }
    requires right { IsThere pool.old.nodes right }
    ensures read { IfOk result (IsOutcome pool.new.nodes (join_reading join whole place
        (outcome_of pool.old.nodes left) (outcome_of pool.old.nodes right))) }
    ensures refused { IfErr result (IsFaultOf (join_reading join whole place
        (outcome_of pool.old.nodes left) (outcome_of pool.old.nodes right))) }
    ensures grows { Grows pool.old.nodes pool.new.nodes }
{
    match join {
        Join::Product => product(alloc, pool, whole, left, right),
        Join::Pair => pair(alloc, pool, whole, left, right),
        Join::And => {
            let kids = Kids::from_slice(&[left.node, right.node]);
            Ok(make_alone(pool, Kind::Conjunction, kids)?)
        }
        Join::Or => {
            let kids = Kids::from_slice(&[left.node, right.node]);
            Ok(make_alone(pool, Kind::Disjunction, kids)?)
        }
        Join::SamePoint => equality(pool, place, left, right),
        Join::AtMost => order(pool, place, left, right),
    }
}
