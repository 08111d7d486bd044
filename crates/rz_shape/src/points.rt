//! Points by their parts.

ghost use Rattle.std.specs.Prelude.{◌≡◌, ◌<◌, ℕ, List, [], ◌∷◌, Ok, Err, length, map, slice_get, IfOk, IfErr, OnOk, option_and_then};
ghost use Rattle.rz_rules.specs.declared.kinds.Kind.{Kind};
ghost use Rattle.rz_rules.specs.Tree.{At, trees_of, tree_of};
ghost use Rattle.rz_pool.specs.Pool.{Grows};
ghost use Rattle.rz_shape.specs.Answer.{AreThere, IsFaultOf, bindings_at};
ghost use Rattle.rz_shape.specs.Reading.{and_then, first_part, part_along, second_part, variable_in};
ghost use Rattle.rz_shape.specs.Walk.{IsOutcome, IsThere, half_reading, outcome_of};

use crate::fault::ShapeFault;
use crate::steps::Outcome;
use crate::variables::Variables;
use rz_pool::{Pool, parts_of};
use rz_rules::{Kids, Kind, LEFT, OutOfMemory, RIGHT, Refusal};
use rz_syntax::Raw;

/// A refusal at a form's first token.
pub(crate) fn refuse(why: Refusal, raw: Raw) -> ShapeFault
    ensures { result ≡ ShapeFault.Refused why raw.at }
{
    ShapeFault::Refused { why, at: raw.at }
}

/// A point of a cube.
pub(crate) fn make_point(
    pool: &mut Pool,
    kind: Kind,
    number: u64,
    kids: Kids,
    cube: u64,
) -> Result<Outcome, OutOfMemory>
    requires { cube < length pool.old.nodes }
    ensures point { IfOk result (IsOutcome pool.new.nodes (Ok (record {
      point = At kind number [] (trees_of (map (tree_of pool.old.nodes) kids));
      cube = tree_of pool.old.nodes cube;
    }))) }
    ensures grows { Grows pool.old.nodes pool.new.nodes }
{
    let node = pool.make_unnamed(kind, number, kids)?;
    Ok(Outcome { node, cube })
}

/// The left part of a point. A point of no product is refused at its form.
pub(crate) fn first_part(pool: &mut Pool, raw: Raw, point: Outcome) -> Result<Outcome, ShapeFault>
    requires { IsThere pool.old.nodes point }
    ensures read { IfOk result (IsOutcome pool.new.nodes
        (first_part raw (outcome_of pool.old.nodes point))) }
    ensures refused { IfErr result (IsFaultOf (first_part raw (outcome_of pool.old.nodes point))) }
    ensures grows { Grows pool.old.nodes pool.new.nodes }
{
    let Some((left, _)) = parts_of(pool, point.cube) else {
        return Err(refuse(Refusal::BadPoint, raw));
    };
    let kids = Kids::from_slice(&[point.node]);
    Ok(make_point(pool, Kind::PointLeft, 0, kids, left)?)
}

/// The right part of a point. A point of no product is refused at its form.
pub(crate) fn second_part(pool: &mut Pool, raw: Raw, point: Outcome) -> Result<Outcome, ShapeFault>
    requires { IsThere pool.old.nodes point }
    ensures read { IfOk result (IsOutcome pool.new.nodes
        (second_part raw (outcome_of pool.old.nodes point))) }
    ensures refused { IfErr result (IsFaultOf (second_part raw (outcome_of pool.old.nodes point))) }
    ensures grows { Grows pool.old.nodes pool.new.nodes }
{
    let Some((_, right)) = parts_of(pool, point.cube) else {
        return Err(refuse(Refusal::BadPoint, raw));
    };
    let kids = Kids::from_slice(&[point.node]);
    Ok(make_point(pool, Kind::PointRight, 0, kids, right)?)
}

/// The part of a point that a letter of a path names.
fn part_at(pool: &mut Pool, letter: u8, raw: Raw, point: Outcome) -> Result<Outcome, ShapeFault>
    requires { IsThere pool.old.nodes point }
    ensures read { IfOk result (IsOutcome pool.new.nodes
        (half_reading letter raw (outcome_of pool.old.nodes point))) }
    ensures refused { IfErr result
        (IsFaultOf (half_reading letter raw (outcome_of pool.old.nodes point))) }
    ensures grows { Grows pool.old.nodes pool.new.nodes }
{
    if letter == LEFT {
        first_part(pool, raw, point)
    } else if letter == RIGHT {
        second_part(pool, raw, point)
    } else {
        Err(refuse(Refusal::BadPoint, raw))
    }
}

/// The part of a point at the end of a path.
pub(crate) fn part_along(
    pool: &mut Pool,
    path: &[u8],
    raw: Raw,
    point: Outcome,
) -> Result<Outcome, ShapeFault>
    requires { IsThere pool.old.nodes point }
    ensures read { IfOk result (IsOutcome pool.new.nodes
        (part_along raw path.now (outcome_of pool.old.nodes point))) }
    ensures refused { IfErr result
        (IsFaultOf (part_along raw path.now (outcome_of pool.old.nodes point))) }
    ensures grows { Grows pool.old.nodes pool.new.nodes }
{
    let mut part = point;
    for letter in path {
        part = part_at(pool, *letter, raw, part)?;
    }
    Ok(part)
}

/// The item at a place of a list.
fn item<T: Copy>(list: &[T], place: u64) -> Option<T>
    ensures { result ≡ slice_get list.now place }
{
    list.get(place as usize).copied()
}

/// The index of the variable that a binder so many binders up binds.
fn variable_index(names: &Variables, up: u64) -> Option<u64>
    ensures { result ≡ option_and_then (λ bound. bound) (slice_get names.now.variables.items up) }
{
    item(names.variables.as_slice(), up)?
}

/// The point that the variable of a binder so many binders up is.
pub(crate) fn variable(
    pool: &mut Pool,
    names: &Variables,
    up: u64,
    raw: Raw,
) -> Result<Outcome, ShapeFault>
    requires { AreThere pool.old.nodes names.now }
    ensures read { IfOk result (IsOutcome pool.new.nodes
        (variable_in (bindings_at pool.old.nodes names.now).cubes raw
        (slice_get names.now.variables.items up))) }
    ensures refused { IfErr result (IsFaultOf
        (variable_in (bindings_at pool.old.nodes names.now).cubes raw
        (slice_get names.now.variables.items up))) }
    ensures grows { Grows pool.old.nodes pool.new.nodes }
{
    let Some(index) = variable_index(names, up) else {
        return Err(refuse(Refusal::KindClash, raw));
    };
    let Some(cube) = item(names.cubes.as_slice(), index) else {
        return Err(refuse(Refusal::KindClash, raw));
    };
    Ok(make_point(pool, Kind::PointVariable, index, Kids::new(), cube)?)
}

/// The point that a bound name is: the part at the end of its path of a binder's variable.
pub(crate) fn named_point(
    pool: &mut Pool,
    names: &Variables,
    up: u64,
    path: &[u8],
    raw: Raw,
) -> Result<Outcome, ShapeFault>
    requires { AreThere pool.old.nodes names.now }
    ensures read { IfOk result (IsOutcome pool.new.nodes (and_then
        (variable_in (bindings_at pool.old.nodes names.now).cubes raw
        (slice_get names.now.variables.items up)) (part_along raw path.now))) }
    ensures refused { IfErr result (IsFaultOf (and_then
        (variable_in (bindings_at pool.old.nodes names.now).cubes raw
        (slice_get names.now.variables.items up)) (part_along raw path.now))) }
    ensures grows { Grows pool.old.nodes pool.new.nodes }
{
    let point = variable(pool, names, up, raw)?;
    part_along(pool, path, raw, point)
}
