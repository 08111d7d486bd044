//! The context of the names' cubes.

ghost use Rattle.std.specs.Prelude.{◌≡◌, ◌<◌, ◌≤◌, length, IfOk, IfSome, IfNone};
ghost use Rattle.rz_rules.specs.declared.kinds.Sort.TheVariants.{Cube};
ghost use Rattle.rz_rules.specs.Cube.{leaves};
ghost use Rattle.rz_rules.specs.Tree.{blank, sort_of, tree_of};
ghost use Rattle.rz_log.specs.World.{Grows, IsSound};
ghost use Rattle.rz_shape.specs.Answer.{IsRead};
ghost use Rattle.rz_shape.specs.Reading.{cube_reading};
ghost use Rattle.rz_tope_query.specs.Sequent.{cube_context, with_cubes};
ghost use Rattle.rz_tope_query.specs.Parts.{HasOpened, IsNoReading, IsOpened, IsRefused, group_context};

use rz_log::World;
use rz_rules::OutOfMemory;
use rz_shape::{ShapeFault, cube, cubes_are_narrow};
use rz_solver::{empty_context, with_cube};
use rz_syntax::{CubeNames, Form, Raw};
use std::alloc::Global;

/// What was read; `None` where it was refused.
pub fn unless_refused(answer: Result<u64, ShapeFault>) -> Result<Option<u64>, OutOfMemory>
    ensures read { IfOk result (λ found. IfSome found (λ id. answer ≡ Ok id)) }
    ensures refused { IfOk result (λ found. IfNone found (IsRefused answer)) }
{
    match answer {
        Ok(id) => Ok(Some(id)),
        Err(ShapeFault::OutOfMemory) => Err(OutOfMemory),
        Err(ShapeFault::Refused { .. }) => Ok(None),
    }
}

/// The cube that a form is, an id of a node; `None` where it is none, or has more than 64 leaves.
fn read_cube(
    alloc: Global,
    w: &mut World,
    forms: &[Form],
    raw: Raw,
) -> Result<Option<u64>, OutOfMemory>
    requires { IsSound w.old }
    ensures read { IfOk result (λ found. IfSome found
        (IsRead w.new.pool.nodes (cube_reading forms.now (length forms.now) raw))) }
    ensures none { IfOk result (λ found. IfNone found
        (IsNoReading (cube_reading forms.now (length forms.now) raw))) }
    ensures grows { Grows w.old w.new }
{
    let answer = cube(alloc, &mut w.pool, forms, raw);
    unless_refused(answer)
}

/// The context with so many entries more of one cube, an id of a node, and a step that says that it
/// is formed.
fn with_cubes(
    alloc: Global,
    w: &mut World,
    opened: (u64, u64),
    cube: u64,
    count: u64,
) -> Result<(u64, u64), OutOfMemory>
    requires sound { IsSound w.old }
    requires opened { IsOpened w.old (tree_of w.old.pool.nodes opened.0) opened }
    requires cube { cube < length w.old.pool.nodes }
    requires sort { sort_of (tree_of w.old.pool.nodes cube) ≡ Cube }
    requires few { leaves (tree_of w.old.pool.nodes cube) ≤ 64 }
    ensures opened { IfOk result (IsOpened w.new (with_cubes (tree_of w.old.pool.nodes opened.0)
        (tree_of w.old.pool.nodes cube) count)) }
    ensures grows { Grows w.old w.new }
{
    let mut longer = opened;
    for _ in 0..count {
        longer = with_cube(alloc, w, longer.0, longer.1, cube)?;
    }
    Ok(longer)
}

/// The context with an entry more for each name of a group; `None` where their cube is none.
fn with_group(
    alloc: Global,
    w: &mut World,
    opened: (u64, u64),
    forms: &[Form],
    group: &CubeNames,
) -> Result<Option<(u64, u64)>, OutOfMemory>
    requires sound { IsSound w.old }
    requires opened { IsOpened w.old (tree_of w.old.pool.nodes opened.0) opened }
    ensures opened { IfOk result (λ found. IfSome found (HasOpened w.new
        (group_context forms.now (tree_of w.old.pool.nodes opened.0) group.now))) }
    ensures none { IfOk result (λ found. IfNone found
        (IsNoReading (group_context forms.now (tree_of w.old.pool.nodes opened.0) group.now))) }
    ensures grows { Grows w.old w.new }
{
    cubes_are_narrow();
    let Some(cube) = read_cube(alloc, w, forms, group.cube)? else {
        return Ok(None);
    };
    let longer = with_cubes(alloc, w, opened, cube, group.names.len())?;
    Ok(Some(longer))
}

/// The context with the cubes of all names as its entries, and a step that says that it is formed;
/// `None` where a cube is none.
pub fn cube_context(
    alloc: Global,
    w: &mut World,
    forms: &[Form],
    groups: &[CubeNames],
) -> Result<Option<(u64, u64)>, OutOfMemory>
    requires { IsSound w.old }
    ensures opened { IfOk result (λ found. IfSome found
        (HasOpened w.new (cube_context forms.now blank groups.now))) }
    ensures none { IfOk result (λ found. IfNone found
        (IsNoReading (cube_context forms.now blank groups.now))) }
    ensures grows { Grows w.old w.new }
{
    let mut opened = empty_context(alloc, w)?;
    for group in groups {
        let Some(longer) = with_group(alloc, w, opened, forms, group)? else {
            return Ok(None);
        };
        opened = longer;
    }
    Ok(Some(opened))
}
