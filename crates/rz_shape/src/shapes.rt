//! A form as a cube, as a point over a context, or as a tope over it.
//!
//! Forms stand in a table, and parts are named by their numbers there. A bound name is resolved; any
//! other name is read as the name of a term, and so is no cube, point or tope.

ghost use Rattle.std.specs.Prelude.{◌≡◌, ◌<◌, length, IfOk, IfErr};
ghost use Rattle.rz_rules.specs.Tree.{tree_of};
ghost use Rattle.rz_pool.specs.Pool.{Grows, IsPool};
ghost use Rattle.rz_shape.specs.Reading.{bindings_of, cube_reading, point_of_cube, tope_reading};
ghost use Rattle.rz_shape.specs.Answer.{AreThere, IsFaultOf, IsRead, bindings_at};

use crate::fault::ShapeFault;
use crate::local::Local;
use crate::steps::Target;
use crate::variables::Variables;
use crate::walk::{read, whole};
use rz_pool::Pool;
use rz_rules::OutOfMemory;
use rz_syntax::{Form, Raw};
use std::alloc::Global;

/// The cube that a form is. Refused are what is no cube (`KindClash`) and a product of more than 64
/// leaves (`WideCube`), each at its first token; parts are read from left to right, and the first
/// refusal counts.
pub fn cube(alloc: Global, pool: &mut Pool, forms: &[Form], raw: Raw) -> Result<u64, ShapeFault>
    ensures read { IfOk result (IsRead pool.new.nodes
        (cube_reading forms.now (length forms.now) raw)) }
    ensures refused { IfErr result (IsFaultOf (cube_reading forms.now (length forms.now) raw)) }
    ensures grows { Grows pool.old.nodes pool.new.nodes }
    ensures pool { IsPool pool.new.nodes }
{
    let names = Variables {
        cubes: Vec::new(alloc),
        variables: Vec::new(alloc),
    };
    let part = whole(Target::Cube, forms, raw);
    let read = read(alloc, pool, &names, forms, part);
    let _ = pool.len();
    Ok(read?.node)
}

/// The point of a cube, an id of a node, that a form is over a context. Refused are what is no point
/// (`KindClash`), a pair whose cube has more than 64 leaves (`WideCube`), the operand of a projection
/// that is of no product, and a whole point of another cube (`BadPoint`), each at its first token;
/// parts are read from left to right, and the first refusal counts.
pub fn point(
    alloc: Global,
    pool: &mut Pool,
    c: u64,
    forms: &[Form],
    local: &Local,
    raw: Raw,
    cube: u64,
) -> Result<u64, ShapeFault>
    requires context { c < length pool.old.nodes }
    requires cube { cube < length pool.old.nodes }
    ensures read { IfOk result (IsRead pool.new.nodes (point_of_cube
        (bindings_of (tree_of pool.old.nodes c) local.now.binders) forms.now (length forms.now)
        (tree_of pool.old.nodes cube) raw)) }
    ensures refused { IfErr result (IsFaultOf (point_of_cube
        (bindings_of (tree_of pool.old.nodes c) local.now.binders) forms.now (length forms.now)
        (tree_of pool.old.nodes cube) raw)) }
    ensures grows { Grows pool.old.nodes pool.new.nodes }
    ensures pool { IsPool pool.new.nodes }
{
    let names = names_over(alloc, pool, c, local)?;
    names.point(alloc, pool, forms, raw, cube)
}

/// The tope that a form is over a context. Refused are what is no tope (`KindClash`) and what is
/// refused of the points that it compares, each at its first token. The points of `===` are of one
/// cube, that of the left one, and those of `<=` are of the directed interval.
pub fn tope(
    alloc: Global,
    pool: &mut Pool,
    c: u64,
    forms: &[Form],
    local: &Local,
    raw: Raw,
) -> Result<u64, ShapeFault>
    requires { c < length pool.old.nodes }
    ensures read { IfOk result (IsRead pool.new.nodes (tope_reading
        (bindings_of (tree_of pool.old.nodes c) local.now.binders) forms.now (length forms.now)
        raw)) }
    ensures refused { IfErr result (IsFaultOf (tope_reading
        (bindings_of (tree_of pool.old.nodes c) local.now.binders) forms.now (length forms.now)
        raw)) }
    ensures grows { Grows pool.old.nodes pool.new.nodes }
    ensures pool { IsPool pool.new.nodes }
{
    let names = names_over(alloc, pool, c, local)?;
    names.tope(alloc, pool, forms, raw)
}

/// What bound names stand for in a form.
fn names_over(
    alloc: Global,
    pool: &Pool,
    context: u64,
    local: &Local,
) -> Result<Variables, OutOfMemory>
    requires { context < length pool.now.nodes }
    ensures there { IfOk result (AreThere pool.now.nodes) }
    ensures bindings { IfOk result (λ names. bindings_at pool.now.nodes names
        ≡ bindings_of (tree_of pool.now.nodes context) local.now.binders) }
    ensures pool { IsPool pool.now.nodes }
{
    let _ = pool.len();
    Variables::new(alloc, pool, context, local.binders.as_slice())
}
