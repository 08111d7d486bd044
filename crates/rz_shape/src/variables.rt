//! What bound names stand for over a context, looked up once for many forms.

ghost use Rattle.std.specs.Prelude.{◌≡◌, ◌<◌, length, reverse, IfOk, IfErr};
ghost use Rattle.rz_rules.specs.Tree.{tree_of};
ghost use Rattle.rz_pool.specs.Pool.{Grows, IsPool};
ghost use Rattle.rz_shape.specs.Reading.{bindings_of, point_of_cube, tope_reading, variables_from};
ghost use Rattle.rz_shape.specs.Answer.{AreThere, IsFaultOf, IsRead, bindings_at};

use crate::fault::ShapeFault;
use crate::local::Binder;
use crate::nodes::is_same;
use crate::points::refuse;
use crate::steps::Target;
use crate::walk::{read, whole};
use rz_cube::cubes_of;
use rz_pool::Pool;
use rz_rules::{OutOfMemory, Refusal};
use rz_syntax::{Form, Raw};
use std::alloc::Global;

/// The points that bound names stand for.
#[derive(Debug, Drop)]
pub struct Variables {
    /// The cubes of the context's cube entries, ids of nodes, the innermost first.
    pub cubes: Vec<u64>,
    /// For each binder, the innermost first, the index of the variable that it binds; `None` for a
    /// binder of a term.
    pub variables: Vec<Option<u64>>,
}

/// The variables that binders bind, the outermost first; the answer has the innermost first.
fn variables_of(alloc: Global, binders: &[Binder]) -> Result<Vec<Option<u64>>, OutOfMemory>
    ensures { IfOk result (λ variables. variables.items ≡ variables_from 0 (reverse binders.now)) }
{
    let mut variables = Vec::new(alloc);
    let mut points = 0;
    let mut left = binders;
    while let Some((last, others)) = left.split_last() {
        match *last {
            Binder::Point => {
                variables.push(Some(points))?;
                points += 1;
            }
            Binder::Term => variables.push(None)?,
        }
        left = others;
    }
    Ok(variables)
}

impl Variables {
    /// What the names of these binders, the outermost first, stand for over a context, the id of a
    /// node.
    pub fn new(
        alloc: Global,
        pool: &Pool,
        context: u64,
        binders: &[Binder],
    ) -> Result<Variables, OutOfMemory>
        requires { context < length pool.now.nodes }
        ensures there { IfOk result (AreThere pool.now.nodes) }
        ensures bindings { IfOk result (λ names. bindings_at pool.now.nodes names
            ≡ bindings_of (tree_of pool.now.nodes context) binders.now) }
    {
        let cubes = cubes_of(alloc, pool, context)?;
        let variables = variables_of(alloc, binders)?;
        Ok(Variables { cubes, variables })
    }

    /// The point of a cube that a form is.
    pub fn point(
        &self,
        alloc: Global,
        pool: &mut Pool,
        forms: &[Form],
        raw: Raw,
        cube: u64,
    ) -> Result<u64, ShapeFault>
        requires there { AreThere pool.old.nodes self.now }
        requires cube { cube < length pool.old.nodes }
        ensures read { IfOk result (IsRead pool.new.nodes
            (point_of_cube (bindings_at pool.old.nodes self.now) forms.now (length forms.now)
            (tree_of pool.old.nodes cube) raw)) }
        ensures refused { IfErr result (IsFaultOf
            (point_of_cube (bindings_at pool.old.nodes self.now) forms.now (length forms.now)
            (tree_of pool.old.nodes cube) raw)) }
        ensures grows { Grows pool.old.nodes pool.new.nodes }
        ensures pool { IsPool pool.new.nodes }
    {
        let part = whole(Target::Point, forms, raw);
        let read = read(alloc, pool, self, forms, part);
        let _ = pool.len();
        let point = read?;
        if is_same(pool, point.cube, cube) {
            Ok(point.node)
        } else {
            Err(refuse(Refusal::BadPoint, raw))
        }
    }

    /// The tope that a form is.
    pub fn tope(
        &self,
        alloc: Global,
        pool: &mut Pool,
        forms: &[Form],
        raw: Raw,
    ) -> Result<u64, ShapeFault>
        requires there { AreThere pool.old.nodes self.now }
        ensures read { IfOk result (IsRead pool.new.nodes
            (tope_reading (bindings_at pool.old.nodes self.now) forms.now (length forms.now) raw)) }
        ensures refused { IfErr result (IsFaultOf
            (tope_reading (bindings_at pool.old.nodes self.now) forms.now (length forms.now) raw)) }
        ensures grows { Grows pool.old.nodes pool.new.nodes }
        ensures pool { IsPool pool.new.nodes }
    {
        let part = whole(Target::Tope, forms, raw);
        let read = read(alloc, pool, self, forms, part);
        let _ = pool.len();
        Ok(read?.node)
    }
}
