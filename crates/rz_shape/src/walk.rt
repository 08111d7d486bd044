//! The walk over a form and its parts, however deep they stand.

ghost use Rattle.std.specs.Prelude.{◌≡◌, Ok, Err, length, IfOk, IfErr};
ghost use Rattle.rz_pool.specs.Pool.{Grows};
ghost use Rattle.rz_shape.specs.Answer.{AreThere, IsFaultOf, bindings_at};
ghost use Rattle.rz_shape.specs.Walk.{IsOutcome, reading_of};

use crate::fault::ShapeFault;
use crate::steps::{Outcome, Part, Step, Target};
use crate::variables::Variables;
use crate::visits::{resume, visit};
use rz_pool::Pool;
use rz_syntax::{Form, Raw};
use std::alloc::Global;

/// The part that is a whole form. Its table is as long as its forms may stand deep.
pub(crate) fn whole(target: Target, forms: &[Form], raw: Raw) -> Part
    ensures { result ≡ record { target = target; raw = raw; depth = length forms.now } }
{
    Part {
        target,
        raw,
        depth: forms.len() as u64,
    }
}

/// What a part is read as.
pub(crate) fn read(
    alloc: Global,
    pool: &mut Pool,
    names: &Variables,
    forms: &[Form],
    part: Part,
) -> Result<Outcome, ShapeFault>
    requires { AreThere pool.old.nodes names.now }
    ensures read { IfOk result (IsOutcome pool.new.nodes (reading_of
        (bindings_at pool.old.nodes names.now) forms.now part.target part.depth part.raw)) }
    ensures refused { IfErr result (IsFaultOf (reading_of
        (bindings_at pool.old.nodes names.now) forms.now part.target part.depth part.raw)) }
    ensures grows { Grows pool.old.nodes pool.new.nodes }
{
    let mut frames = Vec::new(alloc);
    let mut step = visit(pool, names, forms, part)?;
    loop {
        step = match step {
            Step::Done(outcome) => match frames.pop() {
                None => return Ok(outcome),
                Some(frame) => resume(alloc, pool, frame, outcome)?,
            },
            Step::Under { frame, part } => {
                frames.push(frame)?;
                visit(pool, names, forms, part)?
            }
        };
    }
}
