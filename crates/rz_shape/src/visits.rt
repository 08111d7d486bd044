//! The steps of a walk over forms.

ghost use Rattle.std.specs.Prelude.{◌≡◌, ◌<◌, ◌+◌, ℕ, List, Ok, Err, length, slice_get, IfOk, IfErr};
ghost use Rattle.rz_pool.specs.Pool.{Grows};
ghost use Rattle.rz_syntax.specs.declared.forms.Form.{Form};
ghost use Rattle.rz_shape.specs.Answer.{AreThere, IsFaultOf, bindings_at};
ghost use Rattle.rz_shape.specs.Reading.{Bindings};
ghost use Rattle.rz_shape.specs.Walk.{GoesOn, IsFrame, IsThere, frame_cost, frame_reading, outcome_of, plan_reading, reading_of, target_of, visit_cost};

use crate::fault::ShapeFault;
use crate::joins::{enter, join_parts, make_leaf};
use crate::plans::{path, plan};
use crate::points::{first_part, named_point, refuse, second_part};
use crate::steps::{Frame, Join, Outcome, Part, Plan, Step, Target};
use crate::variables::Variables;
use rz_pool::Pool;
use rz_rules::Refusal;
use rz_syntax::{Form, Raw};
use std::alloc::Global;

/// What both parts of a form are read as.
fn target_of(join: Join) -> Target
    ensures { result ≡ target_of join }
{
    match join {
        Join::Product => Target::Cube,
        Join::Pair | Join::SamePoint | Join::AtMost => Target::Point,
        Join::And | Join::Or => Target::Tope,
    }
}

/// The first step of a part.
pub(crate) fn visit(
    pool: &mut Pool,
    names: &Variables,
    forms: &[Form],
    part: Part,
) -> Result<Step, ShapeFault>
    requires { AreThere pool.old.nodes names.now }
    ensures step { IfOk result (GoesOn (bindings_at pool.old.nodes names.now) forms.now
        pool.new.nodes (reading_of (bindings_at pool.old.nodes names.now) forms.now
        part.target part.depth part.raw) (visit_cost part.depth)) }
    ensures refused { IfErr result (IsFaultOf (reading_of
        (bindings_at pool.old.nodes names.now) forms.now part.target part.depth part.raw)) }
    ensures grows { Grows pool.old.nodes pool.new.nodes }
{
    if part.depth == 0 {
        return Err(refuse(Refusal::KindClash, part.raw));
    }
    let Some(form) = forms.get(part.raw.form as usize) else {
        return Err(refuse(Refusal::KindClash, part.raw));
    };
    let plan = plan(part.target, form);
    follow(pool, names, path(form), part.raw, part.depth - 1, plan)
}

/// The first step of a form that asks for this, whose parts may stand so deep.
fn follow(
    pool: &mut Pool,
    names: &Variables,
    path: &[u8],
    raw: Raw,
    depth: u64,
    plan: Plan,
) -> Result<Step, ShapeFault>
    requires { AreThere pool.old.nodes names.now }
    ensures step { (forms : List Form) → IfOk result
        (GoesOn (bindings_at pool.old.nodes names.now) forms pool.new.nodes
        (plan_reading (bindings_at pool.old.nodes names.now) forms depth raw path.now plan)
        (visit_cost depth + visit_cost depth + 3)) }
    ensures refused { (forms : List Form) → IfErr result (IsFaultOf
        (plan_reading (bindings_at pool.old.nodes names.now) forms depth raw path.now plan)) }
    ensures grows { Grows pool.old.nodes pool.new.nodes }
{
    match plan {
        Plan::Leaf(leaf) => Ok(Step::Done(make_leaf(pool, leaf)?)),
        Plan::Variable(up) => Ok(Step::Done(named_point(pool, names, up, path, raw)?)),
        Plan::First(arg) => Ok(under(Frame::First { arg }, Target::Point, arg, depth)),
        Plan::Second(arg) => Ok(under(Frame::Second { arg }, Target::Point, arg, depth)),
        Plan::Two { join, left, right } => {
            let frame = Frame::Left {
                join,
                whole: raw,
                left,
                right,
                depth,
            };
            Ok(under(frame, target_of(join), left, depth))
        }
        Plan::Clash => Err(refuse(Refusal::KindClash, raw)),
    }
}

fn under(frame: Frame, target: Target, raw: Raw, depth: u64) -> Step
    ensures { result ≡ Step.Under frame (record { target = target; raw = raw; depth = depth }) }
{
    Step::Under {
        frame,
        part: Part { target, raw, depth },
    }
}

/// The step after a part was read.
pub(crate) fn resume(
    alloc: Global,
    pool: &mut Pool,
    frame: Frame,
    read: Outcome,
) -> Result<Step, ShapeFault>
    requires frame { IsFrame pool.old.nodes frame }
    requires read { IsThere pool.old.nodes read }
    ensures step { (bound : Bindings) (forms : List Form) → IfOk result
        (GoesOn bound forms pool.new.nodes (frame_reading bound forms pool.old.nodes frame
        (outcome_of pool.old.nodes read)) (frame_cost frame)) }
    ensures refused { (bound : Bindings) (forms : List Form) → IfErr result (IsFaultOf
        (frame_reading bound forms pool.old.nodes frame (outcome_of pool.old.nodes read))) }
    ensures grows { Grows pool.old.nodes pool.new.nodes }
{
    match frame {
        Frame::Left {
            join,
            whole,
            left,
            right,
            depth,
        } => {
            enter(pool, join, left, read)?;
            let next = Frame::Right {
                join,
                whole,
                right,
                left: read,
            };
            Ok(under(next, target_of(join), right, depth))
        }
        Frame::Right {
            join,
            whole,
            right,
            left,
        } => Ok(Step::Done(join_parts(alloc, pool, join, whole, right, left, read)?)),
        Frame::First { arg } => Ok(Step::Done(first_part(pool, arg, read)?)),
        Frame::Second { arg } => Ok(Step::Done(second_part(pool, arg, read)?)),
    }
}
