//! What a form asks for.

ghost use Rattle.std.specs.Prelude.{◌≡◌};
ghost use Rattle.rz_shape.specs.Walk.{cube_plan, path_of, plan_of, point_plan, tope_plan};

use crate::steps::{Join, Leaf, Plan, Target};
use rz_syntax::{Form, Raw};

fn cube_plan(form: &Form) -> Plan
    ensures { result ≡ cube_plan form.now }
{
    match form {
        Form::CubeOne => Plan::Leaf(Leaf::CubeOne),
        Form::CubeTwo => Plan::Leaf(Leaf::CubeTwo),
        Form::Product { left, right } => two(Join::Product, left, right),
        _ => Plan::Clash,
    }
}

fn point_plan(form: &Form) -> Plan
    ensures { result ≡ point_plan form.now }
{
    match form {
        Form::Bound { up, .. } => Plan::Variable(*up),
        Form::Star => Plan::Leaf(Leaf::Star),
        Form::EndZero => Plan::Leaf(Leaf::EndZero),
        Form::EndOne => Plan::Leaf(Leaf::EndOne),
        Form::Pair { left, right } => two(Join::Pair, left, right),
        Form::First { arg } => Plan::First(*arg),
        Form::Second { arg } => Plan::Second(*arg),
        _ => Plan::Clash,
    }
}

fn tope_plan(form: &Form) -> Plan
    ensures { result ≡ tope_plan form.now }
{
    match form {
        Form::Top => Plan::Leaf(Leaf::Top),
        Form::Bottom => Plan::Leaf(Leaf::Bottom),
        Form::And { left, right } => two(Join::And, left, right),
        Form::Or { left, right } => two(Join::Or, left, right),
        Form::SamePoint { left, right } => two(Join::SamePoint, left, right),
        Form::AtMost { left, right } => two(Join::AtMost, left, right),
        _ => Plan::Clash,
    }
}

fn two(join: Join, left: &Raw, right: &Raw) -> Plan
    ensures { result ≡ Plan.Two join left.now right.now }
{
    Plan::Two {
        join,
        left: *left,
        right: *right,
    }
}

/// What a form asks for where this is wanted of it.
pub(crate) fn plan(target: Target, form: &Form) -> Plan
    ensures { result ≡ plan_of target form.now }
{
    match target {
        Target::Cube => cube_plan(form),
        Target::Point => point_plan(form),
        Target::Tope => tope_plan(form),
    }
}

/// The path of a bound name; empty of any other form.
pub(crate) fn path(form: &Form) -> &[u8]
    ensures { result.now ≡ path_of form.now }
{
    match form {
        Form::Bound { path, .. } => path.as_str().as_bytes(),
        _ => &[],
    }
}
