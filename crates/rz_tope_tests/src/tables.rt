//! Derivations that are made row by row.

ghost use Rattle.std.specs.Prelude.{◌<◌, List, All, IfOk, IfSome};
ghost use Rattle.rz_rules.specs.File.{Claim, IsFile};

use crate::bench::{ClaimRow, MoveRow, NodeRow, StepRow, file_of};
use rz_rules::{Bytes, Kind, OutOfMemory, Row};
use std::alloc::Global;

/// Two variables of the directed interval, and which of them is at most the other.
pub const ORDER_NODES: &[NodeRow] = &[
    (Kind::CubeTwo, 0, &[]),
    (Kind::EmptyContext, 0, &[]),
    (Kind::CubeEntry, 0, &[1, 0]),
    (Kind::CubeEntry, 0, &[2, 0]),
    (Kind::PointVariable, 1, &[]),
    (Kind::PointVariable, 0, &[]),
    (Kind::AtMost, 0, &[4, 5]),
    (Kind::AtMost, 0, &[5, 4]),
    (Kind::Disjunction, 0, &[6, 7]),
];

/// Their context is formed, and one of the two is at most the other.
pub const ORDER_STEPS: &[StepRow] = &[
    (Row::ContextNil, &[], &[]),
    (Row::ContextCube, &[1, 0], &[0]),
    (Row::ContextCube, &[2, 0], &[1]),
    (Row::AtMostTotal, &[3, 4, 5], &[2]),
];

/// That is claimed.
pub const ORDER_CLAIMS: &[ClaimRow] = &[("total", 3)];

/// The universe, the type with one term, topes, and contexts with one tope.
pub const CASES_NODES: &[NodeRow] = &[
    (Kind::EmptyContext, 0, &[]),
    (Kind::Universe, 0, &[]),
    (Kind::UnitType, 0, &[]),
    (Kind::Top, 0, &[]),
    (Kind::Disjunction, 0, &[3, 3]),
    (Kind::Conjunction, 0, &[3, 3]),
    (Kind::TopeEntry, 0, &[0, 3]),
    (Kind::TopeEntry, 0, &[0, 5]),
];

/// The universe by cases of a disjunction is typed. One step has no use for that.
pub const CASES_STEPS: &[StepRow] = &[
    (Row::ContextNil, &[], &[]),
    (Row::Universe, &[0], &[0]),
    (Row::Top, &[0], &[0]),
    (Row::OrLeft, &[0, 3, 3], &[2]),
    (Row::ContextTope, &[0, 3], &[0]),
    (Row::Universe, &[6], &[4]),
    (Row::UnitType, &[6], &[4]),
    (Row::ContextTope, &[0, 5], &[0]),
    (Row::Universe, &[7], &[7]),
    (Row::SameReflexive, &[7, 1, 1], &[8]),
    (Row::RecOr, &[0, 3, 3, 1, 1, 1], &[1, 3, 5, 5, 9]),
];

/// The last step is claimed, and the one that it has no use for.
pub const CASES_CLAIMS: &[ClaimRow] = &[("r", 10), ("unit", 6)];

/// The last step alone is claimed.
pub const USED_CASES_CLAIMS: &[ClaimRow] = &[("r", 10)];

/// The universe, topes, points, and contexts with one entry and with two.
pub const MOVED_NODES: &[NodeRow] = &[
    (Kind::EmptyContext, 0, &[]),
    (Kind::Universe, 0, &[]),
    (Kind::Top, 0, &[]),
    (Kind::TopeEntry, 0, &[0, 2]),
    (Kind::CubeTwo, 0, &[]),
    (Kind::CubeEntry, 0, &[0, 4]),
    (Kind::PointVariable, 0, &[]),
    (Kind::Zero, 0, &[]),
    (Kind::AtMost, 0, &[7, 6]),
    (Kind::CubeEntry, 0, &[5, 4]),
    (Kind::CubeOne, 0, &[]),
    (Kind::CubeEntry, 0, &[0, 10]),
    (Kind::CubeEntry, 0, &[11, 4]),
];

/// The universe is typed without entries. The first end is at most a variable.
pub const MOVED_STEPS: &[StepRow] = &[
    (Row::ContextNil, &[], &[]),
    (Row::Universe, &[0], &[0]),
    (Row::ContextTope, &[0, 2], &[0]),
    (Row::ContextCube, &[0, 4], &[0]),
    (Row::ZeroAtMost, &[5, 6], &[3]),
    (Row::ContextCube, &[5, 4], &[3]),
    (Row::ContextCube, &[0, 10], &[0]),
    (Row::ContextCube, &[11, 4], &[6]),
];

/// The universe is typed under a tope. The first end is at most the variable where an entry stands behind that, and where one
/// stands before it.
pub const MOVES: &[MoveRow] = &[(1, 2, 0), (4, 5, 0), (4, 7, 1)];

/// What was moved is claimed.
pub const MOVED_CLAIMS: &[ClaimRow] = &[("tope", 8), ("behind", 9), ("before", 10)];

/// The file that says that of two points of the directed interval one is at most the other.
pub fn order_file(alloc: Global) -> Result<Option<Bytes>, OutOfMemory>
    ensures { IfOk result (λ file. IfSome file
        (λ bytes. (claims : List Claim) × IsFile bytes claims)) }
{
    file_of(alloc, ORDER_NODES, ORDER_STEPS, &[], ORDER_CLAIMS)
}

/// The file that types a term by cases, with these claims of its steps.
fn cases(alloc: Global, claims: &[ClaimRow]) -> Result<Option<Bytes>, OutOfMemory>
    requires { All (λ claim. claim.1 < 11) claims.now }
    ensures { IfOk result (λ file. IfSome file
        (λ bytes. (claims : List Claim) × IsFile bytes claims)) }
{
    file_of(alloc, CASES_NODES, CASES_STEPS, &[], claims)
}

/// The file that types a term by cases, with a step that this has no use for.
pub fn cases_file(alloc: Global) -> Result<Option<Bytes>, OutOfMemory>
    ensures { IfOk result (λ file. IfSome file
        (λ bytes. (claims : List Claim) × IsFile bytes claims)) }
{
    cases(alloc, CASES_CLAIMS)
}

/// The same without that step.
pub fn used_cases_file(alloc: Global) -> Result<Option<Bytes>, OutOfMemory>
    ensures { IfOk result (λ file. IfSome file
        (λ bytes. (claims : List Claim) × IsFile bytes claims)) }
{
    cases(alloc, USED_CASES_CLAIMS)
}

/// The file of what was weakened.
pub fn moved_file(alloc: Global) -> Result<Option<Bytes>, OutOfMemory>
    ensures { IfOk result (λ file. IfSome file
        (λ bytes. (claims : List Claim) × IsFile bytes claims)) }
{
    file_of(alloc, MOVED_NODES, MOVED_STEPS, MOVES, MOVED_CLAIMS)
}
