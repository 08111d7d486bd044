//! Equations between points, each proved by an inference or between a point and itself.

ghost use Rattle.std.specs.Prelude.{◌≡◌, [], IfOk, OnOk};
ghost use Rattle.rz_rules.specs.Tree.{tree_of};
ghost use Rattle.rz_tope_proof.specs.Proving.{Extends, Proves};
ghost use Rattle.rz_tope_normal.specs.Later.{IsEqualBy};
ghost use Rattle.rz_tope_normal.specs.Norm.{AreOfCube, IsCarriedBy, equation_of};

use crate::steps::{by_axiom, by_one, by_two};
use rz_pool::Pool;
use rz_rules::{OutOfMemory, Row};
use rz_tope_proof::{Claim, Proof};

/// A cube and two of its points, ids of the pool.
pub(crate) type Pair = (u64, u64, u64);

/// The inference of an equation; a point equals itself.
pub(crate) fn close(
    pool: &Pool,
    context: u64,
    proof: &mut Proof,
    of: Pair,
    equation: Option<u64>,
) -> Result<u64, OutOfMemory>
    requires of { AreOfCube pool.now.nodes (tree_of pool.now.nodes context) of }
    requires equal { IsEqualBy pool.now.nodes (tree_of pool.now.nodes context) proof.old
        (tree_of pool.now.nodes of.0) of.1 of.2 equation }
    ensures proves { IfOk result (λ step. Proves pool.now.nodes
        (tree_of pool.now.nodes context) proof.new [] step (equation_of pool.now.nodes of)) }
    ensures extends { OnOk result (Extends proof.old proof.new) }
{
    match equation {
        Some(step) => Ok(step),
        None => {
            let claim = Claim::Equal(of.0, of.1, of.2);
            let step = by_axiom(pool, context, proof, Row::EqualReflexive, claim)?;
            Ok(step)
        }
    }
}

/// An equation through a point between: of a first point and that one, and of that one and a second
/// point.
pub(crate) fn chain(
    pool: &Pool,
    context: u64,
    proof: &mut Proof,
    of: Pair,
    between: u64,
    first: Option<u64>,
    second: Option<u64>,
) -> Result<Option<u64>, OutOfMemory>
    requires of { AreOfCube pool.now.nodes (tree_of pool.now.nodes context) of }
    requires first { IsEqualBy pool.now.nodes (tree_of pool.now.nodes context) proof.old
        (tree_of pool.now.nodes of.0) of.1 between first }
    requires second { IsEqualBy pool.now.nodes (tree_of pool.now.nodes context) proof.old
        (tree_of pool.now.nodes of.0) between of.2 second }
    ensures equal { IfOk result (IsEqualBy pool.now.nodes (tree_of pool.now.nodes context)
        proof.new (tree_of pool.now.nodes of.0) of.1 of.2) }
    ensures extends { OnOk result (Extends proof.old proof.new) }
{
    let _ = between;
    match first {
        None => Ok(second),
        Some(one) => match second {
            None => Ok(first),
            Some(other) => {
                let claim = Claim::Equal(of.0, of.1, of.2);
                let step = by_two(
                    pool,
                    context,
                    proof,
                    Row::EqualTransitive,
                    one,
                    other,
                    claim,
                )?;
                Ok(Some(step))
            }
        },
    }
}

/// An equation that a row infers from another one.
pub(crate) fn carry(
    pool: &Pool,
    context: u64,
    proof: &mut Proof,
    row: Row,
    of: Pair,
    equation: Option<u64>,
) -> Result<Option<u64>, OutOfMemory>
    requires of { AreOfCube pool.now.nodes (tree_of pool.now.nodes context) of }
    requires carried { IsCarriedBy pool.now.nodes (tree_of pool.now.nodes context) proof.old
        row equation of }
    ensures equal { IfOk result (IsEqualBy pool.now.nodes (tree_of pool.now.nodes context)
        proof.new (tree_of pool.now.nodes of.0) of.1 of.2) }
    ensures extends { OnOk result (Extends proof.old proof.new) }
{
    match equation {
        None => Ok(None),
        Some(premise) => {
            let claim = Claim::Equal(of.0, of.1, of.2);
            let step = by_one(pool, context, proof, row, premise, claim)?;
            Ok(Some(step))
        }
    }
}
