//! Inferences by rows.

ghost use Rattle.std.specs.Prelude.{◌≡◌, ◌<◌, [], length, IfOk, OnOk};
ghost use Rattle.rz_rules.specs.Tree.{tree_of};
ghost use Rattle.rz_tope_proof.specs.Claim.{IsClaim, tope_of};
ghost use Rattle.rz_tope_proof.specs.Proving.{Extends, Infers, IsGiven, Proves};
ghost use Rattle.rz_tope_normal.specs.Later.{InfersFrom, InfersFromTwo};

use rz_pool::Pool;
use rz_rules::{OutOfMemory, Row};
use rz_tope_proof::{Claim, Proof, Reason};

/// Infers the tope of an entry of a context, behind which so many others stand.
pub(crate) fn hypothesis(
    _pool: &Pool,
    _context: u64,
    proof: &mut Proof,
    number: u64,
    claim: Claim,
) -> Result<u64, OutOfMemory>
    requires claim { IsClaim _pool.now.nodes (tree_of _pool.now.nodes _context) claim }
    requires given { IsGiven (tree_of _pool.now.nodes _context) number
        (tope_of _pool.now.nodes claim) }
    ensures proves { IfOk result (λ step. Proves _pool.now.nodes (tree_of _pool.now.nodes _context)
        proof.new [] step (tope_of _pool.now.nodes claim)) }
    ensures extends { OnOk result (Extends proof.old proof.new) }
{
    let step = proof.infer(Reason::Hypothesis(number), claim)?;
    Ok(step)
}

/// Infers a claim by a row without premises.
pub(crate) fn by_axiom(
    _pool: &Pool,
    _context: u64,
    proof: &mut Proof,
    row: Row,
    claim: Claim,
) -> Result<u64, OutOfMemory>
    requires claim { IsClaim _pool.now.nodes (tree_of _pool.now.nodes _context) claim }
    requires infers { Infers row [] (tope_of _pool.now.nodes claim) }
    ensures proves { IfOk result (λ step. Proves _pool.now.nodes (tree_of _pool.now.nodes _context)
        proof.new [] step (tope_of _pool.now.nodes claim)) }
    ensures extends { OnOk result (Extends proof.old proof.new) }
{
    let step = proof.infer(Reason::Axiom(row), claim)?;
    Ok(step)
}

/// Infers a claim by a row with one premise.
pub(crate) fn by_one(
    _pool: &Pool,
    _context: u64,
    proof: &mut Proof,
    row: Row,
    premise: u64,
    claim: Claim,
) -> Result<u64, OutOfMemory>
    requires claim { IsClaim _pool.now.nodes (tree_of _pool.now.nodes _context) claim }
    requires infers { InfersFrom _pool.now.nodes (tree_of _pool.now.nodes _context) proof.old row
        premise (tope_of _pool.now.nodes claim) }
    ensures proves { IfOk result (λ step. Proves _pool.now.nodes (tree_of _pool.now.nodes _context)
        proof.new [] step (tope_of _pool.now.nodes claim)) }
    ensures extends { OnOk result (Extends proof.old proof.new) }
{
    let step = proof.infer(Reason::One(row, premise), claim)?;
    Ok(step)
}

/// Infers a claim by a row with two premises.
pub(crate) fn by_two(
    _pool: &Pool,
    _context: u64,
    proof: &mut Proof,
    row: Row,
    first: u64,
    second: u64,
    claim: Claim,
) -> Result<u64, OutOfMemory>
    requires claim { IsClaim _pool.now.nodes (tree_of _pool.now.nodes _context) claim }
    requires infers { InfersFromTwo _pool.now.nodes (tree_of _pool.now.nodes _context) proof.old row
        first second (tope_of _pool.now.nodes claim) }
    ensures proves { IfOk result (λ step. Proves _pool.now.nodes (tree_of _pool.now.nodes _context)
        proof.new [] step (tope_of _pool.now.nodes claim)) }
    ensures extends { OnOk result (Extends proof.old proof.new) }
{
    let step = proof.infer(Reason::Two(row, first, second), claim)?;
    Ok(step)
}
