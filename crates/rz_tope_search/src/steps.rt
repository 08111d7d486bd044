//! Inferences by rows, and assumptions. Each function answers the number of an inference.

ghost use Rattle.std.specs.Prelude.{◌≡◌, [], ◌∷◌, IfOk, OnOk};
ghost use Rattle.rz_rules.specs.Tree.{Tree};
ghost use Rattle.rz_tope_proof.specs.Claim.{IsClaim, tope_of};
ghost use Rattle.rz_tope_proof.specs.Proving.{Extends, Infers};
ghost use Rattle.rz_tope_search.specs.Searching.{Assumes};
ghost use Rattle.rz_tope_search.specs.Showing.{Setting, Shows, ShowsUnlessSame, assuming};

use rz_rules::{OutOfMemory, Row};
use rz_tope_proof::{Claim, Proof, Reason};

/// An assumption.
pub(crate) fn infer_leaf(proof: &mut Proof, claim: Claim) -> Result<u64, OutOfMemory>
    ensures extends { OnOk result (Extends proof.old proof.new) }
    ensures assumes { IfOk result (λ leaf. (at : Setting) (tope : Tree)
        → IsClaim at.nodes at.context claim → tope_of at.nodes claim ≡ tope
        → Assumes at proof.new leaf tope) }
    ensures shows { IfOk result (λ leaf. (at : Setting) (tope : Tree)
        → IsClaim at.nodes at.context claim → tope_of at.nodes claim ≡ tope
        → Shows (assuming leaf at) proof.new leaf tope) }
{
    let leaf = proof.infer(Reason::Assumption, claim)?;
    Ok(leaf)
}

/// An inference by a row without premises.
pub(crate) fn infer_axiom(proof: &mut Proof, row: Row, claim: Claim) -> Result<u64, OutOfMemory>
    ensures extends { OnOk result (Extends proof.old proof.new) }
    ensures shows { IfOk result (λ step. (at : Setting) (tope : Tree)
        → IsClaim at.nodes at.context claim → tope_of at.nodes claim ≡ tope
        → Infers row [] tope → Shows at proof.new step tope) }
{
    let step = proof.infer(Reason::Axiom(row), claim)?;
    Ok(step)
}

/// An inference by a row with one premise.
pub(crate) fn infer_one(
    proof: &mut Proof,
    row: Row,
    premise: u64,
    claim: Claim,
) -> Result<u64, OutOfMemory>
    ensures extends { OnOk result (Extends proof.old proof.new) }
    ensures shows { IfOk result (λ step. (at : Setting) (p tope : Tree)
        → IsClaim at.nodes at.context claim → tope_of at.nodes claim ≡ tope
        → Infers row (p ∷ []) tope → Shows at proof.old premise p
        → Shows at proof.new step tope) }
{
    let step = proof.infer(Reason::One(row, premise), claim)?;
    Ok(step)
}

/// An inference by a row with two premises.
pub(crate) fn infer_two(
    proof: &mut Proof,
    row: Row,
    first: u64,
    second: u64,
    claim: Claim,
) -> Result<u64, OutOfMemory>
    ensures extends { OnOk result (Extends proof.old proof.new) }
    ensures shows { IfOk result (λ step. (at : Setting) (p q tope : Tree)
        → IsClaim at.nodes at.context claim → tope_of at.nodes claim ≡ tope
        → Infers row (p ∷ q ∷ []) tope → Shows at proof.old first p
        → Shows at proof.old second q → Shows at proof.new step tope) }
{
    let step = proof.infer(Reason::Two(row, first, second), claim)?;
    Ok(step)
}

/// An inference by a row with one premise, where that is there.
pub(crate) fn infer_if_some(
    proof: &mut Proof,
    row: Row,
    premise: Option<u64>,
    claim: Claim,
) -> Result<Option<u64>, OutOfMemory>
    ensures extends { OnOk result (Extends proof.old proof.new) }
    ensures shows { IfOk result (λ step. (at : Setting) (p tope s u : Tree)
        → IsClaim at.nodes at.context claim → tope_of at.nodes claim ≡ tope
        → Infers row (p ∷ []) tope → ShowsUnlessSame at proof.old premise p s u
        → ShowsUnlessSame at proof.new step tope s u) }
{
    match premise {
        Some(premise) => {
            let step = infer_one(proof, row, premise, claim)?;
            Ok(Some(step))
        }
        None => Ok(None),
    }
}

/// An inference by a row with two premises, or the second one where the first isn't there.
pub(crate) fn put_before(
    proof: &mut Proof,
    row: Row,
    first: Option<u64>,
    second: u64,
    claim: Claim,
) -> Result<u64, OutOfMemory>
    ensures extends { OnOk result (Extends proof.old proof.new) }
    ensures shows { IfOk result (λ step. (at : Setting) (p q tope : Tree)
        → IsClaim at.nodes at.context claim → tope_of at.nodes claim ≡ tope
        → Infers row (p ∷ q ∷ []) tope → ShowsUnlessSame at proof.old first p q tope
        → Shows at proof.old second q → Shows at proof.new step tope) }
{
    match first {
        Some(first) => {
            let step = infer_two(proof, row, first, second, claim)?;
            Ok(step)
        }
        None => Ok(second),
    }
}

/// An inference by a row with two premises, or the first one where the second isn't there.
pub(crate) fn put_behind(
    proof: &mut Proof,
    row: Row,
    first: u64,
    second: Option<u64>,
    claim: Claim,
) -> Result<u64, OutOfMemory>
    ensures extends { OnOk result (Extends proof.old proof.new) }
    ensures shows { IfOk result (λ step. (at : Setting) (p q tope : Tree)
        → IsClaim at.nodes at.context claim → tope_of at.nodes claim ≡ tope
        → Infers row (p ∷ q ∷ []) tope → Shows at proof.old first p
        → ShowsUnlessSame at proof.old second q p tope → Shows at proof.new step tope) }
{
    match second {
        Some(second) => {
            let step = infer_two(proof, row, first, second, claim)?;
            Ok(step)
        }
        None => Ok(first),
    }
}
