//! Branches of the search: what is known in one, and what follows there.

ghost use Rattle.std.specs.Prelude.{◌≡◌, ℕ, ◌+◌, ◌<◌, ◌≤◌, ◌&&◌, ◌||◌, true, false, Bool, Some, None, List, length, replicate, is_some, All, IfOk, OnOk, IfSome, IfNone};
ghost use Rattle.rz_rules.specs.Cube.{binders_of};
ghost use Rattle.rz_rules.specs.Tope.{IsTopeOver, bottom, conjunction, disjunction};
ghost use Rattle.rz_rules.specs.Tree.{Tree};
ghost use Rattle.rz_tope_proof.specs.declared.parts.Part.{Part};
ghost use Rattle.rz_tope_proof.specs.declared.proof.Inference.{Inference};
ghost use Rattle.rz_tope_proof.specs.Claim.{IsClaim, tope_of};
ghost use Rattle.rz_tope_proof.specs.Order.{Order};
ghost use Rattle.rz_tope_proof.specs.Part.{AreParts, IsMadeOf, value_over, part_at};
ghost use Rattle.rz_tope_proof.specs.Place.{IsPlaces};
ghost use Rattle.rz_tope_proof.specs.Proving.{Extends};
ghost use Rattle.rz_tope_proof.specs.Reading.{HasForm, IsEquationOfPairs, IsRead, tope_at};
ghost use Rattle.rz_tope_search.specs.Asked.{AsksFor, is_marked};
ghost use Rattle.rz_tope_search.specs.Branch.{has_step};
ghost use Rattle.rz_tope_search.specs.Showing.{Setting, Shows, IsReading, ProvesTable, ProvesWaiting, ProvesBranch, ProvesSteps, places_tope};
ghost use Rattle.rz_tope_search.specs.Status.{holds_in};
ghost use Rattle.rz_tope_search.specs.Table.{order_of};

use crate::atoms::{derive_at_most, derive_equal, place_at_most, places_equal};
use crate::statuses::Status;
use crate::steps::{infer_axiom, infer_one, infer_two};
use crate::table::Table;
use rz_rules::{OutOfMemory, Row};
use rz_tope_proof::{Claim, Form, ONE, Part, Places, Proof, ZERO};
use std::alloc::Global;

/// A disjunction among the hypotheses that wasn't split yet.
#[derive(Clone, Copy)]
pub(crate) struct Waiting {
    /// Its inference.
    pub step: u64,
    /// Its sides, two parts.
    pub sides: (usize, usize),
}

/// What is known in a branch of the search: what is at most what, and disjunctions.
#[derive(Drop)]
pub struct Branch {
    pub(crate) table: Table,
    pub(crate) waiting: Vec<Waiting>,
}

impl Branch {
    ghost use Rattle.rz_tope_search.specs.Branch.{IsBranch, IsModel, IsWaitingFor, Refines, IsDone, is_joint};

    /// An equal branch.
    pub(crate) fn copy(&self, alloc: Global) -> Result<Branch, OutOfMemory>
        ensures table { IfOk result (λ branch. branch.table ≡ self.now.table) }
        ensures waiting { IfOk result (λ branch. branch.waiting.items ≡ self.now.waiting.items) }
    {
        Ok(Branch {
            table: self.table,
            waiting: Vec::from_slice(alloc, self.waiting.as_slice())?,
        })
    }

    /// Adds what a part says that was inferred.
    pub(crate) fn assume(
        &mut self,
        alloc: Global,
        parts: &[Part],
        places: &Places,
        proof: &mut Proof,
        part: usize,
        step: u64,
    ) -> Result<(), OutOfMemory>
        requires part { part < length parts.now }
        requires parts { AreParts places.now.count parts.now }
        requires branch { IsBranch places.now.count parts.now self.old }
        ensures branch { OnOk result (IsBranch places.now.count parts.now self.new) }
        ensures refines { OnOk result (Refines places.now.count parts.now self.new self.old) }
        ensures holds { OnOk result ((le : Order) (value : ℕ → Bool)
            → IsModel places.now.count parts.now self.new le value → value part ≡ true) }
        ensures extends { OnOk result (Extends proof.old proof.new) }
        ensures proves { OnOk result ((at : Setting)
            → IsReading at proof.old places.now parts.now
            → Shows at proof.old step (tope_at at.nodes parts.now part)
            → ProvesBranch at proof.old places.now parts.now self.old
            → ProvesBranch at proof.new places.now parts.now self.new) }
    {
        let mut steps = no_steps(alloc, part + 1)?;
        steps[part] = Some(step);
        let mut next = part + 1;
        while next > 0 {
            next -= 1;
            if let Some(known) = steps[next] {
                self.assume_form(parts, places, proof, &mut steps, parts[next].form, known)?;
            }
        }
        Ok(())
    }

    /// Adds what a form says that was inferred, or notes the inferences of the parts that it is
    /// made of.
    fn assume_form(
        &mut self,
        parts: &[Part],
        places: &Places,
        proof: &mut Proof,
        steps: &mut Vec<Option<u64>>,
        form: Form,
        step: u64,
    ) -> Result<(), OutOfMemory>
        requires form { IsMadeOf (length steps.old.items) places.now.count form }
        requires steps { length steps.old.items ≤ length parts.now }
        requires branch { IsBranch places.now.count parts.now self.old }
        ensures branch { OnOk result (IsBranch places.now.count parts.now self.new) }
        ensures refines { OnOk result (Refines places.now.count parts.now self.new self.old) }
        ensures done { OnOk result
            (IsDone places.now.count parts.now self.new steps.new.items form) }
        ensures all { length steps.new.items ≡ length steps.old.items }
        ensures kept { (k : ℕ) → has_step steps.old.items k ≡ true
            → has_step steps.new.items k ≡ true }
        ensures others { (before k : ℕ) → IsMadeOf before places.now.count form → before ≤ k
            → has_step steps.new.items k ≡ has_step steps.old.items k }
        ensures extends { OnOk result (Extends proof.old proof.new) }
        ensures proves { OnOk result ((at : Setting) (tope : Tree)
            → IsReading at proof.old places.now parts.now
            → HasForm at.nodes at.context places.now proof.old parts.now form tope
            → Shows at proof.old step tope
            → ProvesBranch at proof.old places.now parts.now self.old
            → ProvesBranch at proof.new places.now parts.now self.new) }
        ensures infers { OnOk result ((at : Setting) (tope : Tree)
            → IsReading at proof.old places.now parts.now
            → HasForm at.nodes at.context places.now proof.old parts.now form tope
            → Shows at proof.old step tope
            → ProvesSteps at proof.old parts.now steps.old.items
            → ProvesSteps at proof.new parts.now steps.new.items) }
    {
        match form {
            Form::And(first, second) => {
                let one = infer_one(proof, Row::AndLeft, step, parts[first].claim)?;
                let other = infer_one(proof, Row::AndRight, step, parts[second].claim)?;
                steps[first] = Some(one);
                steps[second] = Some(other);
                Ok(())
            }
            Form::EqualPairs { left, right, .. } => {
                let one = infer_one(proof, Row::EqualLeft, step, parts[left].claim)?;
                let other = infer_one(proof, Row::EqualRight, step, parts[right].claim)?;
                steps[left] = Some(one);
                steps[right] = Some(other);
                Ok(())
            }
            atom => {
                self.assume_atom(parts, places, proof, atom, step)?;
                Ok(())
            }
        }
    }

    /// Adds what a form says that was inferred, and is no conjunction.
    fn assume_atom(
        &mut self,
        parts: &[Part],
        places: &Places,
        proof: &mut Proof,
        form: Form,
        step: u64,
    ) -> Result<(), OutOfMemory>
        requires form { IsMadeOf (length parts.now) places.now.count form }
        requires atom { is_joint form ≡ false }
        requires branch { IsBranch places.now.count parts.now self.old }
        ensures branch { OnOk result (IsBranch places.now.count parts.now self.new) }
        ensures refines { OnOk result (Refines places.now.count parts.now self.new self.old) }
        ensures holds { OnOk result ((le : Order) (value : ℕ → Bool)
            → IsModel places.now.count parts.now self.new le value
            → value_over le value form ≡ true) }
        ensures extends { OnOk result (Extends proof.old proof.new) }
        ensures proves { OnOk result ((at : Setting) (tope : Tree)
            → IsPlaces at.nodes at.context places.now
            → HasForm at.nodes at.context places.now proof.old parts.now form tope
            → Shows at proof.old step tope
            → ProvesBranch at proof.old places.now parts.now self.old
            → ProvesBranch at proof.new places.now parts.now self.new) }
    {
        match form {
            Form::Top | Form::Same | Form::OnePoint => Ok(()),
            Form::And(..) => unreachable!(),
            Form::EqualPairs { .. } => unreachable!(),
            Form::Bottom => {
                let down = infer_crossing(proof, places, step)?;
                self.compare(parts, places, proof, ONE, ZERO, down)?;
                Ok(())
            }
            Form::Or(first, second) => {
                self.wait(parts, places, first, second, step)?;
                Ok(())
            }
            Form::AtMost(first, second) => {
                let up = place_at_most(proof, places, first, second, step)?;
                self.compare(parts, places, proof, first.place, second.place, up)?;
                Ok(())
            }
            Form::Equal(first, second) => {
                let (up, down) = places_equal(proof, places, first, second, step)?;
                self.compare(parts, places, proof, first.place, second.place, up)?;
                self.compare(parts, places, proof, second.place, first.place, down)?;
                Ok(())
            }
        }
    }

    /// Adds a disjunction that was inferred.
    fn wait(
        &mut self,
        parts: &[Part],
        places: &Places,
        first: usize,
        second: usize,
        step: u64,
    ) -> Result<(), OutOfMemory>
        requires first { first < length parts.now }
        requires second { second < length parts.now }
        requires branch { IsBranch places.now.count parts.now self.old }
        ensures branch { OnOk result (IsBranch places.now.count parts.now self.new) }
        ensures refines { OnOk result (Refines places.now.count parts.now self.new self.old) }
        ensures holds { OnOk result ((le : Order) (value : ℕ → Bool)
            → IsModel places.now.count parts.now self.new le value
            → (value first || value second) ≡ true) }
        ensures proves { OnOk result ((at : Setting) (all : List Inference)
            → Shows at all step
            (disjunction (tope_at at.nodes parts.now first) (tope_at at.nodes parts.now second))
            → ProvesBranch at all places.now parts.now self.old
            → ProvesBranch at all places.now parts.now self.new) }
    {
        self.waiting.push(Waiting {
            step,
            sides: (first, second),
        })?;
        Ok(())
    }

    /// Adds a comparison of places that was inferred, and what follows from it.
    pub(crate) fn compare(
        &mut self,
        parts: &[Part],
        places: &Places,
        proof: &mut Proof,
        first: usize,
        second: usize,
        step: u64,
    ) -> Result<(), OutOfMemory>
        requires first { first < places.now.count }
        requires second { second < places.now.count }
        requires branch { IsBranch places.now.count parts.now self.old }
        ensures branch { OnOk result (IsBranch places.now.count parts.now self.new) }
        ensures refines { OnOk result (Refines places.now.count parts.now self.new self.old) }
        ensures holds { OnOk result ((le : Order) (value : ℕ → Bool)
            → IsModel places.now.count parts.now self.new le value → le first second ≡ true) }
        ensures extends { OnOk result (Extends proof.old proof.new) }
        ensures proves { OnOk result ((at : Setting)
            → IsPlaces at.nodes at.context places.now
            → Shows at proof.old step (places_tope at.nodes places.now first second)
            → ProvesBranch at proof.old places.now parts.now self.old
            → ProvesBranch at proof.new places.now parts.now self.new) }
    {
        let _ = parts;
        self.table.add(proof, places, first, second, step)?;
        Ok(())
    }

    /// Takes a disjunction out that waits at a place.
    pub(crate) fn take(&mut self, parts: &[Part], places: &Places, place: usize) -> Waiting
        requires place { place < length self.old.waiting.items }
        requires branch { IsBranch places.now.count parts.now self.old }
        ensures branch { IsBranch places.now.count parts.now self.new }
        ensures sides { IsWaitingFor parts.now result }
        ensures refines { (le : Order) (value : ℕ → Bool)
            → IsModel places.now.count parts.now self.new le value
            → (value result.sides.0 || value result.sides.1) ≡ true
            → IsModel places.now.count parts.now self.old le value }
        ensures shows { (at : Setting) (all : List Inference)
            → ProvesBranch at all places.now parts.now self.old
            → ProvesWaiting at all parts.now result }
        ensures proves { (at : Setting) (all : List Inference)
            → ProvesBranch at all places.now parts.now self.old
            → ProvesBranch at all places.now parts.now self.new }
    {
        let _ = parts;
        let _ = places;
        self.waiting.remove(place)
    }

    /// Infers a claim where the hypotheses contradict each other: the end 1 is at most the end 0.
    pub(crate) fn infer_anything(
        &self,
        places: &Places,
        proof: &mut Proof,
        claim: Claim,
    ) -> Result<Option<u64>, OutOfMemory>
        requires { order_of self.now.table 0 1 ≡ true }
        ensures apart { IfOk result
            (λ step. IfNone step (order_of self.now.table 1 0 ≡ false)) }
        ensures extends { OnOk result (Extends proof.old proof.new) }
        ensures shows { IfOk result (λ step. (at : Setting)
            → IsPlaces at.nodes at.context places.now
            → ProvesTable at proof.old places.now self.now.table
            → IsClaim at.nodes at.context claim
            → IfSome step (λ s. Shows at proof.new s (tope_of at.nodes claim))) }
    {
        let Some(down) = self.table.at(ONE, ZERO) else {
            return Ok(None);
        };
        let Some(up) = self.table.at(ZERO, ONE) else {
            return Ok(None);
        };
        let step = infer_bottom(proof, places, up, down)?;
        let last = infer_one(proof, Row::Bottom, step, claim)?;
        Ok(Some(last))
    }
}

/// No inference for any of so many parts.
fn no_steps(alloc: Global, count: usize) -> Result<Vec<Option<u64>>, OutOfMemory>
    ensures { IfOk result (λ steps. steps.items ≡ replicate count None) }
{
    let steps = vec![in alloc; None; count]?;
    Ok(steps)
}

/// That the end 1 is at most the end 0, from the tope that never holds.
fn infer_crossing(proof: &mut Proof, places: &Places, step: u64) -> Result<u64, OutOfMemory>
    ensures extends { OnOk result (Extends proof.old proof.new) }
    ensures shows { IfOk result (λ down. (at : Setting)
        → IsPlaces at.nodes at.context places.now → Shows at proof.old step bottom
        → Shows at proof.new down (places_tope at.nodes places.now 1 0)) }
{
    let claim = Claim::AtMost(places.point(ONE), places.point(ZERO));
    let down = infer_one(proof, Row::Bottom, step, claim)?;
    Ok(down)
}

/// The tope that never holds, since each of the ends is at most the other.
fn infer_bottom(proof: &mut Proof, places: &Places, up: u64, down: u64) -> Result<u64, OutOfMemory>
    ensures extends { OnOk result (Extends proof.old proof.new) }
    ensures shows { IfOk result (λ step. (at : Setting)
        → IsPlaces at.nodes at.context places.now
        → Shows at proof.old up (places_tope at.nodes places.now 0 1)
        → Shows at proof.old down (places_tope at.nodes places.now 1 0)
        → Shows at proof.new step bottom) }
{
    let claim = Claim::Equal(places.interval, places.point(ZERO), places.point(ONE));
    let same = infer_two(proof, Row::AtMostAntisymmetric, up, down, claim)?;
    let step = infer_one(proof, Row::ZeroIsNotOne, same, Claim::Bottom)?;
    Ok(step)
}

/// Which parts are asked for, where one is: of a disjunction that holds one side that holds, and
/// both parts of a conjunction.
pub(crate) fn asked_parts(
    alloc: Global,
    parts: &[Part],
    places: &Places,
    list: &[Status],
    part: usize,
) -> Result<Vec<bool>, OutOfMemory>
    requires part { part < length parts.now }
    requires parts { AreParts places.now.count parts.now }
    requires list { length list.now ≡ length parts.now }
    ensures all { IfOk result (λ asked. length asked.items ≡ part + 1) }
    ensures itself { IfOk result (λ asked. is_marked asked.items part ≡ true) }
    ensures asked { IfOk result (λ asked. (k : ℕ) → is_marked asked.items k ≡ true
        → AsksFor (holds_in list.now) (is_marked asked.items) (part_at parts.now k).form) }
{
    let mut asked = vec![in alloc; false; part + 1]?;
    asked[part] = true;
    let mut next = part + 1;
    while next > 0 {
        next -= 1;
        if asked[next] {
            ask_kids(&mut asked, places, list, parts[next].form);
        }
    }
    Ok(asked)
}

/// Asks for the parts that a part is made of.
fn ask_kids(asked: &mut Vec<bool>, places: &Places, list: &[Status], form: Form)
    requires form { IsMadeOf (length asked.old.items) places.now.count form }
    requires list { length asked.old.items ≤ length list.now }
    ensures all { length asked.new.items ≡ length asked.old.items }
    ensures kept { (k : ℕ) → is_marked asked.old.items k ≡ true
        → is_marked asked.new.items k ≡ true }
    ensures asks { AsksFor (holds_in list.now) (is_marked asked.new.items) form }
    ensures others { (before k : ℕ) → IsMadeOf before places.now.count form → before ≤ k
        → is_marked asked.new.items k ≡ is_marked asked.old.items k }
{
    match form {
        Form::And(first, second) => {
            asked[first] = true;
            asked[second] = true;
        }
        Form::EqualPairs { left, right, .. } => {
            asked[left] = true;
            asked[right] = true;
        }
        Form::Or(first, second) => {
            if list[first].holds {
                asked[first] = true;
            } else if list[second].holds {
                asked[second] = true;
            }
        }
        Form::Top
        | Form::Bottom
        | Form::AtMost(..)
        | Form::Equal(..)
        | Form::Same
        | Form::OnePoint => {}
    }
}

/// Infers a part from a table and from the inferences of the parts that it is made of.
pub(crate) fn derive_part(
    places: &Places,
    proof: &mut Proof,
    table: &Table,
    steps: &[Option<u64>],
    part: Part,
) -> Result<Option<u64>, OutOfMemory>
    requires { IsMadeOf (length steps.now) places.now.count part.form }
    ensures there { IfOk result (λ step. is_some step
        ≡ value_over (order_of table.now) (has_step steps.now) part.form) }
    ensures extends { OnOk result (Extends proof.old proof.new) }
    ensures shows { IfOk result (λ step. (at : Setting) (parts : List Part)
        → IsPlaces at.nodes at.context places.now
        → IsRead at.nodes at.context places.now proof.old parts part
        → ProvesTable at proof.old places.now table.now
        → ProvesSteps at proof.old parts steps.now
        → IfSome step (λ s. Shows at proof.new s (tope_of at.nodes part.claim))) }
{
    let claim = part.claim;
    match part.form {
        Form::Top => {
            let step = infer_axiom(proof, Row::Top, claim)?;
            Ok(Some(step))
        }
        Form::Same => {
            let step = infer_axiom(proof, Row::EqualReflexive, claim)?;
            Ok(Some(step))
        }
        Form::OnePoint => {
            let step = infer_axiom(proof, Row::EqualOne, claim)?;
            Ok(Some(step))
        }
        Form::Bottom => Ok(None),
        Form::And(first, second) => {
            let step = derive_and(proof, steps[first], steps[second], claim)?;
            Ok(step)
        }
        Form::Or(first, second) => {
            let step = derive_or(proof, steps[first], steps[second], claim)?;
            Ok(step)
        }
        Form::AtMost(first, second) => {
            let Some(up) = table.at(first.place, second.place) else {
                return Ok(None);
            };
            let step = derive_at_most(proof, places, first, second, up)?;
            Ok(Some(step))
        }
        Form::Equal(first, second) => {
            let Some(up) = table.at(first.place, second.place) else {
                return Ok(None);
            };
            let Some(down) = table.at(second.place, first.place) else {
                return Ok(None);
            };
            let step = derive_equal(proof, places, first, second, up, down)?;
            Ok(Some(step))
        }
        Form::EqualPairs {
            of,
            left,
            right,
            pairs,
        } => {
            let step = derive_pairs(proof, of, pairs, steps[left], steps[right])?;
            Ok(step)
        }
    }
}

/// A conjunction, where both its parts are inferred.
fn derive_and(
    proof: &mut Proof,
    first: Option<u64>,
    second: Option<u64>,
    claim: Claim,
) -> Result<Option<u64>, OutOfMemory>
    ensures there { IfOk result (λ step. is_some step ≡ (is_some first && is_some second)) }
    ensures extends { OnOk result (Extends proof.old proof.new) }
    ensures shows { IfOk result (λ step. (at : Setting) (p q : Tree)
        → IsClaim at.nodes at.context claim → tope_of at.nodes claim ≡ conjunction p q
        → IfSome first (λ s. Shows at proof.old s p)
        → IfSome second (λ s. Shows at proof.old s q)
        → IfSome step (λ s. Shows at proof.new s (tope_of at.nodes claim))) }
{
    let Some(one) = first else {
        return Ok(None);
    };
    let Some(other) = second else {
        return Ok(None);
    };
    let step = infer_two(proof, Row::And, one, other, claim)?;
    Ok(Some(step))
}

/// A disjunction, where one of its parts is inferred.
fn derive_or(
    proof: &mut Proof,
    first: Option<u64>,
    second: Option<u64>,
    claim: Claim,
) -> Result<Option<u64>, OutOfMemory>
    ensures there { IfOk result (λ step. is_some step ≡ (is_some first || is_some second)) }
    ensures extends { OnOk result (Extends proof.old proof.new) }
    ensures shows { IfOk result (λ step. (at : Setting) (p q : Tree)
        → IsClaim at.nodes at.context claim → tope_of at.nodes claim ≡ disjunction p q
        → IfSome first (λ s. Shows at proof.old s p)
        → IfSome second (λ s. Shows at proof.old s q)
        → IfSome step (λ s. Shows at proof.new s (tope_of at.nodes claim))) }
{
    if let Some(one) = first {
        let step = infer_one(proof, Row::OrLeft, one, claim)?;
        return Ok(Some(step));
    }
    let Some(other) = second else {
        return Ok(None);
    };
    let step = infer_one(proof, Row::OrRight, other, claim)?;
    Ok(Some(step))
}

/// That two points of a product are equal, where their left and their right parts are inferred to
/// be equal.
fn derive_pairs(
    proof: &mut Proof,
    of: (u64, u64, u64),
    pairs: (u64, u64),
    first: Option<u64>,
    second: Option<u64>,
) -> Result<Option<u64>, OutOfMemory>
    ensures there { IfOk result (λ step. is_some step ≡ (is_some first && is_some second)) }
    ensures extends { OnOk result (Extends proof.old proof.new) }
    ensures shows { IfOk result (λ step. (at : Setting) (parts : List Part)
        (left right : ℕ) (tope : Tree)
        → IsEquationOfPairs at.nodes parts of left right pairs tope
        → IsTopeOver (binders_of at.context) tope
        → IfSome first (λ s. Shows at proof.old s (tope_at at.nodes parts left))
        → IfSome second (λ s. Shows at proof.old s (tope_at at.nodes parts right))
        → IfSome step (λ s. Shows at proof.new s tope)) }
{
    let Some(one) = first else {
        return Ok(None);
    };
    let Some(other) = second else {
        return Ok(None);
    };
    let step = equate_pairs(proof, of, pairs, one, other)?;
    Ok(Some(step))
}

/// That two points of a product are equal, since their left and their right parts are.
fn equate_pairs(
    proof: &mut Proof,
    of: (u64, u64, u64),
    pairs: (u64, u64),
    left: u64,
    right: u64,
) -> Result<u64, OutOfMemory>
    ensures extends { OnOk result (Extends proof.old proof.new) }
    ensures shows { IfOk result (λ last. (at : Setting) (parts : List Part)
        (one other : ℕ) (tope : Tree)
        → IsEquationOfPairs at.nodes parts of one other pairs tope
        → IsTopeOver (binders_of at.context) tope
        → Shows at proof.old left (tope_at at.nodes parts one)
        → Shows at proof.old right (tope_at at.nodes parts other)
        → Shows at proof.new last tope) }
{
    let (cube, first, second) = of;
    let claim = Claim::Equal(cube, pairs.0, pairs.1);
    let middle = infer_two(proof, Row::EqualPair, left, right, claim)?;
    let claim = Claim::Equal(cube, first, pairs.0);
    let start = infer_axiom(proof, Row::EqualEta, claim)?;
    let claim = Claim::Equal(cube, second, pairs.1);
    let back = infer_axiom(proof, Row::EqualEta, claim)?;
    let claim = Claim::Equal(cube, pairs.1, second);
    let end = infer_one(proof, Row::EqualSymmetric, back, claim)?;
    let claim = Claim::Equal(cube, first, pairs.1);
    let front = infer_two(proof, Row::EqualTransitive, start, middle, claim)?;
    let claim = Claim::Equal(cube, first, second);
    let last = infer_two(proof, Row::EqualTransitive, front, end, claim)?;
    Ok(last)
}
