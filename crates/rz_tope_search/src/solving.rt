//! Proving a part of a sequent from its hypotheses, or refuting it by ranks.

ghost use Rattle.std.specs.Prelude.{◌≡◌, ℕ, ◌+◌, ◌<◌, ◌≤◌, ◌⊎◌, Bool, true, length, All, IfOk, OnOk};
ghost use Rattle.rz_tope_search.specs.Asked.{is_marked};
ghost use Rattle.rz_tope_search.specs.Branch.{IsBranch, IsModel, has_step, is_joint, first_of, second_of};
ghost use Rattle.rz_tope_search.specs.Conjunct.{IsConjunct, MarksKids, IsKid, Follows};
ghost use Rattle.rz_tope_proof.specs.Order.{Order, rank};
ghost use Rattle.rz_tope_proof.specs.Part.{AreParts, IsMadeOf, part_at};
ghost use Rattle.rz_tope_proof.specs.Proving.{Extends};
ghost use Rattle.rz_tope_search.specs.Search.{IsFound};
ghost use Rattle.rz_tope_search.specs.Searching.{ProvesFound};
ghost use Rattle.rz_tope_search.specs.Showing.{Setting, IsReading, ProvesBranch, ProvesSteps};
ghost use Rattle.rz_tope_proof.specs.Ranks.{ranks_from};
ghost use Rattle.rz_tope_search.specs.Solving.{IsTrueGiven, ProvesConjunct, ProvesGiven};
ghost use Rattle.rz_tope_search.specs.Table.{order_of};

use crate::branches::{Branch, derive_part};
use crate::search::{Found, search};
use crate::statuses::statuses;
use crate::table::Table;
use rz_rules::{Coord, OutOfMemory, Ranks};
use rz_tope_proof::{Form, Part, Places, Proof};
use std::alloc::Global;

/// What the hypotheses say.
///
/// Of each hypothesis `given` has the number of its part, and that of the inference that proves it.
pub fn root_branch(
    alloc: Global,
    parts: &[Part],
    places: &Places,
    proof: &mut Proof,
    given: &[(usize, u64)],
) -> Result<Branch, OutOfMemory>
    requires parts { AreParts places.now.count parts.now }
    requires given { All (λ hypothesis. hypothesis.0 < length parts.now) given.now }
    ensures branch { IfOk result (IsBranch places.now.count parts.now) }
    ensures holds { IfOk result (λ branch. (le : Order) (value : ℕ → Bool)
        → IsModel places.now.count parts.now branch le value
        → All (IsTrueGiven value) given.now) }
    ensures extends { OnOk result (Extends proof.old proof.new) }
    ensures proves { IfOk result (λ branch. (at : Setting)
        → IsReading at proof.old places.now parts.now
        → All (ProvesGiven at proof.old parts.now) given.now
        → ProvesBranch at proof.new places.now parts.now branch) }
{
    let mut branch = Branch {
        table: Table::new(proof, places)?,
        waiting: Vec::new(alloc),
    };
    for (part, step) in given {
        branch.assume(alloc, parts, places, proof, *part, *step)?;
    }
    Ok(branch)
}

/// Proves the part with a number, or finds a table that refutes it: each part of a conjunction that
/// doesn't hold as a whole by a search of its own.
pub fn prove(
    alloc: Global,
    parts: &[Part],
    places: &Places,
    proof: &mut Proof,
    root: &Branch,
    goal: usize,
) -> Result<Found, OutOfMemory>
    requires goal { goal < length parts.now }
    requires parts { AreParts places.now.count parts.now }
    requires root { IsBranch places.now.count parts.now root.now }
    ensures found { IfOk result (IsFound places.now.count parts.now root.now goal) }
    ensures extends { OnOk result (Extends proof.old proof.new) }
    ensures proves { IfOk result (λ found. (at : Setting)
        → IsReading at proof.old places.now parts.now
        → ProvesBranch at proof.old places.now parts.now root.now
        → ProvesFound at proof.new parts.now goal found) }
{
    let list = statuses(alloc, parts, places, &root.table)?;
    if list[goal].holds {
        let found = search(alloc, parts, places, proof, root, goal)?;
        return Ok(found);
    }
    let marks = conjuncts(alloc, parts, places, goal)?;
    let mut steps = Vec::new(alloc);
    for part in 0..marks.len() {
        match prove_conjunct(alloc, parts, places, proof, root, &steps, marks[part], part)? {
            Conjunct::Step(step) => steps.push(step)?,
            Conjunct::Refuted(table) => return Ok(Found::Refuted(table)),
        }
    }
    match steps[goal] {
        Some(step) => Ok(Found::Proved(step)),
        None => unreachable!(),
    }
}

/// What is found of one part of a conjunction.
#[derive(Clone, Copy)]
pub(crate) enum Conjunct {
    /// Its inference, where it was asked for.
    Step(Option<u64>),
    /// A table that refutes it.
    Refuted(Table),
}

/// Proves one part of a conjunction, if it is marked, where those are proved that it is made of.
fn prove_conjunct(
    alloc: Global,
    parts: &[Part],
    places: &Places,
    proof: &mut Proof,
    root: &Branch,
    steps: &[Option<u64>],
    is_asked: bool,
    part: usize,
) -> Result<Conjunct, OutOfMemory>
    requires part { part < length parts.now }
    requires steps { length steps.now ≡ part }
    requires parts { AreParts places.now.count parts.now }
    requires root { IsBranch places.now.count parts.now root.now }
    requires kids { is_asked ≡ true → is_joint (part_at parts.now part).form ≡ true
        → (has_step steps.now (first_of (part_at parts.now part).form) ≡ true)
        × (has_step steps.now (second_of (part_at parts.now part).form) ≡ true) }
    ensures conjunct { IfOk result
        (IsConjunct places.now.count parts.now root.now part is_asked) }
    ensures extends { OnOk result (Extends proof.old proof.new) }
    ensures proves { IfOk result (λ conjunct. (at : Setting)
        → IsReading at proof.old places.now parts.now
        → ProvesBranch at proof.old places.now parts.now root.now
        → ProvesSteps at proof.old parts.now steps.now
        → ProvesConjunct at proof.new parts.now part conjunct) }
{
    if !is_asked {
        return Ok(Conjunct::Step(None));
    }
    match parts[part].form {
        Form::And(..) => {
            let step = derive_part(places, proof, &root.table, steps, parts[part])?;
            Ok(Conjunct::Step(step))
        }
        Form::EqualPairs { .. } => {
            let step = derive_part(places, proof, &root.table, steps, parts[part])?;
            Ok(Conjunct::Step(step))
        }
        _ => match search(alloc, parts, places, proof, root, part)? {
            Found::Proved(step) => Ok(Conjunct::Step(Some(step))),
            Found::Refuted(table) => Ok(Conjunct::Refuted(table)),
        },
    }
}

/// The parts of a conjunction, itself among them: of each one that is a conjunction again, both of
/// its parts.
fn conjuncts(
    alloc: Global,
    parts: &[Part],
    places: &Places,
    part: usize,
) -> Result<Vec<bool>, OutOfMemory>
    requires part { part < length parts.now }
    requires parts { AreParts places.now.count parts.now }
    ensures all { IfOk result (λ marks. length marks.items ≡ part + 1) }
    ensures itself { IfOk result (λ marks. is_marked marks.items part ≡ true) }
    ensures kids { IfOk result (λ marks. (k : ℕ) → is_marked marks.items k ≡ true
        → MarksKids (is_marked marks.items) (part_at parts.now k).form) }
    ensures follow { IfOk result (λ marks. (k : ℕ) → is_marked marks.items k ≡ true
        → Follows parts.now part k) }
{
    let mut marks = vec![in alloc; false; part + 1]?;
    marks[part] = true;
    let mut next = part + 1;
    while next > 0 {
        next -= 1;
        if marks[next] {
            mark_kids(&mut marks, places, parts[next].form);
        }
    }
    Ok(marks)
}

/// Marks both parts of a conjunction.
fn mark_kids(marks: &mut Vec<bool>, places: &Places, form: Form)
    requires { IsMadeOf (length marks.old.items) places.now.count form }
    ensures all { length marks.new.items ≡ length marks.old.items }
    ensures kept { (k : ℕ) → is_marked marks.old.items k ≡ true
        → is_marked marks.new.items k ≡ true }
    ensures kids { MarksKids (is_marked marks.new.items) form }
    ensures others { (before k : ℕ) → IsMadeOf before places.now.count form → before ≤ k
        → is_marked marks.new.items k ≡ is_marked marks.old.items k }
    ensures only { (k : ℕ) → is_marked marks.new.items k ≡ true
        → (is_marked marks.old.items k ≡ true) ⊎ IsKid form k }
{
    match form {
        Form::And(first, second) => {
            marks[first] = true;
            marks[second] = true;
        }
        Form::EqualPairs { left, right, .. } => {
            marks[left] = true;
            marks[right] = true;
        }
        Form::Or(..)
        | Form::Top
        | Form::Bottom
        | Form::AtMost(..)
        | Form::Equal(..)
        | Form::Same
        | Form::OnePoint => {}
    }
}

/// The ranks of the coordinates that occur, in the order of a table. The first coordinate has the
/// place 2, behind the ends, and so on.
pub fn ranks(
    alloc: Global,
    places: &Places,
    table: &Table,
    list: &[Coord],
) -> Result<Ranks, OutOfMemory>
    requires { length list.now + 2 ≡ places.now.count }
    ensures { IfOk result (λ ranks. ranks
        ≡ ranks_from (rank places.now.count (order_of table.now)) 2 list.now) }
{
    let mut ranks = Ranks::new(alloc);
    for (position, coordinate) in list.iter().enumerate() {
        ranks.push((coordinate.copy()?, table.rank(places, 2 + position)))?;
    }
    Ok(ranks)
}
