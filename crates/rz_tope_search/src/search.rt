//! The search for a proof of one part.

ghost use Rattle.std.specs.Prelude.{◌≡◌, ℕ, ◌<◌, ◌&&◌, Bool, true, false, List, length, All, is_some, IfOk, OnOk, IfSome, IfNone};
ghost use Rattle.rz_tope_proof.specs.declared.parts.Part.{Part};
ghost use Rattle.rz_tope_proof.specs.declared.proof.Inference.{Inference};
ghost use Rattle.rz_rules.specs.Tree.{Tree};
ghost use Rattle.rz_tope_proof.specs.Claim.{IsClaim, tope_of};
ghost use Rattle.rz_tope_proof.specs.Order.{Order};
ghost use Rattle.rz_tope_proof.specs.Part.{AreParts, IsMadeOf, value_over};
ghost use Rattle.rz_tope_proof.specs.Place.{IsPlaces};
ghost use Rattle.rz_tope_proof.specs.Proving.{Extends};
ghost use Rattle.rz_tope_proof.specs.Reading.{IsRead, tope_at};
ghost use Rattle.rz_rules.specs.Tope.{disjunction};
ghost use Rattle.rz_tope_search.specs.Status.{holds_in, AreStatuses};
ghost use Rattle.rz_tope_search.specs.Table.{order_of};
ghost use Rattle.rz_tope_search.specs.Branch.{IsBranch, IsModel, Refines, IsWaitingFor, IsTrueWaiting, has_step};
ghost use Rattle.rz_tope_search.specs.Search.{IsCase, case_value, CaseRefines, IsFork, IsSplit, Leads, IsNext, IsResumed, ResumedRefines, IsFound};
ghost use Rattle.rz_tope_search.specs.Searching.{case_tope, Assumes, within, ProvesFork, ProvesSplit, ProvesSplits, ProvesSearch, ProvesNext, ProvesResumed, ProvesFound};
ghost use Rattle.rz_tope_search.specs.Showing.{Setting, Shows, assuming, IsReading, ProvesTable, ProvesBranch, ProvesSteps};

use crate::branches::{Branch, asked_parts, derive_part};
use crate::statuses::{Status, open_pair, statuses};
use crate::steps::{infer_axiom, infer_leaf};
use crate::table::Table;
use rz_rules::{OutOfMemory, Row};
use rz_tope_proof::{Claim, Part, Places, Proof, Reason};
use std::alloc::Global;

/// One side of a disjunction on which the search splits.
#[derive(Clone, Copy)]
pub(crate) enum Case {
    /// A part.
    Part(usize),
    /// That the first place is at most the second.
    AtMost(usize, usize),
}

/// A disjunction on which the search splits.
#[derive(Clone, Copy)]
pub(crate) struct Fork {
    /// Its inference.
    pub cover: u64,
    pub left: Case,
    pub right: Case,
}

/// What comes next in a branch.
#[derive(Clone, Copy)]
pub(crate) enum Next {
    /// The part is inferred.
    Proved(u64),
    /// A disjunction among the hypotheses is split, the one that waits at this place.
    Taken(usize),
    /// Two places are compared.
    Compared(usize, usize),
    /// The table refutes the part.
    Refuted,
}

/// Which branch of a split is being searched.
#[derive(Clone, Copy)]
pub(crate) enum Stage {
    Left,
    /// The right one; the assumption of the left branch, and what was inferred there.
    Right(u64, u64),
}

/// A split whose branches are being searched.
#[derive(Drop)]
pub(crate) struct Split {
    pub fork: Fork,
    /// The assumption of the present branch.
    pub leaf: u64,
    /// What is known in both branches.
    pub branch: Branch,
    pub stage: Stage,
}

/// How the search goes on where a branch is proved.
#[derive(Drop)]
pub(crate) enum Resumed {
    /// With the right branch of a split.
    Branch(Branch),
    /// It is at its end, with this inference.
    Done(u64),
}

/// The result of a search.
#[derive(Clone, Copy)]
pub enum Found {
    /// The inference of the part.
    Proved(u64),
    /// The table of a branch in which the part isn't true, though all hypotheses are.
    Refuted(Table),
}

/// Proves a part in a branch, or finds a branch that refutes it.
///
/// Each round infers something, so that memory runs out before the rounds do.
pub(crate) fn search(
    alloc: Global,
    parts: &[Part],
    places: &Places,
    proof: &mut Proof,
    start: &Branch,
    goal: usize,
) -> Result<Found, OutOfMemory>
    requires goal { goal < length parts.now }
    requires parts { AreParts places.now.count parts.now }
    requires start { IsBranch places.now.count parts.now start.now }
    ensures found { IfOk result (IsFound places.now.count parts.now start.now goal) }
    ensures extends { OnOk result (Extends proof.old proof.new) }
    ensures proves { IfOk result (λ found. (at : Setting)
        → IsReading at proof.old places.now parts.now
        → ProvesBranch at proof.old places.now parts.now start.now
        → ProvesFound at proof.new parts.now goal found) }
{
    let mut branch = start.copy(alloc)?;
    let mut splits = Vec::new(alloc);
    for _ in 0..u64::MAX {
        match next_step(alloc, parts, places, proof, &branch, goal)? {
            Next::Refuted => return Ok(Found::Refuted(branch.table)),
            Next::Proved(step) => {
                match resume(alloc, parts, places, proof, &mut splits, goal, step)? {
                    Resumed::Branch(right) => branch = right,
                    Resumed::Done(step) => return Ok(Found::Proved(step)),
                }
            }
            Next::Taken(place) => {
                let fork = taken_fork(parts, places, &mut branch, place);
                branch = begin_left(alloc, parts, places, proof, &mut splits, branch, fork)?;
            }
            Next::Compared(low, high) => {
                let fork = compared_fork(places, proof, low, high)?;
                branch = begin_left(alloc, parts, places, proof, &mut splits, branch, fork)?;
            }
        }
    }
    Err(OutOfMemory)
}

/// The fork of a disjunction that waits at a place, which is taken out there.
fn taken_fork(parts: &[Part], places: &Places, branch: &mut Branch, place: usize) -> Fork
    requires place { place < length branch.old.waiting.items }
    requires branch { IsBranch places.now.count parts.now branch.old }
    ensures is { IsFork places.now.count parts.now branch.old branch.new result }
    ensures fork { (at : Setting) (all : List Inference)
        → ProvesBranch at all places.now parts.now branch.old
        → ProvesFork at all places.now parts.now result }
    ensures branch { (at : Setting) (all : List Inference)
        → ProvesBranch at all places.now parts.now branch.old
        → ProvesBranch at all places.now parts.now branch.new }
{
    let waiting = branch.take(parts, places, place);
    Fork {
        cover: waiting.step,
        left: Case::Part(waiting.sides.0),
        right: Case::Part(waiting.sides.1),
    }
}

/// The fork of two places, of which one is at most the other.
fn compared_fork(
    places: &Places,
    proof: &mut Proof,
    low: usize,
    high: usize,
) -> Result<Fork, OutOfMemory>
    requires low { low < places.now.count }
    requires high { high < places.now.count }
    ensures left { IfOk result (λ fork. fork.left ≡ Case.AtMost low high) }
    ensures right { IfOk result (λ fork. fork.right ≡ Case.AtMost high low) }
    ensures extends { OnOk result (Extends proof.old proof.new) }
    ensures proves { IfOk result (λ fork. (at : Setting) (parts : List Part)
        → IsPlaces at.nodes at.context places.now
        → ProvesFork at proof.new places.now parts fork) }
{
    let claim = Claim::Either(places.point(low), places.point(high));
    let cover = infer_axiom(proof, Row::AtMostTotal, claim)?;
    Ok(Fork {
        cover,
        left: Case::AtMost(low, high),
        right: Case::AtMost(high, low),
    })
}

/// Begins with the left branch of a split.
fn begin_left(
    alloc: Global,
    parts: &[Part],
    places: &Places,
    proof: &mut Proof,
    splits: &mut Vec<Split>,
    branch: Branch,
    fork: Fork,
) -> Result<Branch, OutOfMemory>
    requires parts { AreParts places.now.count parts.now }
    requires branch { IsBranch places.now.count parts.now branch }
    requires left { IsCase places.now.count parts.now fork.left }
    requires right { IsCase places.now.count parts.now fork.right }
    ensures branch { IfOk result (IsBranch places.now.count parts.now) }
    ensures refines { IfOk result (λ under. (le : Order) (value : ℕ → Bool)
        → IsModel places.now.count parts.now under le value
        → IsModel places.now.count parts.now branch le value
        × (case_value le value fork.left ≡ true)) }
    ensures splits { OnOk result (All (IsSplit places.now.count parts.now) splits.old.items
        → All (IsSplit places.now.count parts.now) splits.new.items) }
    ensures leads { OnOk result ((start : Branch)
        → CaseRefines places.now.count parts.now branch fork.right start
        → All (Leads places.now.count parts.now start) splits.old.items
        → All (Leads places.now.count parts.now start) splits.new.items) }
    ensures extends { OnOk result (Extends proof.old proof.new) }
    ensures proves { IfOk result (λ left. (at : Setting) (goal : ℕ)
        → IsReading at proof.old places.now parts.now
        → ProvesSearch at proof.old places.now parts.now goal splits.old.items branch
        → ProvesFork (within at splits.old.items) proof.old places.now parts.now fork
        → ProvesSearch at proof.new places.now parts.now goal splits.new.items left) }
{
    let (leaf, left) = branch_under(alloc, parts, places, proof, &branch, fork.left)?;
    splits.push(Split {
        fork,
        leaf,
        branch,
        stage: Stage::Left,
    })?;
    Ok(left)
}

/// What is known where besides one side of a disjunction is assumed, and the assumption.
fn branch_under(
    alloc: Global,
    parts: &[Part],
    places: &Places,
    proof: &mut Proof,
    branch: &Branch,
    case: Case,
) -> Result<(u64, Branch), OutOfMemory>
    requires parts { AreParts places.now.count parts.now }
    requires branch { IsBranch places.now.count parts.now branch.now }
    requires case { IsCase places.now.count parts.now case }
    ensures branch { IfOk result (λ under. IsBranch places.now.count parts.now under.1) }
    ensures refines { IfOk result (λ under. (le : Order) (value : ℕ → Bool)
        → IsModel places.now.count parts.now under.1 le value
        → IsModel places.now.count parts.now branch.now le value
        × (case_value le value case ≡ true)) }
    ensures extends { OnOk result (Extends proof.old proof.new) }
    ensures assumes { IfOk result (λ under. (at : Setting)
        → IsReading at proof.old places.now parts.now
        → Assumes at proof.new under.0 (case_tope at.nodes places.now parts.now case)) }
    ensures proves { IfOk result (λ under. (at : Setting)
        → IsReading at proof.old places.now parts.now
        → ProvesBranch at proof.old places.now parts.now branch.now
        → ProvesBranch (assuming under.0 at) proof.new places.now parts.now under.1) }
{
    let mut under = branch.copy(alloc)?;
    match case {
        Case::Part(part) => {
            let leaf = infer_leaf(proof, parts[part].claim)?;
            under.assume(alloc, parts, places, proof, part, leaf)?;
            Ok((leaf, under))
        }
        Case::AtMost(low, high) => {
            let claim = Claim::AtMost(places.point(low), places.point(high));
            let leaf = infer_leaf(proof, claim)?;
            under.compare(parts, places, proof, low, high, leaf)?;
            Ok((leaf, under))
        }
    }
}

/// Closes the splits that a proved branch ends, up to the first whose right branch is to be
/// searched.
///
/// A left branch whose proof doesn't lead to its assumption proves the whole of its split.
fn resume(
    alloc: Global,
    parts: &[Part],
    places: &Places,
    proof: &mut Proof,
    splits: &mut Vec<Split>,
    goal: usize,
    found: u64,
) -> Result<Resumed, OutOfMemory>
    requires goal { goal < length parts.now }
    requires parts { AreParts places.now.count parts.now }
    requires splits { All (IsSplit places.now.count parts.now) splits.old.items }
    ensures branch { IfOk result (IsResumed places.now.count parts.now) }
    ensures splits { OnOk result (All (IsSplit places.now.count parts.now) splits.new.items) }
    ensures refines { IfOk result (λ resumed. (start : Branch)
        → All (Leads places.now.count parts.now start) splits.old.items
        → ResumedRefines places.now.count parts.now resumed start) }
    ensures leads { OnOk result ((start : Branch)
        → All (Leads places.now.count parts.now start) splits.old.items
        → All (Leads places.now.count parts.now start) splits.new.items) }
    ensures extends { OnOk result (Extends proof.old proof.new) }
    ensures proves { IfOk result (λ resumed. (at : Setting)
        → IsReading at proof.old places.now parts.now
        → ProvesSplits at proof.old places.now parts.now goal splits.old.items
        → Shows (within at splits.old.items) proof.old found (tope_at at.nodes parts.now goal)
        → ProvesResumed at proof.new places.now parts.now goal splits.new.items resumed) }
{
    let mut step = found;
    while let Some(split) = splits.pop() {
        match split.stage {
            Stage::Left => {
                let needs = proof.leads_to(alloc, step, split.leaf)?;
                if needs {
                    let right = begin_right(alloc, parts, places, proof, splits, split, step)?;
                    return Ok(right);
                }
            }
            Stage::Right(before, first) => {
                let (cover, right) = (split.fork.cover, (split.leaf, step));
                step = join(proof, cover, (before, first), right, parts[goal].claim)?;
            }
        }
    }
    Ok(Resumed::Done(step))
}

/// What follows in both cases of a disjunction: on each side its assumption, and what was inferred
/// under it.
fn join(
    proof: &mut Proof,
    cover: u64,
    left: (u64, u64),
    right: (u64, u64),
    claim: Claim,
) -> Result<u64, OutOfMemory>
    ensures extends { OnOk result (Extends proof.old proof.new) }
    ensures shows { IfOk result (λ step. (at : Setting) (p q : Tree)
        → IsClaim at.nodes at.context claim
        → Shows at proof.old cover (disjunction p q)
        → Assumes at proof.old left.0 p → Assumes at proof.old right.0 q
        → Shows (assuming left.0 at) proof.old left.1 (tope_of at.nodes claim)
        → Shows (assuming right.0 at) proof.old right.1 (tope_of at.nodes claim)
        → Shows at proof.new step (tope_of at.nodes claim)) }
{
    let step = proof.infer(Reason::Cases { cover, left, right }, claim)?;
    Ok(step)
}

/// Goes on with the right branch of a split whose left one is proved.
fn begin_right(
    alloc: Global,
    parts: &[Part],
    places: &Places,
    proof: &mut Proof,
    splits: &mut Vec<Split>,
    split: Split,
    step: u64,
) -> Result<Resumed, OutOfMemory>
    requires parts { AreParts places.now.count parts.now }
    requires split { IsSplit places.now.count parts.now split }
    ensures branch { IfOk result (IsResumed places.now.count parts.now) }
    ensures splits { OnOk result (All (IsSplit places.now.count parts.now) splits.old.items
        → All (IsSplit places.now.count parts.now) splits.new.items) }
    ensures refines { IfOk result (λ resumed. (start : Branch)
        → Leads places.now.count parts.now start split
        → ResumedRefines places.now.count parts.now resumed start) }
    ensures leads { OnOk result ((start : Branch)
        → Leads places.now.count parts.now start split
        → All (Leads places.now.count parts.now start) splits.old.items
        → All (Leads places.now.count parts.now start) splits.new.items) }
    ensures extends { OnOk result (Extends proof.old proof.new) }
    ensures proves { IfOk result (λ resumed. (at : Setting) (goal : ℕ)
        → IsReading at proof.old places.now parts.now
        → ProvesSplits at proof.old places.now parts.now goal splits.old.items
        → let inner = within at splits.old.items in
        ProvesSplit inner proof.old places.now parts.now goal split
        → Assumes inner proof.old split.leaf
        (case_tope at.nodes places.now parts.now split.fork.left)
        → Shows (assuming split.leaf inner) proof.old step (tope_at at.nodes parts.now goal)
        → ProvesResumed at proof.new places.now parts.now goal splits.new.items resumed) }
{
    let fork = split.fork;
    let (leaf, right) = branch_under(alloc, parts, places, proof, &split.branch, fork.right)?;
    splits.push(Split {
        fork,
        leaf,
        branch: split.branch,
        stage: Stage::Right(split.leaf, step),
    })?;
    Ok(Resumed::Branch(right))
}

/// What comes next in a branch.
fn next_step(
    alloc: Global,
    parts: &[Part],
    places: &Places,
    proof: &mut Proof,
    branch: &Branch,
    goal: usize,
) -> Result<Next, OutOfMemory>
    requires goal { goal < length parts.now }
    requires parts { AreParts places.now.count parts.now }
    requires branch { IsBranch places.now.count parts.now branch.now }
    ensures next { IfOk result (IsNext places.now.count parts.now branch.now goal) }
    ensures extends { OnOk result (Extends proof.old proof.new) }
    ensures proves { IfOk result (λ next. (at : Setting)
        → IsReading at proof.old places.now parts.now
        → ProvesBranch at proof.old places.now parts.now branch.now
        → ProvesNext at proof.new parts.now goal next) }
{
    let claim = parts[goal].claim;
    if let Some(step) = branch.infer_anything(places, proof, claim)? {
        return Ok(Next::Proved(step));
    }
    let list = statuses(alloc, parts, places, &branch.table)?;
    if list[goal].holds {
        let step = derive(alloc, parts, places, proof, &branch.table, &list, goal)?;
        return Ok(Next::Proved(step));
    }
    if let Some(place) = undecided(parts, branch, &list) {
        return Ok(Next::Taken(place));
    }
    if list[goal].decided {
        return Ok(Next::Refuted);
    }
    let (low, high) = open_pair(parts, places, &list, goal);
    Ok(Next::Compared(low, high))
}

/// Where the first disjunction waits of which no side follows.
fn undecided(parts: &[Part], branch: &Branch, list: &[Status]) -> Option<usize>
    requires list { length list.now ≡ length parts.now }
    requires waiting { All (IsWaitingFor parts.now) branch.now.waiting.items }
    ensures place { IfSome result (λ place. place < length branch.now.waiting.items) }
    ensures none { IfNone result
        (All (IsTrueWaiting (holds_in list.now)) branch.now.waiting.items) }
{
    let _ = parts;
    for (place, waiting) in branch.waiting.iter().enumerate() {
        if !list[waiting.sides.0].holds && !list[waiting.sides.1].holds {
            return Some(place);
        }
    }
    None
}

/// Infers a part that holds by a table.
fn derive(
    alloc: Global,
    parts: &[Part],
    places: &Places,
    proof: &mut Proof,
    table: &Table,
    list: &[Status],
    goal: usize,
) -> Result<u64, OutOfMemory>
    requires goal { goal < length parts.now }
    requires parts { AreParts places.now.count parts.now }
    requires list { AreStatuses (order_of table.now) parts.now list.now }
    requires holds { holds_in list.now goal ≡ true }
    ensures extends { OnOk result (Extends proof.old proof.new) }
    ensures shows { IfOk result (λ step. (at : Setting)
        → IsReading at proof.old places.now parts.now
        → ProvesTable at proof.old places.now table.now
        → Shows at proof.new step (tope_at at.nodes parts.now goal)) }
{
    let asked = asked_parts(alloc, parts, places, list, goal)?;
    let mut steps = Vec::new(alloc);
    for part in 0..asked.len() {
        let step = derive_asked(places, proof, table, &steps, parts[part], asked[part])?;
        steps.push(step)?;
    }
    match steps[goal] {
        Some(step) => Ok(step),
        None => unreachable!(),
    }
}

/// Infers a part from a table and from the inferences of the parts that it is made of, where it is
/// asked for.
fn derive_asked(
    places: &Places,
    proof: &mut Proof,
    table: &Table,
    steps: &[Option<u64>],
    part: Part,
    is_asked: bool,
) -> Result<Option<u64>, OutOfMemory>
    requires { IsMadeOf (length steps.now) places.now.count part.form }
    ensures there { IfOk result (λ step. is_some step
        ≡ (is_asked && value_over (order_of table.now) (has_step steps.now) part.form)) }
    ensures extends { OnOk result (Extends proof.old proof.new) }
    ensures shows { IfOk result (λ step. (at : Setting) (parts : List Part)
        → IsPlaces at.nodes at.context places.now
        → IsRead at.nodes at.context places.now proof.old parts part
        → ProvesTable at proof.old places.now table.now
        → ProvesSteps at proof.old parts steps.now
        → IfSome step (λ s. Shows at proof.new s (tope_of at.nodes part.claim))) }
{
    if !is_asked {
        return Ok(None);
    }
    let step = derive_part(places, proof, table, steps, part)?;
    Ok(step)
}
