//! Lines for a proof.
//!
//! An inference is said in a context to which the assumptions are added that are open where it is
//! used. What a context says already is found in the log, so an inference that is used twice in a
//! context is said once.

ghost use Rattle.std.specs.Prelude.{◌≡◌, ◌∷◌, ◌+◌, ◌<◌, ℕ, [], length, Contains, Some, slice_get, IfOk, IfSome, OnOk};
ghost use Rattle.std.specs.List.{slice_index_or};
ghost use Rattle.rz_rules.specs.declared.kinds.Sort.TheVariants.{Context};
ghost use Rattle.rz_rules.specs.Derivation.{Follows};
ghost use Rattle.rz_rules.specs.Structural.{formed, holds};
ghost use Rattle.rz_rules.specs.Tree.{IsTree, Tree, tree_of};
ghost use Rattle.rz_tope_proof.specs.declared.proof.Reason.TheVariants as reason;
ghost use Rattle.rz_tope_proof.specs.Claim.{IsClaim, tope_of};
ghost use Rattle.rz_tope_proof.specs.Proving.{Proves};
ghost use Rattle.rz_log.specs.declared.world.World.{World};
ghost use Rattle.rz_log.specs.World.{Grows, IsSound, Says, context_at, statements_in};
ghost use Rattle.rz_lemmas.specs.Moves.{HasTope, hypothesis_of};
ghost use Rattle.rz_solver.specs.Writing.{Setting, IsJob, IsOutcome, IsPlace, IsProved, IsSaid, IsSide, IsTask, IsWriting, inference_at};

use crate::contexts::with_tope;
use crate::lines::{add_holds, find_claim};
use crate::topes::tope;
use rz_lemmas::hypothesis;
use rz_log::World;
use rz_rules::{OutOfMemory, Row};
use rz_tope_proof::{Claim, Inference, Proof, Reason};
use std::alloc::Global;

/// A context to which assumptions of a proof are added.
#[derive(Drop)]
pub(crate) struct Place {
    /// The context, a node.
    pub context: u64,
    /// A step that says that it is formed.
    pub formed: u64,
    /// The assumptions, inferences of the proof, the innermost first.
    pub assumed: Vec<u64>,
}

/// An inference that is to be said at a place.
#[derive(Clone, Copy)]
pub(crate) struct Task {
    /// The number of the place.
    pub place: usize,
    pub inference: u64,
}

/// What comes of an inference that is to be said at a place.
#[derive(Drop)]
pub(crate) enum Outcome {
    /// A step says it.
    Said(u64),
    /// This inference has to be said before, at the same place.
    Needs(u64),
    /// This inference has to be said before, at a new place.
    NeedsUnder(Place, u64),
}

/// A step that says the tope of an inference in the context that a step says to be formed.
///
/// What is to be said last stands on top; below all stands the inference itself, which is no task.
/// Memory runs out before the rounds do.
pub(crate) fn write(
    alloc: Global,
    w: &mut World,
    at: u64,
    proof: &Proof,
    goal: u64,
) -> Result<u64, OutOfMemory>
    requires sound { IsSound w.old }
    requires at { Says w.old at (formed (context_at w.old at)) }
    requires proves { (t : Tree)
        × Proves w.old.pool.nodes (context_at w.old at) proof.now [] goal t }
    ensures says { (t : Tree) → Proves w.old.pool.nodes (context_at w.old at) proof.now [] goal t
        → IfOk result (λ step. Says w.new step (holds (context_at w.old at) t)) }
    ensures grows { Grows w.old w.new }
{
    let all = proof.inferences();
    let mut places = Vec::new(alloc);
    places.push(Place {
        context: w.log.line(at).says.context(),
        formed: at,
        assumed: Vec::new(alloc),
    })?;
    let mut tasks: Vec<Task> = Vec::new(alloc);
    for _ in 0..u64::MAX {
        if let Some(step) = go_on(alloc, w, all, &mut places, &mut tasks, goal)? {
            return Ok(step);
        }
    }
    Err(OutOfMemory)
}

/// Goes on with the task on top, or with the inference that stands below all: a step, where that is
/// said.
fn go_on(
    alloc: Global,
    w: &mut World,
    all: &[Inference],
    places: &mut Vec<Place>,
    tasks: &mut Vec<Task>,
    goal: u64,
) -> Result<Option<u64>, OutOfMemory>
    requires { (here : Setting) × (here.all ≡ all.now)
        × IsWriting here w.old places.old.items tasks.old.items × IsProved here [] goal }
    ensures said { (here : Setting) → here.all ≡ all.now
        → IsWriting here w.old places.old.items tasks.old.items → IsProved here [] goal
        → IfOk result (λ found. IfSome found (IsSaid here w.new [] goal)) }
    ensures writing { (here : Setting) → here.all ≡ all.now
        → IsWriting here w.old places.old.items tasks.old.items → IsProved here [] goal
        → OnOk result (IsWriting here w.new places.new.items tasks.new.items) }
    ensures grows { Grows w.old w.new }
{
    match tasks.pop() {
        None => match say(alloc, w, all, &places.as_slice()[0], goal)? {
            Outcome::Said(step) => Ok(Some(step)),
            other => {
                let root = Task {
                    place: 0,
                    inference: goal,
                };
                follow(places, tasks, root, other)?;
                Ok(None)
            }
        },
        Some(task) => {
            let place = &places.as_slice()[task.place];
            let outcome = say(alloc, w, all, place, task.inference)?;
            follow(places, tasks, task, outcome)?;
            Ok(None)
        }
    }
}

/// Adds what has to be said for a task, and the task behind it.
fn follow(
    places: &mut Vec<Place>,
    tasks: &mut Vec<Task>,
    task: Task,
    outcome: Outcome,
) -> Result<(), OutOfMemory>
    ensures { (here : Setting) (w : World) → IsWriting here w places.old.items tasks.old.items
        → (is : IsTask here places.old.items task)
        → IsOutcome here w is.place.assumed.items task.inference outcome
        → OnOk result (IsWriting here w places.new.items tasks.new.items) }
{
    match outcome {
        Outcome::Said(_) => {}
        Outcome::Needs(inference) => {
            tasks.push(task)?;
            tasks.push(Task {
                place: task.place,
                inference,
            })?;
        }
        Outcome::NeedsUnder(inner, inference) => {
            let place = places.as_slice().len();
            places.push(inner)?;
            tasks.push(task)?;
            tasks.push(Task { place, inference })?;
        }
    }
    Ok(())
}

/// Says an inference at a place, or tells what has to be said before.
fn say(
    alloc: Global,
    w: &mut World,
    all: &[Inference],
    place: &Place,
    i: u64,
) -> Result<Outcome, OutOfMemory>
    requires job { (here : Setting) × (here.all ≡ all.now) × IsJob here w.old place.now i }
    ensures outcome { (here : Setting) → here.all ≡ all.now → IsJob here w.old place.now i
        → IfOk result (IsOutcome here w.new place.now.assumed.items i) }
    ensures grows { Grows w.old w.new }
{
    let inference = all[i as usize];
    let claim = inference.claim;
    match inference.reason {
        Reason::Hypothesis(number) => {
            let step = say_given(alloc, w, place, number)?;
            Ok(Outcome::Said(step))
        }
        Reason::Assumption => {
            let number = position(place.assumed.as_slice(), i);
            let step = hypothesis(alloc, w, place.formed, number)?;
            Ok(Outcome::Said(step))
        }
        Reason::Axiom(row) => {
            let step = say_by_row(alloc, w, row, place.context, claim, &[place.formed])?;
            Ok(Outcome::Said(step))
        }
        Reason::One(row, first) => {
            let Some(premise) = find_said(alloc, w, all, place, first)? else {
                return Ok(Outcome::Needs(first));
            };
            let step = say_by_row(alloc, w, row, place.context, claim, &[premise])?;
            Ok(Outcome::Said(step))
        }
        Reason::Two(row, first, second) => {
            let Some(one) = find_said(alloc, w, all, place, first)? else {
                return Ok(Outcome::Needs(first));
            };
            let Some(other) = find_said(alloc, w, all, place, second)? else {
                return Ok(Outcome::Needs(second));
            };
            let step = say_by_row(alloc, w, row, place.context, claim, &[one, other])?;
            Ok(Outcome::Said(step))
        }
        Reason::Cases { cover, left, right } => {
            say_cases(alloc, w, all, place, i, cover, left, right)
        }
    }
}

/// Says what follows in both cases of a disjunction, or tells what has to be said before.
fn say_cases(
    alloc: Global,
    w: &mut World,
    all: &[Inference],
    place: &Place,
    i: u64,
    cover: u64,
    left: (u64, u64),
    right: (u64, u64),
) -> Result<Outcome, OutOfMemory>
    requires reason { (inference_at all.now i).reason ≡ reason.Cases cover left right }
    requires job { (here : Setting) × (here.all ≡ all.now) × IsJob here w.old place.now i }
    ensures outcome { (here : Setting) → here.all ≡ all.now → IsJob here w.old place.now i
        → IfOk result (IsOutcome here w.new place.now.assumed.items i) }
    ensures grows { Grows w.old w.new }
{
    let Some(either) = find_said(alloc, w, all, place, cover)? else {
        return Ok(Outcome::Needs(cover));
    };
    let inner = open_side(alloc, w, all, place, left.0)?;
    let Some(first) = find_said(alloc, w, all, &inner, left.1)? else {
        return Ok(Outcome::NeedsUnder(inner, left.1));
    };
    let inner = open_side(alloc, w, all, place, right.0)?;
    let Some(second) = find_said(alloc, w, all, &inner, right.1)? else {
        return Ok(Outcome::NeedsUnder(inner, right.1));
    };
    let claim = all[i as usize].claim;
    let from = [either, first, second];
    let step = say_by_row(alloc, w, Row::OrElimination, place.context, claim, &from)?;
    Ok(Outcome::Said(step))
}

/// The step that says an inference at a place, where there is one.
fn find_said(
    alloc: Global,
    w: &mut World,
    all: &[Inference],
    place: &Place,
    i: u64,
) -> Result<Option<u64>, OutOfMemory>
    requires job { (here : Setting) × (here.all ≡ all.now) × IsJob here w.old place.now i }
    ensures said { (here : Setting) → here.all ≡ all.now → IsJob here w.old place.now i
        → IfOk result (λ found. IfSome found (IsSaid here w.new place.now.assumed.items i)) }
    ensures grows { Grows w.old w.new }
{
    let (_, found) = find_claim(alloc, w, place.context, all[i as usize].claim)?;
    Ok(found)
}

/// A step that says the tope of an entry of the context without assumptions, behind which so many
/// others stand.
fn say_given(alloc: Global, w: &mut World, place: &Place, number: u64) -> Result<u64, OutOfMemory>
    requires sound { IsSound w.old }
    requires tope { HasTope w.old place.now.formed (number + length place.now.assumed.items) }
    ensures says { (tope : HasTope w.old place.now.formed
        (number + length place.now.assumed.items))
        → IfOk result (λ step. Says w.new step (hypothesis_of w.old place.now.formed
        (number + length place.now.assumed.items) tope)) }
    ensures grows { Grows w.old w.new }
{
    let depth = place.assumed.as_slice().len() as u64;
    let Some(number) = number.checked_add(depth) else {
        return Err(OutOfMemory);
    };
    let step = hypothesis(alloc, w, place.formed, number)?;
    Ok(step)
}

/// The first position of a number in a list that has it.
fn position(list: &[u64], number: u64) -> u64
    requires { Contains list.now number }
    ensures { slice_get list.now result ≡ Some number }
{
    for position in 0..list.len() {
        if list[position] == number {
            return position as u64;
        }
    }
    unreachable!()
}

/// A step that says that a claim's tope holds in a context, by a row from these steps.
fn say_by_row(
    alloc: Global,
    w: &mut World,
    row: Row,
    context: u64,
    claim: Claim,
    from: &[u64],
) -> Result<u64, OutOfMemory>
    requires sound { IsSound w.old }
    requires claim { (base : Tree) × IsTree Context base × IsClaim w.old.pool.nodes base claim }
    requires context { context < length w.old.pool.nodes }
    requires follows { Follows (statements_in w.old)
        (record {
          row = row;
          number = 0;
          says = holds (tree_of w.old.pool.nodes context) (tope_of w.old.pool.nodes claim);
          from = from.now;
        }) }
    ensures says { IfOk result (λ step. Says w.new step
        (holds (tree_of w.old.pool.nodes context) (tope_of w.old.pool.nodes claim))) }
    ensures grows { Grows w.old w.new }
{
    let phi = tope(alloc, &mut w.pool, claim)?;
    let step = add_holds(alloc, w, row, context, phi, from)?;
    Ok(step)
}

/// The place that has an assumption more.
fn open_side(
    alloc: Global,
    w: &mut World,
    all: &[Inference],
    place: &Place,
    assumption: u64,
) -> Result<Place, OutOfMemory>
    requires { (here : Setting) × (here.all ≡ all.now)
        × IsSide here w.old place.now assumption }
    ensures opened { (here : Setting) → here.all ≡ all.now
        → IsSide here w.old place.now assumption → IfOk result (IsPlace here w.new) }
    ensures assumed { IfOk result (λ inner.
        inner.assumed.items ≡ assumption ∷ place.now.assumed.items) }
    ensures grows { Grows w.old w.new }
{
    let phi = tope(alloc, &mut w.pool, all[assumption as usize].claim)?;
    let (context, formed) = with_tope(alloc, w, place.context, place.formed, phi)?;
    let assumed = with_first(alloc, assumption, place.assumed.as_slice())?;
    Ok(Place {
        context,
        formed,
        assumed,
    })
}

/// A list with another number in front.
fn with_first(alloc: Global, first: u64, rest: &[u64]) -> Result<Vec<u64>, OutOfMemory>
    ensures { IfOk result (λ list. list.items ≡ first ∷ rest.now) }
{
    let mut list = Vec::new(alloc);
    list.push(first)?;
    list.extend_from_slice(rest)?;
    Ok(list)
}
