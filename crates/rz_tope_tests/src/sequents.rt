//! Sequents as texts: the entries of a context, and a tope over it, in the words of the node table.

ghost use Rattle.std.specs.Prelude.{◌≡◌, ◌<◌, List, length, All, IfOk, IfSome, OnOk, IsTrue};
ghost use Rattle.rz_rules.specs.Cube.{binders_of};
ghost use Rattle.rz_rules.specs.File.{Claim, IsFile};
ghost use Rattle.rz_rules.specs.Structural.{formed};
ghost use Rattle.rz_rules.specs.Tope.{IsTopeOver};
ghost use Rattle.rz_rules.specs.Tree.{tree_of};
ghost use Rattle.rz_pool.specs.Pool.{IsPool};
ghost use Rattle.rz_pool.specs.Pool as pool_is;
ghost use Rattle.rz_log.specs.World.{Grows, IsSound, Says};
ghost use Rattle.rz_tope_tests.specs.Sequent.{IsAnswered, IsAsked, IsQuestion, IsStepOf};

use crate::bench::{Bench, ClaimRow};
use rz_context::Knowledge;
use rz_cube::{CubeFault, leaves};
use rz_log::{Entail, Entailed, World};
use rz_pool::Pool;
use rz_rules::{Bytes, OutOfMemory, Ranks, Sort};
use rz_solver::{Solver, empty_context, with_cube, with_tope};
use rz_tope::truth;
use rz_tree_tests::read;
use std::alloc::Global;

/// The context with an entry more, a cube or a tope, and a step that says that it is formed; `None`
/// where the text is no such entry of it.
fn with_entry_of(
    alloc: Global,
    w: &mut World,
    question: (u64, u64),
    text: &str,
) -> Result<Option<(u64, u64)>, OutOfMemory>
    requires sound { IsSound w.old }
    requires question { IsQuestion w.old question }
    ensures question { IfOk result (λ new. IfSome new (IsQuestion w.new)) }
    ensures grows { Grows w.old w.new }
{
    let (context, step) = question;
    let Some(id) = read(alloc, &mut w.pool, text)? else {
        return Ok(None);
    };
    match w.pool.node(id).kind.form().sort {
        Sort::Cube => match leaves(alloc, &w.pool, id) {
            Ok(_) => {
                let new = with_cube(alloc, w, context, step, id)?;
                Ok(Some(new))
            }
            Err(CubeFault::OutOfMemory) => Err(OutOfMemory),
            Err(_) => Ok(None),
        },
        _ => {
            let new = with_tope_over(alloc, w, question, id)?;
            Ok(new)
        }
    }
}

/// The context with a tope more, and a step that says that it is formed; `None` where the tree is no
/// tope over it.
fn with_tope_over(
    alloc: Global,
    w: &mut World,
    question: (u64, u64),
    id: u64,
) -> Result<Option<(u64, u64)>, OutOfMemory>
    requires sound { IsSound w.old }
    requires question { IsQuestion w.old question }
    requires live { id < length w.old.pool.nodes }
    ensures question { IfOk result (λ new. IfSome new (IsQuestion w.new)) }
    ensures grows { Grows w.old w.new }
{
    let (context, step) = question;
    let over = is_over(alloc, &mut w.pool, context, id)?;
    if !over {
        return Ok(None);
    }
    let new = with_tope(alloc, w, context, step, id)?;
    Ok(Some(new))
}

/// Whether a tope is over a context.
fn is_over(alloc: Global, pool: &mut Pool, context: u64, tope: u64) -> Result<bool, OutOfMemory>
    requires context { context < length pool.old.nodes }
    requires tope { tope < length pool.old.nodes }
    ensures over { IfOk result (λ yes. IsTrue yes → IsTopeOver
        (binders_of (tree_of pool.new.nodes context)) (tree_of pool.new.nodes tope)) }
    ensures grows { pool_is.Grows pool.old.nodes pool.new.nodes }
    ensures pool { IsPool pool.new.nodes }
{
    let _ = pool.len();
    let mut known = Knowledge::new(alloc, pool);
    let answer = known.is_over(alloc, pool, context, tope);
    let _ = pool.len();
    let yes = answer?;
    Ok(yes)
}

/// A context with these entries, the outermost first, and a step that says that it is formed; `None`
/// where a text is no cube or tope over what stands before it.
fn context_of(
    alloc: Global,
    w: &mut World,
    entries: &[&str],
) -> Result<Option<(u64, u64)>, OutOfMemory>
    requires { IsSound w.old }
    ensures question { IfOk result (λ found. IfSome found (IsQuestion w.new)) }
    ensures grows { Grows w.old w.new }
{
    let mut question = empty_context(alloc, w)?;
    for text in entries {
        let Some(longer) = with_entry_of(alloc, w, question, text)? else {
            return Ok(None);
        };
        question = longer;
    }
    Ok(Some(question))
}

/// A context, a step that says that it is formed, and a tope over it.
#[derive(Clone, Copy)]
pub struct Question {
    pub context: u64,
    pub at: u64,
    pub tope: u64,
}

/// The question of a sequent; `None` where the texts are none.
fn question_of(
    alloc: Global,
    w: &mut World,
    entries: &[&str],
    tope: &str,
) -> Result<Option<Question>, OutOfMemory>
    requires { IsSound w.old }
    ensures question { IfOk result (λ found. IfSome found (IsAsked w.new)) }
    ensures grows { Grows w.old w.new }
{
    let Some(context) = context_of(alloc, w, entries)? else {
        return Ok(None);
    };
    let asked = tope_of(alloc, w, context, tope)?;
    Ok(asked)
}

/// The question whether a tope follows in a context; `None` where the text is no tope over it.
fn tope_of(
    alloc: Global,
    w: &mut World,
    question: (u64, u64),
    text: &str,
) -> Result<Option<Question>, OutOfMemory>
    requires sound { IsSound w.old }
    requires question { IsQuestion w.old question }
    ensures question { IfOk result (λ found. IfSome found (IsAsked w.new)) }
    ensures grows { Grows w.old w.new }
{
    let (context, at) = question;
    let Some(tope) = read(alloc, &mut w.pool, text)? else {
        return Ok(None);
    };
    let over = is_over(alloc, &mut w.pool, context, tope)?;
    if !over {
        return Ok(None);
    }
    Ok(Some(Question { context, at, tope }))
}

/// The answer to a sequent, and its question; `None` where the texts are no sequent.
pub fn ask(
    alloc: Global,
    w: &mut World,
    entries: &[&str],
    tope: &str,
) -> Result<Option<(Question, Entailed)>, OutOfMemory>
    requires { IsSound w.old }
    ensures answer { IfOk result (λ found. IfSome found (λ pair. IsAnswered w.new pair.0 pair.1)) }
    ensures step { IfOk result (λ found. IfSome found (λ pair. IsStepOf w.new pair.1)) }
    ensures context { IfOk result (λ found. IfSome found
        (λ pair. pair.0.context < length w.new.pool.nodes)) }
    ensures grows { Grows w.old w.new }
{
    let Some(question) = question_of(alloc, w, entries, tope)? else {
        return Ok(None);
    };
    let mut solver = Solver::new(alloc);
    let entailed = solver.entail(w, question.at, question.tope)?;
    Ok(Some((question, entailed)))
}

/// The file with the one claim `tope`, which says what a step says.
pub fn file_of_step(alloc: Global, w: World, step: u64) -> Result<Option<Bytes>, OutOfMemory>
    requires sound { IsSound w }
    requires there { step < length w.log }
    ensures { IfOk result (λ file. IfSome file
        (λ bytes. (claims : List Claim) × IsFile bytes claims)) }
{
    let mut steps = Vec::new(alloc);
    steps.push(step)?;
    let bench = Bench {
        w,
        ids: Vec::new(alloc),
        steps,
    };
    let file = bench.file(alloc, TOPE_CLAIMS)?;
    Ok(file)
}

/// The one claim of a derivation of a tope.
const TOPE_CLAIMS: &[ClaimRow] = &[("tope", 0)];

/// Whether an entry of a sequent is true at these ranks; `None` where it is no tope.
pub fn truth_of(
    alloc: Global,
    w: &mut World,
    context: u64,
    text: &str,
    ranks: &Ranks,
) -> Result<Option<bool>, OutOfMemory>
    requires { context < length w.old.pool.nodes }
    ensures { context < length w.new.pool.nodes }
{
    let Some(id) = read(alloc, &mut w.pool, text)? else {
        return Ok(None);
    };
    match w.pool.node(id).kind.form().sort {
        Sort::Tope => {
            let answer = truth(alloc, &mut w.pool, context, id, ranks)?;
            Ok(Some(answer))
        }
        _ => Ok(None),
    }
}
