//! What is answered of the sequent that a text says.

ghost use Rattle.std.specs.Prelude.{◌≡◌, ℕ, ◌<◌, ◌∷◌, [], List, length, codes, IfOk, IfSome, IfNone};
ghost use Rattle.rz_rules.specs.File.{IsFile, statement_at};
ghost use Rattle.rz_log.specs.World.{IsSound, statements_in};
ghost use Rattle.rz_export.specs.Needs.{HasNothingInVain};
ghost use Rattle.rz_tope_query.specs.Sequent.{IsNoSequent};
ghost use Rattle.rz_tope_query.specs.Decision.{IsAsked, IsDecided, IsDecisionOf, IsLean};
ghost use Rattle.rz_tope_query.specs.Decision.{sequent_at};

use crate::reading::question;
use crate::sequent::Question;
use rz_drv::encode;
use rz_export::{Claimed, export};
use rz_log::{Entail, Entailed, World};
use rz_rules::{Bytes, Items, Name, OutOfMemory, Ranks};
use rz_solver::Solver;
use std::alloc::Global;

/// What is answered of a sequent.
#[derive(Debug, Drop)]
pub enum Decision {
    /// It holds: a derivation file with the one claim `tope`, which says that the goal holds in the
    /// context.
    Yes(Bytes),
    /// It doesn't hold. With these ranks of the coordinates that occur, in the order of their first
    /// occurrence, the hypotheses are true and the goal is false. A coordinate names its variable
    /// by its index, which counts the names behind it.
    No { names: Items<Name>, ranks: Ranks },
    /// More than eight coordinates occur: so many. Nothing is said of the sequent.
    Silent(u64),
}

/// The bytes of the file with the one claim `tope`, which says what a step says.
fn file_of_step(alloc: Global, w: &World, step: u64) -> Result<Bytes, OutOfMemory>
    requires sound { IsSound w.now }
    requires there { step < length w.now.log }
    ensures file { IfOk result (λ bytes. IsFile bytes (record {
      name = codes "tope";
      says = statement_at (statements_in w.now) step;
    } ∷ [])) }
    ensures lean { IfOk result HasNothingInVain }
{
    let name = Name::from_text(alloc, "tope")?;
    let part = export(alloc, w, &[Claimed { name, step }])?;
    encode(alloc, &part)
}

/// The decision of a question of a world.
fn decision_of(alloc: Global, mut w: World, question: Question) -> Result<Decision, OutOfMemory>
    requires sound { IsSound w }
    requires asked { (text : List ℕ) × IsAsked text w question }
    ensures decided { IfOk result (IsDecisionOf (sequent_at w question)) }
    ensures lean { IfOk result IsLean }
{
    let mut solver = Solver::new(alloc);
    let entailed = solver.entail(&mut w, question.at, question.goal)?;
    match entailed {
        Entailed::Yes(step) => {
            let bytes = file_of_step(alloc, &w, step)?;
            Ok(Decision::Yes(bytes))
        }
        Entailed::No(ranks) => Ok(Decision::No {
            names: question.names,
            ranks,
        }),
        Entailed::Silent(count) => Ok(Decision::Silent(count)),
    }
}

/// The decision of the sequent that a text says; `None` where it says none. Nothing stands in the
/// file of a yes in vain.
pub fn decide(alloc: Global, text: &str) -> Result<Option<Decision>, OutOfMemory>
    ensures decided { IfOk result (λ found. IfSome found (IsDecided text.now)) }
    ensures lean { IfOk result (λ found. IfSome found IsLean) }
    ensures none { IfOk result (λ found. IfNone found (IsNoSequent text.now)) }
{
    let mut w = World::new(alloc);
    let Some(question) = question(alloc, &mut w, text)? else {
        return Ok(None);
    };
    let decision = decision_of(alloc, w, question)?;
    Ok(Some(decision))
}
