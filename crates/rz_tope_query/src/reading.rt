//! From a text to a question of a world: names, a context, and a tope over it.

ghost use Rattle.std.specs.Prelude.{◌≡◌, true, IfOk, IfSome, IfNone};
ghost use Rattle.rz_log.specs.World.{Grows, IsSound};
ghost use Rattle.rz_tope_query.specs.Sequent.{IsNoSequent, are_distinct, names_of, question_of};
ghost use Rattle.rz_tope_query.specs.Decision.{IsAsked};
ghost use Rattle.rz_tope_query.specs.Parts.{HasAsked, IsNoReading};

use crate::contexts::cube_context;
use crate::names::{bound_forms, places, sequent_names};
use crate::sequent::Question;
use crate::text::raw_sequent;
use crate::topes::{Asked, Reader};
use rz_log::World;
use rz_rules::{Name, OutOfMemory};
use rz_syntax::RawSequent;
use std::alloc::Global;

/// The context and the goal of a sequent with these names; `None` where a name stands twice, a cube
/// is none, or a tope is none over the names.
fn ask(
    alloc: Global,
    w: &mut World,
    names: &[Name],
    raw: RawSequent,
) -> Result<Option<Asked>, OutOfMemory>
    requires sound { IsSound w.old }
    requires names { names.now ≡ names_of raw.names }
    ensures distinct { IfOk result (λ found. IfSome found
        (λ _. are_distinct (names_of raw.names) ≡ true)) }
    ensures asked { IfOk result (λ found. IfSome found (HasAsked w.new (question_of raw))) }
    ensures none { IfOk result (λ found. IfNone found
        (are_distinct (names_of raw.names) ≡ true → IsNoReading (question_of raw))) }
    ensures grows { Grows w.old w.new }
{
    let Some(places) = places(alloc, w.pool.hash_key(), names)? else {
        return Ok(None);
    };
    let Some(opened) = cube_context(alloc, w, raw.forms.as_slice(), raw.names.as_slice())? else {
        return Ok(None);
    };
    let forms = bound_forms(alloc, &places, raw.forms)?;
    let reader = Reader::new(alloc, &w.pool, opened.0, names, forms)?;
    let asked = reader.ask(alloc, w, opened, raw.hypotheses.as_slice(), raw.goal)?;
    Ok(asked)
}

/// The question of the sequent that a text says; `None` where it says none: where it has a bad
/// token, its tokens are no sequent of the grammar or nest too deep, a name stands twice, a cube is
/// none or has more than 64 leaves, or a tope is none over the names.
pub fn question(alloc: Global, w: &mut World, text: &str) -> Result<Option<Question>, OutOfMemory>
    requires { IsSound w.old }
    ensures asked { IfOk result (λ found. IfSome found (IsAsked text.now w.new)) }
    ensures none { IfOk result (λ found. IfNone found (IsNoSequent text.now)) }
    ensures grows { Grows w.old w.new }
{
    rz_syntax::one_sequent();
    let Some(raw) = raw_sequent(alloc, text)? else {
        return Ok(None);
    };
    let names = sequent_names(alloc, raw.names.as_slice())?;
    let Some(asked) = ask(alloc, w, names.as_slice(), raw)? else {
        return Ok(None);
    };
    Ok(Some(Question {
        names,
        context: asked.context,
        at: asked.at,
        goal: asked.goal,
    }))
}
