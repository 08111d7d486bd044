//! The words of a line as a step.

ghost use Rattle.std.specs.Prelude.{◌≡◌, ◌≢◌, ℕ, ◌∷◌, ◌++◌, List, IfOk, IfSome, IfNone, codes};
ghost use Rattle.rz_rules.specs.Judgment.{kind_of, ids_of};
ghost use Rattle.rz_drv.specs.Items.{AreSmall};
ghost use Rattle.rz_drv.specs.Words.{words_in, SpellsStep, NoStepSpells, IsLineOf, HasWords, NoneHas};

use crate::items::Item;
use crate::numbers::{number_of, numbers_of};
use rz_rules::{Judgment, JudgmentKind, Line, Numbers, OutOfMemory, Row, Worded};
use std::alloc::Global;

/// What the words of a step spell.
#[derive(Drop)]
pub struct StepParts {
    pub row: Row,
    pub number: u64,
    pub kind: JudgmentKind,
    /// The judgment's context and parts, and the premises.
    pub numbers: Vec<u64>,
}

/// The step that words are, behind the first.
pub fn step_of(alloc: Global, words: &[&[u8]]) -> Result<Option<Item>, OutOfMemory>
    ensures found { IfOk result (λ answer. IfSome answer
        (HasWords (codes "s" ∷ words_in words.now))) }
    ensures none { IfOk result (λ answer. IfNone answer
        (NoneHas (codes "s" ∷ words_in words.now))) }
{
    let Some(parts) = step_parts(alloc, words)? else {
        return Ok(None);
    };
    match line_from(alloc, &parts)? {
        Some(line) => Ok(Some(Item::Step(line))),
        None => Ok(None),
    }
}

/// What these words spell as those of a step, behind the first.
fn step_parts(alloc: Global, words: &[&[u8]]) -> Result<Option<StepParts>, OutOfMemory>
    ensures found { IfOk result (λ answer. IfSome answer (SpellsStep (words_in words.now))) }
    ensures none { IfOk result (λ answer. IfNone answer (NoStepSpells (words_in words.now))) }
{
    let [row, number, kind, rest @ ..] = words else {
        return Ok(None);
    };
    let (Some(row), Some(number), Some(kind)) = (
        Row::of_word(row),
        number_of(number),
        JudgmentKind::of_word(kind),
    ) else {
        return Ok(None);
    };
    match numbers_of(alloc, rest)? {
        Some(numbers) => Ok(Some(StepParts {
            row,
            number,
            kind,
            numbers,
        })),
        None => Ok(None),
    }
}

/// The step of these parts, where its number is below 2^32 and there are enough numbers for the judgment.
fn line_from(alloc: Global, parts: &StepParts) -> Result<Option<Line>, OutOfMemory>
    requires { AreSmall parts.now.numbers.items }
    ensures found { IfOk result (λ answer. IfSome answer (IsLineOf parts.now)) }
    ensures none { IfOk result
        (λ answer. IfNone answer ((line : Line) → IsLineOf parts.now line → ⊥)) }
{
    let count = parts.kind.parts().len() + 1;
    if parts.number >= 1 << 32 || parts.numbers.len() < count {
        return Ok(None);
    }
    let (ids, from) = parts.numbers.split_at(count);
    let Some(says) = judgment_of(parts.kind, ids) else {
        return Ok(None);
    };
    Ok(Some(Line {
        row: parts.row,
        number: parts.number,
        says,
        from: Numbers::from_slice(alloc, from)?,
    }))
}

/// The judgment of a kind with these nodes as its context and its parts; `None` where their number is another.
fn judgment_of(kind: JudgmentKind, ids: &[u64]) -> Option<Judgment>
    ensures kind { IfSome result (λ says. kind_of says ≡ kind) }
    ensures ids { IfSome result (λ says. ids_of says ≡ ids.now) }
    ensures only { (says : Judgment) → kind_of says ≡ kind → ids_of says ≡ ids.now
        → result ≡ Some says }
{
    let (context, parts) = ids.split_first()?;
    Judgment::of(kind, *context, parts)
}
