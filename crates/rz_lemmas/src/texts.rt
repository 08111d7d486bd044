//! Lines by rows whose rule is a text.

ghost use Rattle.std.specs.Prelude.{◌≡◌, ◌∷◌, ◌++◌, [], Some, All, map, slice_get, IfOk};
ghost use Rattle.rz_rules.specs.declared.rows.Scheme.TheVariants.{Text};
ghost use Rattle.rz_rules.specs.Derivation.{IsMet};
ghost use Rattle.rz_rules.specs.Judgment.{statement};
ghost use Rattle.rz_rules.specs.Table.{rule_of};
ghost use Rattle.rz_rules.specs.Tree.{trees_in};
ghost use Rattle.rz_pool.specs.Pool.{Grows, IsPool};
ghost use Rattle.rz_rule_text.specs.Spelling.{IsJudgmentOver};
ghost use Rattle.rz_log.specs.World as world;
ghost use Rattle.rz_log.specs.World.{IsSound, Says, statements_in};
ghost use Rattle.rz_lemmas.specs.Letters.{StandFor, letters_at};
ghost use Rattle.rz_lemmas.specs.Conclude.{conclusion_of, conclusion_is_scoped, judgments_at, premises_of};

use crate::letters::place;
use rz_log::World;
use rz_pool::Pool;
use rz_rule_text::spell;
use rz_rules::{Judgment, Line, Numbers, OutOfMemory, Row};
use std::alloc::Global;

/// A step that says the conclusion of a row, where its letters stand for the trees of these ids, in the order of the letters'
/// numbers, and its name is that of a node. The steps of the list say its premises, in the row's order.
///
/// Where a step says so already, it is that step. An index that would reach 2^32 counts as want of memory.
pub fn conclude(
    alloc: Global,
    w: &mut World,
    row: Row,
    letters: &[u64],
    name: Option<u64>,
    premises: &[u64],
) -> Result<u64, OutOfMemory>
    requires sound { IsSound w.old }
    requires text { (rule_of row).scheme ≡ Text }
    requires letters { StandFor w.old.pool.nodes row letters.now name }
    requires premises { map (slice_get (statements_in w.old)) premises.now
        ≡ map (λ says. Some says) (premises_of w.old.pool.nodes row letters.now name) }
    requires conditions { All (IsMet (letters_at w.old.pool.nodes row letters.now name))
        (rule_of row).conditions }
    requires scoped { conclusion_is_scoped w.old.pool.nodes row letters.now name }
    ensures says { IfOk result (λ step. Says w.new step
        (conclusion_of w.old.pool.nodes row letters.now name)) }
    ensures grows { world.Grows w.old w.new }
{
    let says = conclusion(alloc, &mut w.pool, row, letters, name)?;
    let from = Numbers::from_slice(alloc, premises)?;
    let step = w.add(Line {
        row,
        number: 0,
        says,
        from,
    })?;
    Ok(step)
}

/// The conclusion of a row, where its letters stand for the trees of these ids.
fn conclusion(
    alloc: Global,
    pool: &mut Pool,
    row: Row,
    letters: &[u64],
    name: Option<u64>,
) -> Result<Judgment, OutOfMemory>
    requires pool { IsPool pool.old.nodes }
    requires text { (rule_of row).scheme ≡ Text }
    requires letters { StandFor pool.old.nodes row letters.now name }
    ensures says { IfOk result (λ says. judgments_at pool.old.nodes row letters.now name
        ≡ premises_of pool.old.nodes row letters.now name
        ++ statement (trees_in pool.new.nodes) says ∷ []) }
    ensures over { IfOk result (IsJudgmentOver pool.new.nodes) }
    ensures grows { Grows pool.old.nodes pool.new.nodes }
    ensures pool { IsPool pool.new.nodes }
{
    let slots = place(alloc, row.text(), letters)?;
    let Some(mut said) = spell(alloc, pool, row.text(), &slots, name)? else {
        return Err(OutOfMemory);
    };
    let Some(says) = said.pop() else {
        unreachable!();
    };
    Ok(says)
}
