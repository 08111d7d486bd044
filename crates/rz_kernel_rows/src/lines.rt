//! Whether a line follows.

ghost use Rattle.std.specs.Prelude.{◌≡◌, ◌≢◌, ℕ, ◌↔◌, List, None, All, IsTrue, Some, IfOk, IfSome, IfNone, OnOk, map, slice_get};
ghost use Rattle.rz_rules.specs.declared.judgments.Judgment.{Judgment};
ghost use Rattle.rz_rules.specs.Derivation.{Applies, Follows, IsSpelled};
ghost use Rattle.rz_rules.specs.Judgment.{statement};
ghost use Rattle.rz_rules.specs.Row.{IsInstance};
ghost use Rattle.rz_rules.specs.Structural.{ConcludesBy, IsContextOf};
ghost use Rattle.rz_rules.specs.Table.{rule_of};
ghost use Rattle.rz_rules.specs.Tree.{trees_in};
ghost use Rattle.rz_pool.specs.Pool.{Grows, IsPool};
ghost use Rattle.rz_context.specs.Knowledge.{IsKnown};
ghost use Rattle.rz_rule_text.specs.Letters.{assignment_of};
ghost use Rattle.rz_rule_text.specs.Spelling.{AreLetters};
ghost use Rattle.rz_kernel_rows.specs.Line.{IsInstanceOf, IsJudgmentOver, IsLineOver, said, statements_in, statements_of, step_of};
ghost use Rattle.rz_kernel_rows.specs.Move.{IsConclusion, IsConclusionFor};

use crate::conditions::{are_met, is_scoped};
use crate::formers::{inversion, own};
use crate::moves::{remove, weaken};
use crate::variables::{hypothesis, variable};
use rz_context::Knowledge;
use rz_pool::Pool;
use rz_rule_text::{Finding, find, spell};
use rz_rules::{Judgment, Line, OutOfMemory, Row, Scheme};
use std::alloc::Global;

/// Whether a line follows by its row from earlier ones. All name nodes of one pool, by their ids.
///
/// The pool may grow while it works, and has its old nodes again at the end.
pub fn follows(
    alloc: Global,
    pool: &mut Pool,
    lines: &[Line],
    line: &Line,
) -> Result<bool, OutOfMemory>
    requires lines { All (IsLineOver pool.old.nodes) lines.now }
    requires line { IsLineOver pool.old.nodes line.now }
    ensures follows { IfOk result (λ yes. IsTrue yes
        ↔ Follows (statements_of pool.old.nodes lines.now) (step_of pool.old.nodes line.now)) }
    ensures nodes { pool.new.nodes ≡ pool.old.nodes }
{
    let said = judgments_of(alloc, lines)?;
    let mark = pool.mark();
    let mut known = Knowledge::new(alloc, pool);
    let answer = follows_with(alloc, pool, &mut known, &said, line);
    pool.release(mark);
    answer
}

/// What lines say, in their order.
fn judgments_of(alloc: Global, lines: &[Line]) -> Result<Vec<Judgment>, OutOfMemory>
    ensures { IfOk result (λ judgments. judgments.items ≡ said lines.now) }
{
    let mut judgments = Vec::new(alloc);
    for line in lines {
        judgments.push(line.says)?;
    }
    Ok(judgments)
}

/// Whether a line follows by its row from what the earlier lines say, with what was known of the pool's contexts before,
/// and is known then.
///
/// The cubes of points that it makes in the pool stay there.
pub fn follows_with(
    alloc: Global,
    pool: &mut Pool,
    known: &mut Knowledge,
    said: &[Judgment],
    line: &Line,
) -> Result<bool, OutOfMemory>
    requires said { All (IsJudgmentOver pool.old.nodes) said.now }
    requires line { IsLineOver pool.old.nodes line.now }
    requires known { IsKnown pool.old.nodes known.old }
    ensures follows { IfOk result (λ yes. IsTrue yes
        ↔ Follows (statements_in pool.old.nodes said.now) (step_of pool.old.nodes line.now)) }
    ensures known { OnOk result (IsKnown pool.new.nodes known.new) }
    ensures grows { Grows pool.old.nodes pool.new.nodes }
{
    let Some(premises) = premises_of(alloc, said, line.from.as_slice())? else {
        return Ok(false);
    };
    if !applies(alloc, pool, known, line, premises)? {
        return Ok(false);
    }
    is_scoped(alloc, pool, known, line.says)
}

/// Whether a line's rule leads from these premises to what it says.
fn applies(
    alloc: Global,
    pool: &mut Pool,
    known: &mut Knowledge,
    line: &Line,
    premises: Vec<Judgment>,
) -> Result<bool, OutOfMemory>
    requires premises { All (IsJudgmentOver pool.old.nodes) premises.items }
    requires line { IsLineOver pool.old.nodes line.now }
    requires known { IsKnown pool.old.nodes known.old }
    ensures applies { IfOk result (λ yes. IsTrue yes
        ↔ Applies (rule_of line.now.row) line.now.number
        (map (statement (trees_in pool.old.nodes)) premises.items)
        (statement (trees_in pool.old.nodes) line.now.says)) }
    ensures known { OnOk result (IsKnown pool.new.nodes known.new) }
    ensures grows { Grows pool.old.nodes pool.new.nodes }
    ensures pool { IsPool pool.old.nodes }
{
    let mark = pool.mark();
    match line.row.scheme() {
        Scheme::Text => is_spelled_by_row(alloc, pool, known, line, premises),
        scheme => {
            let said = conclusion(alloc, pool, known, scheme, line, &premises);
            pool.release(mark);
            Ok(is_said(said?, line.says))
        }
    }
}

/// Whether the text of a line's row leads from these premises to what it says.
fn is_spelled_by_row(
    alloc: Global,
    pool: &mut Pool,
    known: &mut Knowledge,
    line: &Line,
    mut premises: Vec<Judgment>,
) -> Result<bool, OutOfMemory>
    requires premises { All (IsJudgmentOver pool.old.nodes) premises.items }
    requires line { IsLineOver pool.old.nodes line.now }
    requires known { IsKnown pool.old.nodes known.old }
    ensures spelled { IfOk result (λ yes. IsTrue yes ↔ ((line.now.number ≡ 0)
        × IsSpelled (rule_of line.now.row)
        (map (statement (trees_in pool.old.nodes)) premises.items)
        (statement (trees_in pool.old.nodes) line.now.says))) }
    ensures known { OnOk result (IsKnown pool.new.nodes known.new) }
    ensures grows { Grows pool.old.nodes pool.new.nodes }
{
    if line.number != 0 {
        return Ok(false);
    }
    premises.push(line.says)?;
    is_instance(alloc, pool, known, line.row, &premises)
}

/// Whether there is a judgment and it is this one.
fn is_said(said: Option<Judgment>, says: Judgment) -> bool
    ensures { IsTrue result ↔ (said ≡ Some says) }
{
    match said {
        Some(said) => said == says,
        None => false,
    }
}

/// What a rule with a scheme of its own concludes from these premises for a line; `None` where it concludes nothing.
fn conclusion(
    alloc: Global,
    pool: &mut Pool,
    known: &mut Knowledge,
    scheme: Scheme,
    line: &Line,
    premises: &[Judgment],
) -> Result<Option<Judgment>, OutOfMemory>
    requires pool { IsPool pool.old.nodes }
    requires premises { All (IsJudgmentOver pool.old.nodes) premises.now }
    requires line { IsLineOver pool.old.nodes line.now }
    requires known { IsKnown pool.old.nodes known.old }
    ensures concludes { IfOk result (IsConclusionFor pool.new.nodes
        (statement (trees_in pool.old.nodes) line.now.says) (ConcludesBy scheme line.now.number
        (map (statement (trees_in pool.old.nodes)) premises.now))) }
    ensures known { OnOk result (IsKnown pool.old.nodes known.new) }
    ensures grows { Grows pool.old.nodes pool.new.nodes }
    ensures pool { IsPool pool.new.nodes }
{
    let number = line.number;
    match scheme {
        Scheme::Text => Ok(None),
        Scheme::Hypothesis => hypothesis(alloc, pool, known, number, premises),
        Scheme::Variable => {
            let says = variable(alloc, pool, known, line.says, premises)?;
            Ok(unnumbered(number, says))
        }
        Scheme::Weakening => weaken(alloc, pool, number, premises),
        Scheme::TermCut | Scheme::CubeCut | Scheme::TopeCut => {
            remove(alloc, pool, scheme, number, premises)
        }
        Scheme::ContextOf => Ok(unnumbered(number, context_of(premises))),
        Scheme::Inversion => inversion(alloc, pool, number, premises),
        Scheme::OwnType => {
            let says = own(alloc, pool, known, premises)?;
            Ok(unnumbered(number, says))
        }
    }
}

/// The conclusion of a rule that has no use for a line's number, which is to be 0.
fn unnumbered(number: u64, says: Option<Judgment>) -> Option<Judgment>
    ensures zero { number ≡ 0 → result ≡ says }
    ensures other { number ≢ 0 → result ≡ None }
{
    if number == 0 { says } else { None }
}

/// That the context of the one premise is formed.
fn context_of(premises: &[Judgment]) -> Option<Judgment>
    ensures { (nodes : _) → All (IsJudgmentOver nodes) premises.now
        → IsConclusion nodes (IsContextOf (map (statement (trees_in nodes)) premises.now)) result }
{
    match premises {
        [premise] => Some(Judgment::Formed {
            c: premise.context(),
        }),
        _ => None,
    }
}

/// Whether a row's text leads from all but the last of these judgments to the last.
fn is_instance(
    alloc: Global,
    pool: &mut Pool,
    known: &mut Knowledge,
    row: Row,
    judgments: &[Judgment],
) -> Result<bool, OutOfMemory>
    requires judgments { All (IsJudgmentOver pool.old.nodes) judgments.now }
    requires known { IsKnown pool.old.nodes known.old }
    ensures instance { IfOk result (λ yes. IsTrue yes
        ↔ IsInstanceOf (rule_of row) (map (statement (trees_in pool.old.nodes)) judgments.now)) }
    ensures known { OnOk result (IsKnown pool.new.nodes known.new) }
    ensures grows { Grows pool.old.nodes pool.new.nodes }
    ensures pool { IsPool pool.old.nodes }
{
    let mark = pool.mark();
    let Some(finding) = find(alloc, pool, row.text(), judgments)? else {
        return Ok(false);
    };
    let spelled = is_spelled(alloc, pool, row, &finding, judgments);
    pool.release(mark);
    if !spelled? {
        return Ok(false);
    }
    are_met(
        alloc,
        pool,
        known,
        row.conditions(),
        &finding.letters,
        finding.name,
    )
}

/// Whether a row's text spells these judgments, with what was found.
fn is_spelled(
    alloc: Global,
    pool: &mut Pool,
    row: Row,
    finding: &Finding,
    judgments: &[Judgment],
) -> Result<bool, OutOfMemory>
    requires pool { IsPool pool.old.nodes }
    requires judgments { All (IsJudgmentOver pool.old.nodes) judgments.now }
    requires letters { AreLetters pool.old.nodes
        (rule_of row).text finding.now.letters.items finding.now.name }
    ensures spelled { IfOk result (λ yes. IsTrue yes
        ↔ IsInstance (rule_of row).text
        (assignment_of pool.old.nodes finding.now.letters.items finding.now.name)
        (map (statement (trees_in pool.old.nodes)) judgments.now)) }
    ensures grows { Grows pool.old.nodes pool.new.nodes }
{
    match spell(alloc, pool, row.text(), &finding.letters, finding.name)? {
        Some(said) => Ok(are_equal(&said, judgments)),
        None => Ok(false),
    }
}

/// Whether these are the same judgments in the same order.
fn are_equal(these: &[Judgment], those: &[Judgment]) -> bool
    ensures { IsTrue result ↔ (these.now ≡ those.now) }
{
    these == those
}

/// What the lines say that are named as premises; `None` where one of them is no line.
fn premises_of(
    alloc: Global,
    said: &[Judgment],
    from: &[u64],
) -> Result<Option<Vec<Judgment>>, OutOfMemory>
    ensures found { IfOk result (λ answer. IfSome answer (λ premises. map
        (λ j. Some j) premises.items ≡ map (slice_get said.now) from.now)) }
    ensures none { IfOk result (λ answer. IfNone answer ((premises : List Judgment)
        → map (λ j. Some j) premises ≡ map (slice_get said.now) from.now → ⊥)) }
{
    let mut premises = Vec::new(alloc);
    for step in from {
        let Some(premise) = said_at(said, *step) else {
            return Ok(None);
        };
        premises.push(premise)?;
    }
    Ok(Some(premises))
}

/// What a step says; `None` where there is none.
fn said_at(said: &[Judgment], step: u64) -> Option<Judgment>
    ensures { result ≡ slice_get said.now step }
{
    said.get(step as usize).copied()
}
