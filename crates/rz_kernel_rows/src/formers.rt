//! What the typing row of a term's former tells.

ghost use Rattle.std.specs.Prelude.{◌≡◌, [], ◌∷◌, ◌++◌, map, All, Some, IfOk, IfSome, IfNone, OnOk, slice_get};
ghost use Rattle.rz_rules.specs.declared.kinds.Sort.TheVariants.{Context, Term};
ghost use Rattle.rz_rules.specs.Judgment.{statement};
ghost use Rattle.rz_rules.specs.Structural.{IsInversion, IsOwnType, SameAsOwn, universe};
ghost use Rattle.rz_rules.specs.Tree.{kind_at, tree_of, trees_in};
ghost use Rattle.rz_rules.specs.declared.judgments.Judgment.TheVariants.{Has};
ghost use Rattle.rz_rules.specs.Table.{typing_row as row_of_former};
ghost use Rattle.rz_pool.specs.Pool.{Grows, IsPool};
ghost use Rattle.rz_context.specs.Knowledge.{IsKnown};
ghost use Rattle.rz_kernel_rows.specs.Context.{IsAt};
ghost use Rattle.rz_kernel_rows.specs.Line.{IsJudgmentOver};
ghost use Rattle.rz_kernel_rows.specs.Move.{IsConclusion, IsTypeFor};
ghost use Rattle.rz_kernel_rows.specs.Typing.{AreTyping, HasFormerType, HasNoTyping, IsTypingOf};

use crate::variables::variable_type;
use rz_context::Knowledge;
use rz_pool::Pool;
use rz_rule_text::{find_subject, spell};
use rz_rules::{Judgment, Kids, Kind, OutOfMemory, Row};
use std::alloc::Global;

/// What the typing row of a term's former says of the term.
#[derive(Drop)]
struct Typing {
    /// Its premises.
    above: Vec<Judgment>,
    /// The id of the type that it gives the term.
    of: u64,
}

/// What the typing row of a term's former says of the term in a context. `None` where the term is a variable, or where an
/// index would reach 2^32.
fn read_typing(
    alloc: Global,
    pool: &mut Pool,
    context: u64,
    term: u64,
) -> Result<Option<Typing>, OutOfMemory>
    requires pool { IsPool pool.old.nodes }
    requires context { IsAt pool.old.nodes Context context }
    requires term { IsAt pool.old.nodes Term term }
    ensures typed { IfOk result (λ answer. IfSome answer (λ typing.
        IsTypingOf pool.old.nodes pool.new.nodes context term typing)) }
    ensures none { IfOk result
        (λ answer. IfNone answer (HasNoTyping pool.old.nodes context term)) }
    ensures grows { Grows pool.old.nodes pool.new.nodes }
    ensures pool { IsPool pool.new.nodes }
{
    let Some(row) = Row::of_former(pool.node(term).kind) else {
        return Ok(None);
    };
    let Some(said) = typing_row(alloc, pool, row, context, term)? else {
        return Ok(None);
    };
    Ok(typing_from(said, context, term))
}

/// The judgments of a typing row, read for a term of its former.
fn typing_row(
    alloc: Global,
    pool: &mut Pool,
    row: Row,
    context: u64,
    term: u64,
) -> Result<Option<Vec<Judgment>>, OutOfMemory>
    requires pool { IsPool pool.old.nodes }
    requires context { IsAt pool.old.nodes Context context }
    requires term { IsAt pool.old.nodes Term term }
    requires row { row_of_former (kind_at (tree_of pool.old.nodes term)) ≡ Some row }
    ensures typed { IfOk result (λ answer. IfSome answer (λ said.
        AreTyping pool.old.nodes pool.new.nodes context term said.items)) }
    ensures none { IfOk result
        (λ answer. IfNone answer (HasNoTyping pool.old.nodes context term)) }
    ensures grows { Grows pool.old.nodes pool.new.nodes }
    ensures pool { IsPool pool.new.nodes }
{
    let Some(finding) = find_subject(alloc, pool, row.text(), context, term)? else {
        return Ok(None);
    };
    spell(alloc, pool, row.text(), &finding.letters, finding.name)
}

/// The premises and the type, where the last of these judgments gives the term in the context a type.
fn typing_from(mut said: Vec<Judgment>, context: u64, term: u64) -> Option<Typing>
    ensures found { IfSome result (λ typing.
        said.items ≡ typing.above.items ++ Has context term typing.of ∷ []) }
    ensures none { IfNone result ((above : _) (of : _)
        → said.items ≡ above ++ Has context term of ∷ [] → ⊥) }
{
    match said.pop()? {
        Judgment::Has { c, a, of } if c == context && a == term => Some(Typing { above: said, of }),
        _ => None,
    }
}

/// The premise with this number of the typing row of a term's former.
pub fn inversion(
    alloc: Global,
    pool: &mut Pool,
    number: u64,
    premises: &[Judgment],
) -> Result<Option<Judgment>, OutOfMemory>
    requires pool { IsPool pool.old.nodes }
    requires premises { All (IsJudgmentOver pool.old.nodes) premises.now }
    ensures concludes { IfOk result (IsConclusion pool.new.nodes
        (IsInversion number (map (statement (trees_in pool.old.nodes)) premises.now))) }
    ensures grows { Grows pool.old.nodes pool.new.nodes }
    ensures pool { IsPool pool.new.nodes }
{
    match premises {
        [premise] => inversion_of(alloc, pool, number, *premise),
        _ => Ok(None),
    }
}

/// The premise with this number of the typing row of the former of the term of which a judgment speaks.
fn inversion_of(
    alloc: Global,
    pool: &mut Pool,
    number: u64,
    premise: Judgment,
) -> Result<Option<Judgment>, OutOfMemory>
    requires pool { IsPool pool.old.nodes }
    requires premise { IsJudgmentOver pool.old.nodes premise }
    ensures concludes { IfOk result (IsConclusion pool.new.nodes
        (IsInversion number (statement (trees_in pool.old.nodes) premise ∷ []))) }
    ensures grows { Grows pool.old.nodes pool.new.nodes }
    ensures pool { IsPool pool.new.nodes }
{
    let Judgment::Has { c, a, .. } = premise else {
        return Ok(None);
    };
    let Some(typing) = read_typing(alloc, pool, c, a)? else {
        return Ok(None);
    };
    Ok(judgment_at(&typing.above, number))
}

/// The judgment with this number; `None` where there is none.
fn judgment_at(said: &[Judgment], number: u64) -> Option<Judgment>
    ensures { result ≡ slice_get said.now number }
{
    said.get(number as usize).copied()
}

/// The type that the typing row of a term's former gives it.
fn former_type(
    alloc: Global,
    pool: &mut Pool,
    context: u64,
    term: u64,
) -> Result<Option<u64>, OutOfMemory>
    requires pool { IsPool pool.old.nodes }
    requires context { IsAt pool.old.nodes Context context }
    requires term { IsAt pool.old.nodes Term term }
    ensures typed { IfOk result (IsTypeFor pool.new.nodes
        (HasFormerType (tree_of pool.old.nodes context) (tree_of pool.old.nodes term))) }
    ensures grows { Grows pool.old.nodes pool.new.nodes }
    ensures pool { IsPool pool.new.nodes }
{
    match read_typing(alloc, pool, context, term)? {
        Some(typing) => Ok(Some(typing.of)),
        None => Ok(None),
    }
}

/// The type of a term by its own row: that of its former, or that of variables.
fn own_type(
    alloc: Global,
    pool: &mut Pool,
    known: &mut Knowledge,
    context: u64,
    term: u64,
) -> Result<Option<u64>, OutOfMemory>
    requires pool { IsPool pool.old.nodes }
    requires known { IsKnown pool.old.nodes known.old }
    requires context { IsAt pool.old.nodes Context context }
    requires term { IsAt pool.old.nodes Term term }
    ensures typed { IfOk result (IsTypeFor pool.new.nodes
        (IsOwnType (tree_of pool.old.nodes context) (tree_of pool.old.nodes term))) }
    ensures known { OnOk result (IsKnown pool.old.nodes known.new) }
    ensures grows { Grows pool.old.nodes pool.new.nodes }
    ensures pool { IsPool pool.new.nodes }
{
    match pool.node(term).kind {
        Kind::TermVariable => variable_type(alloc, pool, known, context, term),
        _ => former_type(alloc, pool, context, term),
    }
}

/// That the type of a term equals the one that its own row gives it.
pub fn own(
    alloc: Global,
    pool: &mut Pool,
    known: &mut Knowledge,
    premises: &[Judgment],
) -> Result<Option<Judgment>, OutOfMemory>
    requires pool { IsPool pool.old.nodes }
    requires known { IsKnown pool.old.nodes known.old }
    requires premises { All (IsJudgmentOver pool.old.nodes) premises.now }
    ensures concludes { IfOk result (IsConclusion pool.new.nodes
        (SameAsOwn (map (statement (trees_in pool.old.nodes)) premises.now))) }
    ensures known { OnOk result (IsKnown pool.old.nodes known.new) }
    ensures grows { Grows pool.old.nodes pool.new.nodes }
    ensures pool { IsPool pool.new.nodes }
{
    match premises {
        [premise] => own_of(alloc, pool, known, *premise),
        _ => Ok(None),
    }
}

/// That the type which a judgment gives a term equals the one that the term's own row gives it.
fn own_of(
    alloc: Global,
    pool: &mut Pool,
    known: &mut Knowledge,
    premise: Judgment,
) -> Result<Option<Judgment>, OutOfMemory>
    requires pool { IsPool pool.old.nodes }
    requires known { IsKnown pool.old.nodes known.old }
    requires premise { IsJudgmentOver pool.old.nodes premise }
    ensures concludes { IfOk result (IsConclusion pool.new.nodes
        (SameAsOwn (statement (trees_in pool.old.nodes) premise ∷ []))) }
    ensures known { OnOk result (IsKnown pool.old.nodes known.new) }
    ensures grows { Grows pool.old.nodes pool.new.nodes }
    ensures pool { IsPool pool.new.nodes }
{
    let Judgment::Has { c, a, of } = premise else {
        return Ok(None);
    };
    let Some(own) = own_type(alloc, pool, known, c, a)? else {
        return Ok(None);
    };
    let universe = make_universe(pool)?;
    Ok(Some(Judgment::Same {
        c,
        a: of,
        b: own,
        of: universe,
    }))
}

/// The id of the universe.
fn make_universe(pool: &mut Pool) -> Result<u64, OutOfMemory>
    requires pool { IsPool pool.old.nodes }
    ensures tree { IfOk result (λ id. tree_of pool.new.nodes id ≡ universe) }
    ensures there { IfOk result (IsAt pool.new.nodes Term) }
    ensures grows { Grows pool.old.nodes pool.new.nodes }
    ensures pool { IsPool pool.new.nodes }
{
    pool.make_former(Kind::Universe, Kids::new())
}
