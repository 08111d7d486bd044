//! What the entries of a context give.

ghost use Rattle.std.specs.Prelude.{◌<◌, [], ◌∷◌, length, map, All, IfOk, OnOk};
ghost use Rattle.rz_rules.specs.declared.kinds.Sort.TheVariants.{Context, Term};
ghost use Rattle.rz_rules.specs.Judgment.{statement};
ghost use Rattle.rz_rules.specs.Structural.{IsHypothesis, IsVariable, TypesVariable, formed, term_variable};
ghost use Rattle.rz_rules.specs.Tree.{tree_of, trees_in};
ghost use Rattle.rz_pool.specs.Pool.{Grows, IsPool};
ghost use Rattle.rz_context.specs.Knowledge.{IsKnown};
ghost use Rattle.rz_kernel_rows.specs.Context.{IsAt};
ghost use Rattle.rz_kernel_rows.specs.Line.{IsJudgmentOver};
ghost use Rattle.rz_kernel_rows.specs.Move.{IsConclusion, IsConclusionFor, IsTypeFor};

use rz_context::{Knowledge, Measure};
use rz_pool::{Entry, Pool, deeper};
use rz_rules::{Judgment, Kind, OutOfMemory};
use std::alloc::Global;

/// That the tope of the entry with this number holds, where the premises say that the context is formed.
pub fn hypothesis(
    alloc: Global,
    pool: &mut Pool,
    known: &mut Knowledge,
    number: u64,
    premises: &[Judgment],
) -> Result<Option<Judgment>, OutOfMemory>
    requires pool { IsPool pool.old.nodes }
    requires known { IsKnown pool.old.nodes known.old }
    requires premises { All (IsJudgmentOver pool.old.nodes) premises.now }
    ensures concludes { IfOk result (IsConclusion pool.new.nodes
        (IsHypothesis number (map (statement (trees_in pool.old.nodes)) premises.now))) }
    ensures known { OnOk result (IsKnown pool.old.nodes known.new) }
    ensures grows { Grows pool.old.nodes pool.new.nodes }
    ensures pool { IsPool pool.new.nodes }
{
    match premises {
        [premise] => hypothesis_by(alloc, pool, known, number, *premise),
        _ => Ok(None),
    }
}

/// That the tope of the entry with this number holds, where a judgment says that the context is formed.
fn hypothesis_by(
    alloc: Global,
    pool: &mut Pool,
    known: &mut Knowledge,
    number: u64,
    premise: Judgment,
) -> Result<Option<Judgment>, OutOfMemory>
    requires pool { IsPool pool.old.nodes }
    requires known { IsKnown pool.old.nodes known.old }
    requires premise { IsJudgmentOver pool.old.nodes premise }
    ensures concludes { IfOk result (IsConclusion pool.new.nodes
        (IsHypothesis number (statement (trees_in pool.old.nodes) premise ∷ []))) }
    ensures known { OnOk result (IsKnown pool.old.nodes known.new) }
    ensures grows { Grows pool.old.nodes pool.new.nodes }
    ensures pool { IsPool pool.new.nodes }
{
    match premise {
        Judgment::Formed { c } => hypothesis_in(alloc, pool, known, number, c),
        _ => Ok(None),
    }
}

/// That the tope of the entry of a context with this number holds.
fn hypothesis_in(
    alloc: Global,
    pool: &mut Pool,
    known: &mut Knowledge,
    number: u64,
    context: u64,
) -> Result<Option<Judgment>, OutOfMemory>
    requires pool { IsPool pool.old.nodes }
    requires known { IsKnown pool.old.nodes known.old }
    requires context { IsAt pool.old.nodes Context context }
    ensures concludes { IfOk result (IsConclusion pool.new.nodes
        (IsHypothesis number (formed (tree_of pool.old.nodes context) ∷ []))) }
    ensures known { OnOk result (IsKnown pool.old.nodes known.new) }
    ensures grows { Grows pool.old.nodes pool.new.nodes }
    ensures pool { IsPool pool.new.nodes }
{
    let Some(found) = known.find(pool, context, Measure::Entries, number)? else {
        return Ok(None);
    };
    let Entry::Tope(tope) = found.last.entry else {
        return Ok(None);
    };
    match rz_subst::weaken(alloc, pool, tope, found.depth)? {
        Some(phi) => Ok(Some(Judgment::Holds { c: context, phi })),
        None => Ok(None),
    }
}

/// The type of a variable in a context; `None` where the term is no variable of it.
pub fn variable_type(
    alloc: Global,
    pool: &mut Pool,
    known: &mut Knowledge,
    context: u64,
    term: u64,
) -> Result<Option<u64>, OutOfMemory>
    requires pool { IsPool pool.old.nodes }
    requires known { IsKnown pool.old.nodes known.old }
    requires context { context < length pool.old.nodes }
    requires term { IsAt pool.old.nodes Term term }
    ensures typed { IfOk result (IsTypeFor pool.new.nodes
        (IsVariable (tree_of pool.old.nodes context) (tree_of pool.old.nodes term))) }
    ensures known { OnOk result (IsKnown pool.old.nodes known.new) }
    ensures grows { Grows pool.old.nodes pool.new.nodes }
    ensures pool { IsPool pool.new.nodes }
{
    let node = pool.node(term);
    let index = node.number;
    match node.kind {
        Kind::TermVariable => type_at(alloc, pool, known, context, index),
        _ => Ok(None),
    }
}

/// The type of the variable with this index; `None` where the context has no such entry.
fn type_at(
    alloc: Global,
    pool: &mut Pool,
    known: &mut Knowledge,
    context: u64,
    index: u64,
) -> Result<Option<u64>, OutOfMemory>
    requires pool { IsPool pool.old.nodes }
    requires known { IsKnown pool.old.nodes known.old }
    requires context { context < length pool.old.nodes }
    ensures typed { IfOk result (IsTypeFor pool.new.nodes
        (IsVariable (tree_of pool.old.nodes context) (term_variable index))) }
    ensures known { OnOk result (IsKnown pool.old.nodes known.new) }
    ensures grows { Grows pool.old.nodes pool.new.nodes }
    ensures pool { IsPool pool.new.nodes }
{
    let Some(found) = known.find(pool, context, Measure::Terms, index)? else {
        return Ok(None);
    };
    let depth = deeper(found.depth, found.last.entry)?;
    rz_subst::weaken(alloc, pool, found.last.entry.tree(), depth)
}

/// That the variable of which a judgment speaks has its type, where the premises say that the context is formed.
pub fn variable(
    alloc: Global,
    pool: &mut Pool,
    known: &mut Knowledge,
    says: Judgment,
    premises: &[Judgment],
) -> Result<Option<Judgment>, OutOfMemory>
    requires pool { IsPool pool.old.nodes }
    requires known { IsKnown pool.old.nodes known.old }
    requires says { IsJudgmentOver pool.old.nodes says }
    requires premises { All (IsJudgmentOver pool.old.nodes) premises.now }
    ensures concludes { IfOk result (IsConclusionFor pool.new.nodes
        (statement (trees_in pool.old.nodes) says)
        (TypesVariable (map (statement (trees_in pool.old.nodes)) premises.now))) }
    ensures known { OnOk result (IsKnown pool.old.nodes known.new) }
    ensures grows { Grows pool.old.nodes pool.new.nodes }
    ensures pool { IsPool pool.new.nodes }
{
    match premises {
        [premise] => variable_by(alloc, pool, known, says, *premise),
        _ => Ok(None),
    }
}

/// That the variable of which a judgment speaks has its type, where another judgment says that the context is formed.
fn variable_by(
    alloc: Global,
    pool: &mut Pool,
    known: &mut Knowledge,
    says: Judgment,
    premise: Judgment,
) -> Result<Option<Judgment>, OutOfMemory>
    requires pool { IsPool pool.old.nodes }
    requires known { IsKnown pool.old.nodes known.old }
    requires says { IsJudgmentOver pool.old.nodes says }
    requires premise { IsJudgmentOver pool.old.nodes premise }
    ensures concludes { IfOk result (IsConclusionFor pool.new.nodes
        (statement (trees_in pool.old.nodes) says)
        (TypesVariable (statement (trees_in pool.old.nodes) premise ∷ []))) }
    ensures known { OnOk result (IsKnown pool.old.nodes known.new) }
    ensures grows { Grows pool.old.nodes pool.new.nodes }
    ensures pool { IsPool pool.new.nodes }
{
    let Judgment::Formed { c } = premise else {
        return Ok(None);
    };
    let Judgment::Has { a, .. } = says else {
        return Ok(None);
    };
    match variable_type(alloc, pool, known, c, a)? {
        Some(of) => Ok(Some(Judgment::Has { c, a, of })),
        None => Ok(None),
    }
}
