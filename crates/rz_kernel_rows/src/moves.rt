//! Judgments that move from one context to another.
//!
//! A context is cut, what stands outside of the cut changes, and the entries behind it are made anew, one by one, with all
//! that the judgment says. What stands outside isn't visited.

ghost use Rattle.std.specs.Prelude.{◌≡◌, ◌<◌, ◌≤◌, ◌↔◌, [], ◌∷◌, length, map, All, IsTrue, IfOk, IfSome, IfNone};
ghost use Rattle.rz_rules.specs.declared.kinds.Sort.TheVariants.{Context};
ghost use Rattle.rz_rules.specs.Tree.{sort_of, tree_of, trees_in};
ghost use Rattle.rz_rules.specs.Context.{bound_by, with_entry};
ghost use Rattle.rz_rules.specs.Judgment.{statement};
ghost use Rattle.rz_rules.specs.Structural.{ConcludesBy, IsWeakening, changed_statement, formed};
ghost use Rattle.rz_rules.specs.Substitution.{changed, none, raising};
ghost use Rattle.rz_pool.specs.Counts.{depth_of};
ghost use Rattle.rz_pool.specs.Pool.{Grows, IsPool};
ghost use Rattle.rz_subst.specs.Walk.{IsAnswerOf};
ghost use Rattle.rz_kernel_rows.specs.Context.{IsAt, IsEntryAt, entries_over, entry_over};
ghost use Rattle.rz_kernel_rows.specs.Line.{IsJudgmentOver};
ghost use Rattle.rz_kernel_rows.specs.Move.{AllowsNoPoint, AllowsNoTerm, AllowsPoint, AllowsTerm, AreAnswersOf, IsConclusion, IsEntryBefore, IsEqualityOf, IsExtended, IsHeld, IsJudgmentFor, IsNoContext, IsNoEquality, IsNotRemoved, IsRemoval, IsRemovedBy, IsThere, changes_of};

use crate::contexts::{cut_before, split_at};
use rz_pool::{Counts, Entry, Last, Pool, deeper, last_entry, three_kids};
use rz_rules::{Judgment, Kids, Kind, OutOfMemory, Scheme, Space};
use std::alloc::Global;

/// What becomes of the variables that are bound outside of a cut.
#[derive(Clone, Copy)]
pub enum Change {
    /// Nothing.
    Nothing,
    /// A variable of the space is bound there in front of them.
    Opens(Space),
    /// The tree of an id takes the place of the innermost one of the space.
    Puts(Space, u64),
}

/// A context whose inner entries were made anew.
#[derive(Clone, Copy)]
struct Extended {
    context: u64,
    /// What the inner entries bind.
    depth: Counts,
}

/// The id of a tree that stands at a depth behind the cut, where the variables outside of it change; `None` where an
/// index would reach 2^32.
fn change_tree(
    alloc: Global,
    pool: &mut Pool,
    change: Change,
    id: u64,
    depth: Counts,
) -> Result<Option<u64>, OutOfMemory>
    requires pool { IsPool pool.old.nodes }
    requires change { IsThere pool.old.nodes change }
    requires live { id < length pool.old.nodes }
    ensures answer { IfOk result (IsAnswerOf pool.new.nodes
        (changed (changes_of pool.old.nodes change) (depth_of depth) (tree_of pool.old.nodes id))) }
    ensures sort { IfOk result (λ answer. IfSome answer
        (IsAt pool.new.nodes (sort_of (tree_of pool.old.nodes id)))) }
    ensures grows { Grows pool.old.nodes pool.new.nodes }
    ensures pool { IsPool pool.new.nodes }
{
    match change {
        Change::Nothing => Ok(Some(id)),
        Change::Opens(space) => rz_subst::shift(alloc, pool, space, id, depth.of(space), 1),
        Change::Puts(space, value) => rz_subst::put(alloc, pool, space, depth, id, value),
    }
}

/// The id of a context with one entry more.
fn add_entry(pool: &mut Pool, context: u64, entry: Entry) -> Result<u64, OutOfMemory>
    requires context { IsAt pool.old.nodes Context context }
    requires entry { IsEntryAt pool.old.nodes entry }
    ensures tree { IfOk result (λ id. tree_of pool.new.nodes id
        ≡ with_entry (tree_of pool.old.nodes context) (entry_over pool.old.nodes entry)) }
    ensures there { IfOk result (IsAt pool.new.nodes Context) }
    ensures grows { Grows pool.old.nodes pool.new.nodes }
    ensures pool { IsPool pool.new.nodes }
{
    pool.make_former(entry.kind(), Kids::from_slice(&[context, entry.tree()]))
}

/// A context with these entries behind it, the innermost first, where the variables outside of them change; `None` where
/// an index would reach 2^32.
fn extend(
    alloc: Global,
    pool: &mut Pool,
    change: Change,
    outer: u64,
    inner: &[Entry],
) -> Result<Option<Extended>, OutOfMemory>
    requires pool { IsPool pool.old.nodes }
    requires change { IsThere pool.old.nodes change }
    requires outer { IsAt pool.old.nodes Context outer }
    requires inner { All (IsEntryAt pool.old.nodes) inner.now }
    ensures extended { IfOk result (λ answer. IfSome answer
        (IsExtended pool.old.nodes pool.new.nodes
        (changes_of pool.old.nodes change) outer inner.now)) }
    ensures none { IfOk result (λ answer. IfNone answer (IsNoContext pool.old.nodes
        (changes_of pool.old.nodes change) outer inner.now)) }
    ensures grows { Grows pool.old.nodes pool.new.nodes }
    ensures pool { IsPool pool.new.nodes }
{
    let mut context = outer;
    let mut depth = Counts::NONE;
    let mut left = inner;
    while let Some((entry, others)) = left.split_last() {
        let Some(tree) = change_tree(alloc, pool, change, entry.tree(), depth)? else {
            return Ok(None);
        };
        context = add_entry(pool, context, entry.with_tree(tree))?;
        depth = deeper(depth, *entry)?;
        left = others;
    }
    Ok(Some(Extended { context, depth }))
}

/// The ids of the trees of a judgment that stand at a depth behind the cut, where the variables outside of it change;
/// `None` where an index would reach 2^32.
fn change_parts(
    alloc: Global,
    pool: &mut Pool,
    change: Change,
    parts: &[u64],
    depth: Counts,
) -> Result<Option<Kids>, OutOfMemory>
    requires pool { IsPool pool.old.nodes }
    requires change { IsThere pool.old.nodes change }
    requires live { All (λ id. id < length pool.old.nodes) parts.now }
    requires few { length parts.now ≤ 7 }
    ensures parts { IfOk result (AreAnswersOf pool.new.nodes (map
        (changed (changes_of pool.old.nodes change) (depth_of depth))
        (map (tree_of pool.old.nodes) parts.now))) }
    ensures grows { Grows pool.old.nodes pool.new.nodes }
    ensures pool { IsPool pool.new.nodes }
{
    let mut changed = Kids::new();
    for part in parts {
        let Some(tree) = change_tree(alloc, pool, change, *part, depth)? else {
            return Ok(None);
        };
        changed.push(tree);
    }
    Ok(Some(changed))
}

/// What becomes of a judgment that stands behind these entries, the innermost first, where the variables outside of them
/// change; `None` where an index would reach 2^32.
fn change_judgment(
    alloc: Global,
    pool: &mut Pool,
    change: Change,
    outer: u64,
    inner: &[Entry],
    says: Judgment,
) -> Result<Option<Judgment>, OutOfMemory>
    requires pool { IsPool pool.old.nodes }
    requires change { IsThere pool.old.nodes change }
    requires outer { IsAt pool.old.nodes Context outer }
    requires inner { All (IsEntryAt pool.old.nodes) inner.now }
    requires says { IsJudgmentOver pool.old.nodes says }
    ensures answer { IfOk result (IsJudgmentFor pool.new.nodes
        (changed_statement (changes_of pool.old.nodes change) (tree_of pool.old.nodes outer)
        (entries_over pool.old.nodes inner.now) (statement (trees_in pool.old.nodes) says))) }
    ensures grows { Grows pool.old.nodes pool.new.nodes }
    ensures pool { IsPool pool.new.nodes }
{
    let Some(extended) = extend(alloc, pool, change, outer, inner)? else {
        return Ok(None);
    };
    let parts = says.parts();
    let parts = change_parts(alloc, pool, change, parts.as_slice(), extended.depth)?;
    Ok(match parts {
        Some(parts) => Judgment::of(says.kind(), extended.context, parts.as_slice()),
        None => None,
    })
}

/// What the variables outside of an entry meet that is put behind them.
fn opening(entry: Entry) -> Change
    ensures there { (nodes : _) → IsThere nodes result }
    ensures changes { (nodes : _)
        → changes_of nodes result ≡ raising none (bound_by (entry_over nodes entry)) }
{
    match entry {
        Entry::Cube(_) => Change::Opens(Space::Points),
        Entry::Tope(_) => Change::Nothing,
        Entry::Term(_) => Change::Opens(Space::Terms),
    }
}

/// What a judgment says under one entry more, where these premises and this number allow it.
pub fn weaken(
    alloc: Global,
    pool: &mut Pool,
    number: u64,
    premises: &[Judgment],
) -> Result<Option<Judgment>, OutOfMemory>
    requires pool { IsPool pool.old.nodes }
    requires premises { All (IsJudgmentOver pool.old.nodes) premises.now }
    ensures concludes { IfOk result (IsConclusion pool.new.nodes
        (IsWeakening number (map (statement (trees_in pool.old.nodes)) premises.now))) }
    ensures grows { Grows pool.old.nodes pool.new.nodes }
    ensures pool { IsPool pool.new.nodes }
{
    match premises {
        [premise, allowed] => weaken_by(alloc, pool, number, *premise, *allowed),
        _ => Ok(None),
    }
}

/// What a judgment says under one entry more, where another judgment says that the whole new context is formed.
fn weaken_by(
    alloc: Global,
    pool: &mut Pool,
    number: u64,
    premise: Judgment,
    allowed: Judgment,
) -> Result<Option<Judgment>, OutOfMemory>
    requires pool { IsPool pool.old.nodes }
    requires premise { IsJudgmentOver pool.old.nodes premise }
    requires allowed { IsJudgmentOver pool.old.nodes allowed }
    ensures concludes { IfOk result (IsConclusion pool.new.nodes (IsWeakening number
        (statement (trees_in pool.old.nodes) premise
        ∷ statement (trees_in pool.old.nodes) allowed ∷ []))) }
    ensures grows { Grows pool.old.nodes pool.new.nodes }
    ensures pool { IsPool pool.new.nodes }
{
    match allowed {
        Judgment::Formed { c } => weaken_into(alloc, pool, number, premise, c),
        _ => Ok(None),
    }
}

/// What a judgment says in a context with one entry more.
fn weaken_into(
    alloc: Global,
    pool: &mut Pool,
    number: u64,
    premise: Judgment,
    context: u64,
) -> Result<Option<Judgment>, OutOfMemory>
    requires pool { IsPool pool.old.nodes }
    requires premise { IsJudgmentOver pool.old.nodes premise }
    requires context { IsAt pool.old.nodes Context context }
    ensures concludes { IfOk result (IsConclusion pool.new.nodes (IsWeakening number
        (statement (trees_in pool.old.nodes) premise
        ∷ formed (tree_of pool.old.nodes context) ∷ []))) }
    ensures grows { Grows pool.old.nodes pool.new.nodes }
    ensures pool { IsPool pool.new.nodes }
{
    let Some(after) = cut_before(alloc, pool, context, number)? else {
        return Ok(None);
    };
    let Some(last) = last_entry(pool, after.outer) else {
        return Ok(None);
    };
    let Some(before) = cut_before(alloc, pool, premise.context(), number)? else {
        return Ok(None);
    };
    if before.outer != last.before {
        return Ok(None);
    }
    let change = opening(last.entry);
    let says = change_judgment(alloc, pool, change, after.outer, &before.inner, premise)?;
    let Some(says) = says else {
        return Ok(None);
    };
    if pool.are_same(says.context(), context) {
        Ok(Some(says))
    } else {
        Ok(None)
    }
}

/// The term that may take the place of an entry's variable, where a judgment says that it has the entry's type.
fn term_for(pool: &Pool, at: Last, allowed: Judgment) -> Option<u64>
    requires at { IsEntryBefore pool.now.nodes at }
    requires allowed { IsJudgmentOver pool.now.nodes allowed }
    ensures found { IfSome result (AllowsTerm pool.now.nodes at allowed) }
    ensures none { IfNone result (AllowsNoTerm pool.now.nodes at allowed) }
{
    let (Entry::Term(stated), Judgment::Has { c, a, of }) = (at.entry, allowed) else {
        return None;
    };
    if pool.are_same(c, at.before) && pool.are_same(of, stated) {
        Some(a)
    } else {
        None
    }
}

/// The point that may take the place of an entry's variable, where a judgment says that it equals itself in the entry's
/// cube.
fn point_for(pool: &Pool, at: Last, allowed: Judgment) -> Option<u64>
    requires at { IsEntryBefore pool.now.nodes at }
    requires allowed { IsJudgmentOver pool.now.nodes allowed }
    ensures found { IfSome result (AllowsPoint pool.now.nodes at allowed) }
    ensures none { IfNone result (AllowsNoPoint pool.now.nodes at allowed) }
{
    let (Entry::Cube(stated), Judgment::Holds { c, phi }) = (at.entry, allowed) else {
        return None;
    };
    let (cube, left, right) = equal_points(pool, phi)?;
    if pool.are_same(c, at.before) && pool.are_same(cube, stated) && pool.are_same(left, right) {
        Some(left)
    } else {
        None
    }
}

/// Whether a judgment says that the tope of an entry holds.
fn is_held(pool: &Pool, at: Last, allowed: Judgment) -> bool
    requires at { IsEntryBefore pool.now.nodes at }
    requires allowed { IsJudgmentOver pool.now.nodes allowed }
    ensures { IsTrue result ↔ IsHeld pool.now.nodes at allowed }
{
    match (at.entry, allowed) {
        (Entry::Tope(stated), Judgment::Holds { c, phi }) => {
            pool.are_same(c, at.before) && pool.are_same(phi, stated)
        }
        _ => false,
    }
}

/// The cube and the two points of an equality of points; `None` where the tope is none.
fn equal_points(pool: &Pool, tope: u64) -> Option<(u64, u64, u64)>
    requires { tope < length pool.now.nodes }
    ensures parts { IfSome result (IsEqualityOf pool.now.nodes tope) }
    ensures none { IfNone result (IsNoEquality (tree_of pool.now.nodes tope)) }
{
    let node = pool.node(tope);
    match node.kind {
        Kind::EqualPoints => Some(three_kids(&node.kids)),
        _ => None,
    }
}

/// How an entry goes by a rule, where a judgment allows it.
fn removal(pool: &Pool, scheme: Scheme, at: Last, allowed: Judgment) -> Option<Change>
    requires at { IsEntryBefore pool.now.nodes at }
    requires allowed { IsJudgmentOver pool.now.nodes allowed }
    ensures removes { IfSome result (IsRemovedBy pool.now.nodes scheme at allowed) }
    ensures none { IfNone result (IsNotRemoved pool.now.nodes scheme at allowed) }
{
    match scheme {
        Scheme::TermCut => Some(Change::Puts(Space::Terms, term_for(pool, at, allowed)?)),
        Scheme::CubeCut => Some(Change::Puts(Space::Points, point_for(pool, at, allowed)?)),
        Scheme::TopeCut if is_held(pool, at, allowed) => Some(Change::Nothing),
        _ => None,
    }
}

/// What a judgment says without the entry with this number, where these premises allow it by a rule.
pub fn remove(
    alloc: Global,
    pool: &mut Pool,
    scheme: Scheme,
    number: u64,
    premises: &[Judgment],
) -> Result<Option<Judgment>, OutOfMemory>
    requires pool { IsPool pool.old.nodes }
    requires premises { All (IsJudgmentOver pool.old.nodes) premises.now }
    requires scheme { IsRemoval scheme }
    ensures concludes { IfOk result (IsConclusion pool.new.nodes
        (ConcludesBy scheme number (map (statement (trees_in pool.old.nodes)) premises.now))) }
    ensures grows { Grows pool.old.nodes pool.new.nodes }
    ensures pool { IsPool pool.new.nodes }
{
    match premises {
        [premise, allowed] => remove_from(alloc, pool, scheme, number, *premise, *allowed),
        _ => Ok(None),
    }
}

/// What a judgment says without an entry, where another judgment allows it by a rule.
fn remove_from(
    alloc: Global,
    pool: &mut Pool,
    scheme: Scheme,
    number: u64,
    premise: Judgment,
    allowed: Judgment,
) -> Result<Option<Judgment>, OutOfMemory>
    requires pool { IsPool pool.old.nodes }
    requires premise { IsJudgmentOver pool.old.nodes premise }
    requires allowed { IsJudgmentOver pool.old.nodes allowed }
    requires scheme { IsRemoval scheme }
    ensures concludes { IfOk result (IsConclusion pool.new.nodes (ConcludesBy scheme number
        (statement (trees_in pool.old.nodes) premise
        ∷ statement (trees_in pool.old.nodes) allowed ∷ []))) }
    ensures grows { Grows pool.old.nodes pool.new.nodes }
    ensures pool { IsPool pool.new.nodes }
{
    let Some(split) = split_at(alloc, pool, premise.context(), number)? else {
        return Ok(None);
    };
    let Some(change) = removal(pool, scheme, split.at, allowed) else {
        return Ok(None);
    };
    change_judgment(alloc, pool, change, split.at.before, &split.inner, premise)
}
