//! Lines by structural rows: how a judgment moves from context to context, and what a context gives.

ghost use Rattle.std.specs.Prelude.{◌≡◌, ◌<◌, ◌^◌, ◌↔◌, List, length, IsTrue, IfOk};
ghost use Rattle.rz_rules.specs.declared.kinds.Sort.TheVariants.{Context};
ghost use Rattle.rz_rules.specs.Context as meaning;
ghost use Rattle.rz_rules.specs.Context.{OfTope};
ghost use Rattle.rz_rules.specs.Judgment.{statement};
ghost use Rattle.rz_rules.specs.Substitution.{changed, none, only, raising, weakened};
ghost use Rattle.rz_rules.specs.Tree.{Tree, tree_of, trees_in};
ghost use Rattle.rz_pool.specs.Counts.{depth_of};
ghost use Rattle.rz_pool.specs.Pool.{Grows, IsPool};
ghost use Rattle.rz_pool.specs.Entry.{IsAt};
ghost use Rattle.rz_rule_text.specs.Spelling.{IsJudgmentOver};
ghost use Rattle.rz_log.specs.World as world;
ghost use Rattle.rz_log.specs.World.{IsSound, Says};
ghost use Rattle.rz_lemmas.specs.Behind.{HasBehind, bound_in};
ghost use Rattle.rz_lemmas.specs.Moves.{CanWeaken, HasTope, hypothesis_of, raised_judgment, weakening_of};

use crate::places::{Found, find};
use rz_log::World;
use rz_pool::{Counts, Entry, Pool};
use rz_rules::{Judgment, Line, Numbers, OutOfMemory, Row, Space};
use std::alloc::Global;

/// A tree that stands behind an entry, at a depth, as it is read where the entry is one more.
fn raise(alloc: Global, pool: &mut Pool, behind: Found, id: u64) -> Result<u64, OutOfMemory>
    requires live { id < length pool.old.nodes }
    ensures within { IfOk result (λ new. new < length pool.new.nodes) }
    ensures tree { IfOk result (λ new. tree_of pool.new.nodes new
        ≡ changed (raising none (bound_in behind.entry))
        (depth_of behind.depth) (tree_of pool.old.nodes id)) }
    ensures grows { Grows pool.old.nodes pool.new.nodes }
    ensures pool { IsPool pool.new.nodes }
{
    match behind.entry {
        Entry::Cube(_) => open(alloc, pool, Space::Points, behind.depth, id),
        Entry::Tope(_) => {
            let _ = pool.len();
            Ok(id)
        }
        Entry::Term(_) => open(alloc, pool, Space::Terms, behind.depth, id),
    }
}

/// A tree that stands at a depth, as it is read where a variable of a space is bound more outside of that.
fn open(
    alloc: Global,
    pool: &mut Pool,
    space: Space,
    depth: Counts,
    id: u64,
) -> Result<u64, OutOfMemory>
    requires live { id < length pool.old.nodes }
    ensures within { IfOk result (λ new. new < length pool.new.nodes) }
    ensures tree { IfOk result (λ new. tree_of pool.new.nodes new
        ≡ changed (raising none (only space 1)) (depth_of depth) (tree_of pool.old.nodes id)) }
    ensures grows { Grows pool.old.nodes pool.new.nodes }
    ensures pool { IsPool pool.new.nodes }
{
    let from = depth.of(space);
    match rz_subst::shift(alloc, pool, space, id, from, 1)? {
        Some(new) => Ok(new),
        None => Err(OutOfMemory),
    }
}

/// What a judgment says of its parts, as they are read where an entry is one more, in a new context.
fn raise_judgment(
    alloc: Global,
    pool: &mut Pool,
    behind: Found,
    says: Judgment,
    context: u64,
) -> Result<Judgment, OutOfMemory>
    requires over { IsJudgmentOver pool.old.nodes says }
    requires context { IsAt pool.old.nodes Context context }
    ensures over { IfOk result (IsJudgmentOver pool.new.nodes) }
    ensures says { IfOk result (λ new. statement (trees_in pool.new.nodes) new
        ≡ raised_judgment (raising none (bound_in behind.entry))
        (depth_of behind.depth) (tree_of pool.old.nodes context)
        (statement (trees_in pool.old.nodes) says)) }
    ensures grows { Grows pool.old.nodes pool.new.nodes }
    ensures pool { IsPool pool.new.nodes }
{
    match says {
        Judgment::Formed { .. } => {
            let _ = pool.len();
            Ok(Judgment::Formed { c: context })
        }
        Judgment::Holds { phi, .. } => {
            let phi = raise(alloc, pool, behind, phi)?;
            Ok(Judgment::Holds { c: context, phi })
        }
        Judgment::Has { a, of, .. } => {
            let a = raise(alloc, pool, behind, a)?;
            let of = raise(alloc, pool, behind, of)?;
            Ok(Judgment::Has { c: context, a, of })
        }
        Judgment::Same { a, b, of, .. } => {
            let a = raise(alloc, pool, behind, a)?;
            let b = raise(alloc, pool, behind, b)?;
            let of = raise(alloc, pool, behind, of)?;
            Ok(Judgment::Same {
                c: context,
                a,
                b,
                of,
            })
        }
    }
}

/// A judgment, as it is read with one entry more in its context, behind which stand so many entries; the context is there.
fn weakening(
    alloc: Global,
    pool: &mut Pool,
    says: Judgment,
    context: u64,
    depth: u64,
) -> Result<Judgment, OutOfMemory>
    requires over { IsJudgmentOver pool.old.nodes says }
    requires context { IsAt pool.old.nodes Context context }
    requires enough { (outer : Tree) × (entry : meaning.Entry) × (inner : List meaning.Entry)
        × HasBehind (tree_of pool.old.nodes context) depth (meaning.with_entry outer entry) inner }
    ensures over { IfOk result (IsJudgmentOver pool.new.nodes) }
    ensures says { IfOk result (λ new.
        (outer : Tree) (entry : meaning.Entry) (inner : List meaning.Entry)
        → HasBehind (tree_of pool.old.nodes context) depth (meaning.with_entry outer entry) inner
        → statement (trees_in pool.new.nodes) new
        ≡ raised_judgment (raising none (meaning.bound_by entry)) (meaning.depth_of inner)
        (tree_of pool.old.nodes context) (statement (trees_in pool.old.nodes) says)) }
    ensures grows { Grows pool.old.nodes pool.new.nodes }
    ensures pool { IsPool pool.new.nodes }
{
    let _ = pool.len();
    let behind = find(pool, context, depth)?;
    let new = raise_judgment(alloc, pool, behind, says, context)?;
    Ok(new)
}

/// The tope of an entry of a context behind which so many entries stand, as it is read in the whole context.
fn tope_at(alloc: Global, pool: &mut Pool, context: u64, number: u64) -> Result<u64, OutOfMemory>
    requires context { context < length pool.old.nodes }
    requires enough { (outer : Tree) × (tope : Tree) × (inner : List meaning.Entry)
        × HasBehind (tree_of pool.old.nodes context) number
        (meaning.with_entry outer (OfTope tope)) inner }
    ensures within { IfOk result (λ id. id < length pool.new.nodes) }
    ensures tope { IfOk result (λ id. (outer : Tree) (tope : Tree) (inner : List meaning.Entry)
        → HasBehind (tree_of pool.old.nodes context) number
        (meaning.with_entry outer (OfTope tope)) inner
        → tree_of pool.new.nodes id ≡ weakened (meaning.depth_of inner) tope) }
    ensures grows { Grows pool.old.nodes pool.new.nodes }
    ensures pool { IsPool pool.new.nodes }
{
    let _ = pool.len();
    let behind = find(pool, context, number)?;
    match rz_subst::weaken(alloc, pool, behind.entry.tree(), behind.depth)? {
        Some(tope) => Ok(tope),
        None => Err(OutOfMemory),
    }
}

/// Whether a number is one that a file can have.
fn is_small(number: u64) -> bool
    ensures { IsTrue result ↔ (number < 2 ^ 32) }
{
    u32::try_from(number).is_ok()
}

/// The judgment of a step with one entry more in its context, behind which stand `depth` entries. The step `formed` says
/// that the whole new context is formed.
///
/// Where a step says so already, it is that step. A number that reaches 2^32 counts as want of memory.
pub fn weaken(
    alloc: Global,
    w: &mut World,
    step: u64,
    formed: u64,
    depth: u64,
) -> Result<u64, OutOfMemory>
    requires sound { IsSound w.old }
    requires can { CanWeaken w.old step formed depth }
    ensures says { (can : CanWeaken w.old step formed depth)
        → IfOk result (λ new. Says w.new new (weakening_of w.old step formed depth can)) }
    ensures grows { world.Grows w.old w.new }
{
    if !is_small(depth) {
        return Err(OutOfMemory);
    }
    let says = w.log.line(step).says;
    let context = w.log.line(formed).says.context();
    let says = weakening(alloc, &mut w.pool, says, context, depth)?;
    let from = Numbers::from_slice(alloc, &[step, formed])?;
    let new = w.add(Line {
        row: Row::Weakening,
        number: depth,
        says,
        from,
    })?;
    Ok(new)
}

/// A step that says that the tope of an entry holds, as it is read in the whole context. Behind the entry stand `number`
/// entries, and the step `formed` says that the context is formed.
///
/// Where a step says so already, it is that step. A number that reaches 2^32 counts as want of memory.
pub fn hypothesis(
    alloc: Global,
    w: &mut World,
    formed: u64,
    number: u64,
) -> Result<u64, OutOfMemory>
    requires sound { IsSound w.old }
    requires tope { HasTope w.old formed number }
    ensures says { (tope : HasTope w.old formed number)
        → IfOk result (λ step. Says w.new step (hypothesis_of w.old formed number tope)) }
    ensures grows { world.Grows w.old w.new }
{
    if !is_small(number) {
        return Err(OutOfMemory);
    }
    let context = w.log.line(formed).says.context();
    let phi = tope_at(alloc, &mut w.pool, context, number)?;
    let from = Numbers::from_slice(alloc, &[formed])?;
    let step = w.add(Line {
        row: Row::Hypothesis,
        number,
        says: Judgment::Holds { c: context, phi },
        from,
    })?;
    Ok(step)
}
