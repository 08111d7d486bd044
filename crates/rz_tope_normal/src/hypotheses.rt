//! The hypotheses that a context gives.

ghost use Rattle.std.specs.Prelude.{◌≡◌, ℕ, ◌<◌, ◌+◌, [], ◌∷◌, length, true, All, IfOk, IfSome, IfNone};
ghost use Rattle.rz_rules.specs.declared.coordinates.Coord.{Coord};
ghost use Rattle.rz_rules.specs.Tree.{Tree, tree_of};
ghost use Rattle.rz_rules.specs.Substitution.{weakened};
ghost use Rattle.rz_pool.specs.Counts.{depth_of};
ghost use Rattle.rz_rules.specs.Validity.{are_true};
ghost use Rattle.rz_metatheory.specs.SmallOrders.{HasTopesOver};
ghost use Rattle.rz_pool.specs.Pool.{Grows};
ghost use Rattle.rz_tope_normal.specs.Hypothesis.{AreGiven, AreTrueIn, IsWalk};
ghost use Rattle.rz_pool.specs.Entry.{IsLast};

use rz_pool::{Counts, Entry, Last, Pool, last_entry, one_more};
use rz_rules::{Kind, OutOfMemory};
use rz_subst::weaken;
use std::alloc::Global;

/// A tope entry of a context.
#[derive(Clone, Copy)]
pub(crate) struct Hypothesis {
    /// How many entries stand behind it.
    pub number: u64,
    /// Its tope, as it is read behind those, an id of the pool.
    pub tope: u64,
}

/// The tope entries of a context, the innermost first.
pub(crate) fn hypotheses(
    alloc: Global,
    pool: &mut Pool,
    context: u64,
) -> Result<Vec<Hypothesis>, OutOfMemory>
    requires context { context < length pool.old.nodes }
    requires topes { HasTopesOver (tree_of pool.old.nodes context) }
    ensures given { IfOk result (λ list. AreGiven pool.new.nodes
        (tree_of pool.old.nodes context) list.items) }
    ensures all { IfOk result (λ list. (rank : Coord → ℕ)
        → AreTrueIn pool.new.nodes (tree_of pool.old.nodes context) rank list.items
        → are_true rank (tree_of pool.old.nodes context) ≡ true) }
    ensures grows { Grows pool.old.nodes pool.new.nodes }
{
    let mut walk = Walk {
        at: context,
        number: 0,
        behind: Counts::NONE,
        list: Vec::new(alloc),
    };
    while let Some(last) = last_entry(pool, walk.at) {
        walk = pass(alloc, pool, walk, last)?;
    }
    Ok(walk.list)
}

/// A walk through a context, from its innermost entry to its outermost.
#[derive(Drop)]
pub(crate) struct Walk {
    /// The context that is still to be passed, an id of the pool.
    pub at: u64,
    /// How many entries were passed.
    pub number: u64,
    /// How many variables they bind.
    pub behind: Counts,
    /// The tope entries among them.
    pub list: Vec<Hypothesis>,
}

/// The walk past the last entry of the context that is left.
fn pass(alloc: Global, pool: &mut Pool, walk: Walk, last: Last) -> Result<Walk, OutOfMemory>
    requires live { walk.at < length pool.old.nodes }
    requires last { IsLast pool.old.nodes walk.at last }
    ensures walk { IfOk result (λ after. (whole : Tree) → IsWalk pool.old.nodes whole walk
        → HasTopesOver whole → IsWalk pool.new.nodes whole after) }
    ensures at { IfOk result (λ after. after.at ≡ last.before) }
    ensures grows { Grows pool.old.nodes pool.new.nodes }
{
    let at = last.before;
    let number = one_more(walk.number)?;
    let Counts { points, terms } = walk.behind;
    match last.entry {
        Entry::Cube(_) => {
            let points = one_more(points)?;
            let behind = Counts { points, terms };
            let list = walk.list;
            Ok(Walk {
                at,
                number,
                behind,
                list,
            })
        }
        Entry::Term(_) => {
            let terms = one_more(terms)?;
            let behind = Counts { points, terms };
            let list = walk.list;
            Ok(Walk {
                at,
                number,
                behind,
                list,
            })
        }
        Entry::Tope(stated) => {
            let tope = deepen(alloc, pool, stated, walk.behind)?;
            let hypothesis = Hypothesis {
                number: walk.number,
                tope,
            };
            let behind = walk.behind;
            let mut list = walk.list;
            list.push(hypothesis)?;
            Ok(Walk {
                at,
                number,
                behind,
                list,
            })
        }
    }
}

/// A tree as it is read so much further in; refused where an index would reach 2^32.
fn deepen(alloc: Global, pool: &mut Pool, id: u64, by: Counts) -> Result<u64, OutOfMemory>
    requires { id < length pool.old.nodes }
    ensures within { IfOk result (λ deep. deep < length pool.new.nodes) }
    ensures tree { IfOk result (λ deep. tree_of pool.new.nodes deep
        ≡ weakened (depth_of by) (tree_of pool.old.nodes id)) }
    ensures grows { Grows pool.old.nodes pool.new.nodes }
{
    match weaken(alloc, pool, id, by)? {
        Some(deep) => Ok(deep),
        None => Err(OutOfMemory),
    }
}
