//! Places in a context, behind which so many entries stand.

ghost use Rattle.std.specs.Prelude.{◌<◌, List, length, IfOk};
ghost use Rattle.rz_rules.specs.Context as meaning;
ghost use Rattle.rz_rules.specs.Context.{with_entry};
ghost use Rattle.rz_rules.specs.Tree.{Tree, tree_of};
ghost use Rattle.rz_lemmas.specs.Behind.{HasBehind, IsEntryFound, IsOutside};

use rz_pool::{Counts, Entry, Pool, deeper, last_entry};
use rz_rules::OutOfMemory;

/// What stands outside of a place in a context.
#[derive(Clone, Copy, Debug)]
pub struct Outside {
    /// The context that ends there.
    pub context: u64,
    /// What the entries behind the place bind.
    pub depth: Counts,
}

/// An entry of a context.
#[derive(Clone, Copy, Debug)]
pub struct Found {
    pub entry: Entry,
    /// What the entries behind it bind.
    pub depth: Counts,
}

/// What stands outside of the place behind which so many entries stand.
fn cut(pool: &Pool, context: u64, number: u64) -> Result<Outside, OutOfMemory>
    requires live { context < length pool.now.nodes }
    requires enough { (outer : Tree) × (inner : List meaning.Entry)
        × HasBehind (tree_of pool.now.nodes context) number outer inner }
    ensures outside { IfOk result (λ found. (outer : Tree) (inner : List meaning.Entry)
        → HasBehind (tree_of pool.now.nodes context) number outer inner
        → IsOutside pool.now.nodes found outer inner) }
{
    let mut found = Outside {
        context,
        depth: Counts::NONE,
    };
    let mut left = number;
    while left > 0 {
        let Some(last) = last_entry(pool, found.context) else {
            unreachable!();
        };
        found = Outside {
            context: last.before,
            depth: deeper(found.depth, last.entry)?,
        };
        left -= 1;
    }
    Ok(found)
}

/// The entry behind which so many entries stand.
pub fn find(pool: &Pool, context: u64, number: u64) -> Result<Found, OutOfMemory>
    requires live { context < length pool.now.nodes }
    requires enough { (outer : Tree) × (entry : meaning.Entry) × (inner : List meaning.Entry)
        × HasBehind (tree_of pool.now.nodes context) number (with_entry outer entry) inner }
    ensures found { IfOk result (λ found. (outer : Tree) (entry : meaning.Entry) (inner : List meaning.Entry)
        → HasBehind (tree_of pool.now.nodes context) number (with_entry outer entry) inner
        → IsEntryFound pool.now.nodes found entry inner) }
{
    let place = cut(pool, context, number)?;
    let Some(last) = last_entry(pool, place.context) else {
        unreachable!();
    };
    Ok(Found {
        entry: last.entry,
        depth: place.depth,
    })
}
