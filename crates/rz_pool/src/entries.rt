//! The entries of a context.

ghost use Rattle.std.specs.Prelude.{◌≡◌, ◌<◌, ◌+◌, [], length, IfOk, IfSome, IfNone};
ghost use Rattle.rz_rules.specs.Tree.{tree_of};
ghost use Rattle.rz_rules.specs.Context.{HasNoEntry};
ghost use Rattle.rz_pool.specs.Counts.{depth_of};
ghost use Rattle.rz_pool.specs.Entry.{IsLast, IsNoEntry, bound_by, kind_of_entry, tree_in, with_id};

use crate::counts::Counts;
use crate::kids::two_kids;
use crate::pool::Pool;
use rz_rules::{Kind, OutOfMemory};

/// An entry of a context, by the id of its tree.
#[derive(Clone, Copy, Debug, PartialEq, Eq)]
pub enum Entry {
    /// A cube variable, with its cube.
    Cube(u64),
    /// A tope that holds.
    Tope(u64),
    /// A term variable, with its type.
    Term(u64),
}

/// The last entry of a context.
#[derive(Clone, Copy, Debug)]
pub struct Last {
    /// The context before it.
    pub before: u64,
    /// The entry.
    pub entry: Entry,
}

impl Entry {
    /// The id of its cube, its tope or its type.
    pub fn tree(self) -> u64
        ensures { result ≡ tree_in self }
    {
        match self {
            Entry::Cube(id) | Entry::Tope(id) | Entry::Term(id) => id,
        }
    }

    /// The kind of a context whose last entry it is.
    pub fn kind(self) -> Kind
        ensures { result ≡ kind_of_entry self }
    {
        match self {
            Entry::Cube(_) => Kind::CubeEntry,
            Entry::Tope(_) => Kind::TopeEntry,
            Entry::Term(_) => Kind::TermEntry,
        }
    }

    /// An entry of the same sort with another tree.
    pub fn with_tree(self, id: u64) -> Entry
        ensures { result ≡ with_id self id }
    {
        match self {
            Entry::Cube(_) => Entry::Cube(id),
            Entry::Tope(_) => Entry::Tope(id),
            Entry::Term(_) => Entry::Term(id),
        }
    }
}

/// The last entry of a context; `None` where it has none.
pub fn last_entry(pool: &Pool, context: u64) -> Option<Last>
    requires { context < length pool.now.nodes }
    ensures lower { IfSome result (λ last. last.before < context) }
    ensures last { IfSome result (IsLast pool.now.nodes context) }
    ensures none { IfNone result (HasNoEntry (tree_of pool.now.nodes context)) }
    ensures no_entry { IfNone result (IsNoEntry (tree_of pool.now.nodes context)) }
{
    let node = pool.node(context);
    let entry = match node.kind {
        Kind::CubeEntry => Entry::Cube(two_kids(&node.kids).1),
        Kind::TopeEntry => Entry::Tope(two_kids(&node.kids).1),
        Kind::TermEntry => Entry::Term(two_kids(&node.kids).1),
        _ => return None,
    };
    Some(Last {
        before: two_kids(&node.kids).0,
        entry,
    })
}

/// A count and one more. A count that doesn't fit is no count of things in memory.
pub fn one_more(count: u64) -> Result<u64, OutOfMemory>
    ensures { IfOk result (λ more. more ≡ count + 1) }
{
    count.checked_add(1).ok_or(OutOfMemory)
}

/// The variables that are bound above, and the one that an entry binds.
pub fn deeper(depth: Counts, entry: Entry) -> Result<Counts, OutOfMemory>
    ensures { IfOk result (λ sum. depth_of sum ≡ bound_by (depth_of depth) entry) }
{
    match entry {
        Entry::Cube(_) => Ok(Counts {
            points: one_more(depth.points)?,
            terms: depth.terms,
        }),
        Entry::Tope(_) => Ok(depth),
        Entry::Term(_) => Ok(Counts {
            points: depth.points,
            terms: one_more(depth.terms)?,
        }),
    }
}
