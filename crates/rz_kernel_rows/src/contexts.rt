//! Contexts that are cut.

ghost use Rattle.std.specs.Prelude.{◌<◌, length, IfOk, IfSome, IfNone};
ghost use Rattle.rz_rules.specs.Tree.{tree_of};
ghost use Rattle.rz_kernel_rows.specs.Context.{IsCut, IsSplit, NoCut, NoSplit};

use rz_pool::{Entry, Last, Pool, last_entry};
use rz_rules::OutOfMemory;
use std::alloc::Global;

/// A context that is cut.
#[derive(Drop)]
pub struct Cut {
    /// What stands outside of the cut.
    pub outer: u64,
    /// The entries further in, the innermost first.
    pub inner: Vec<Entry>,
}

/// A context that is cut at an entry.
#[derive(Drop)]
pub struct Split {
    /// The entry, and what stands before it.
    pub at: Last,
    /// The entries further in, the innermost first.
    pub inner: Vec<Entry>,
}

/// Cuts a context before so many of its innermost entries; `None` where it has fewer.
pub fn cut_before(
    alloc: Global,
    pool: &Pool,
    context: u64,
    count: u64,
) -> Result<Option<Cut>, OutOfMemory>
    requires { context < length pool.now.nodes }
    ensures cut { IfOk result (λ answer. IfSome answer (IsCut pool.now.nodes context count)) }
    ensures none { IfOk result
        (λ answer. IfNone answer (NoCut (tree_of pool.now.nodes context) count)) }
{
    let mut outer = context;
    let mut inner = Vec::new(alloc);
    for taken in 0..count {
        let Some(last) = last_entry(pool, outer) else {
            return Ok(None);
        };
        inner.push(last.entry)?;
        outer = last.before;
    }
    Ok(Some(Cut { outer, inner }))
}

/// Cuts a context at the entry with this number, counted from 0 at the innermost; `None` where it has no such entry.
pub fn split_at(
    alloc: Global,
    pool: &Pool,
    context: u64,
    number: u64,
) -> Result<Option<Split>, OutOfMemory>
    requires { context < length pool.now.nodes }
    ensures split { IfOk result
        (λ answer. IfSome answer (IsSplit pool.now.nodes context number)) }
    ensures none { IfOk result
        (λ answer. IfNone answer (NoSplit (tree_of pool.now.nodes context) number)) }
{
    let Some(cut) = cut_before(alloc, pool, context, number)? else {
        return Ok(None);
    };
    let Some(at) = last_entry(pool, cut.outer) else {
        return Ok(None);
    };
    Ok(Some(Split {
        at,
        inner: cut.inner,
    }))
}
