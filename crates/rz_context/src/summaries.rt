//! Summaries: what is kept of each context, so that an entry is found without a walk over those before it.
//!
//! A context knows one further out, chosen so that each context before it is some logarithm of steps away (Myers 1983).

ghost use Rattle.std.specs.Prelude.{◌≡◌, ◌<◌, ◌≤◌, length, Some, IfOk, IfSome, IfNone, IsSome, slice_get};
ghost use Rattle.rz_rules.specs.Tree.{tree_of};
ghost use Rattle.rz_rules.specs.Cube.{cubes_of};
ghost use Rattle.rz_pool.specs.Entry.{IsLast};
ghost use Rattle.rz_context.specs.Summary.{AreLow, AreSummaries, IsBehind, IsFound, IsLow, IsNext, IsSummary, IsScopeWith, IsStart, measure_in, measured};

use rz_pool::{Counts, Entry, Last, Pool, deeper, last_entry, one_more};
use rz_rules::OutOfMemory;
use std::alloc::Global;

/// Which entries of a context are counted.
#[derive(Clone, Copy, Debug, PartialEq, Eq)]
pub enum Measure {
    /// All.
    Entries,
    /// Those of cube variables.
    Cubes,
    /// Those of term variables.
    Terms,
}

/// What is kept of a context.
#[derive(Clone, Copy, Debug)]
pub struct Summary {
    /// How many entries it has.
    pub entries: u64,
    /// How many of them bind a variable of each space.
    pub binds: Counts,
    /// The id of a context at its start.
    pub further_out: u64,
    /// The id of the context at its start that ends with its last cube entry, or has no entry.
    pub scope: u64,
}

impl Summary {
    /// How many entries of a measure the context has.
    fn measure(self, by: Measure) -> u64
        ensures { result ≡ measure_in self by }
    {
        match by {
            Measure::Entries => self.entries,
            Measure::Cubes => self.binds.points,
            Measure::Terms => self.binds.terms,
        }
    }
}

/// The context that ends with the last cube entry, where one more entry comes behind those of a context.
fn scope_with(id: u64, entry: Entry, before: u64) -> u64
    ensures { IsScopeWith id entry before result }
{
    match entry {
        Entry::Cube(_) => id,
        Entry::Tope(_) | Entry::Term(_) => before,
    }
}

/// An entry that was found in a context.
#[derive(Clone, Copy, Debug)]
pub struct FoundEntry {
    /// The entry, and what stands before it.
    pub last: Last,
    /// How many variables are bound behind it.
    pub depth: Counts,
}

/// The summaries of the first nodes of a pool, by their ids.
#[derive(Debug, Drop)]
pub struct Summaries {
    summaries: Vec<Summary>,
}

impl Summaries {
    /// The summaries of no nodes.
    pub fn new(alloc: Global) -> Summaries
        ensures { (nodes : _) → AreSummaries nodes result.summaries.items }
    {
        Summaries {
            summaries: Vec::new(alloc),
        }
    }

    /// Notes the summaries of all nodes of a pool that have none yet.
    pub fn learn(&mut self, pool: &Pool) -> Result<(), OutOfMemory>
        requires { AreSummaries pool.now.nodes self.old.summaries.items }
        ensures summaries { AreSummaries pool.now.nodes self.new.summaries.items }
        ensures all { IfOk result (λ done. length self.new.summaries.items ≡ length pool.now.nodes) }
    {
        while (self.summaries.len() as u64) < pool.len() {
            let summary = self.summary_of(pool, self.summaries.len() as u64)?;
            self.summaries.push(summary)?;
        }
        Ok(())
    }

    /// The summary of the next node.
    fn summary_of(&self, pool: &Pool, id: u64) -> Result<Summary, OutOfMemory>
        requires summaries { AreSummaries pool.now.nodes self.now.summaries.items }
        requires next { id ≡ length self.now.summaries.items }
        requires there { id < length pool.now.nodes }
        ensures low { IfOk result (IsLow id) }
        ensures summary { IfOk result (IsSummary pool.now.nodes id) }
    {
        let Some(last) = last_entry(pool, id) else {
            return Ok(Summary {
                entries: 0,
                binds: Counts::NONE,
                further_out: id,
                scope: id,
            });
        };
        let before = self.at(last.before);
        Ok(Summary {
            entries: one_more(before.entries)?,
            binds: deeper(before.binds, last.entry)?,
            further_out: self.further_out(last.before),
            scope: scope_with(id, last.entry, before.scope),
        })
    }

    /// The context at the start of this one that ends with its last cube entry, or has no entry.
    pub fn scope(&self, context: u64) -> u64
        requires low { AreLow self.now.summaries.items }
        requires known { context < length self.now.summaries.items }
        ensures low { result ≤ context }
        ensures cubes { (nodes : _) → AreSummaries nodes self.now.summaries.items
            → cubes_of (tree_of nodes result) ≡ cubes_of (tree_of nodes context) }
    {
        self.at(context).scope
    }

    /// The summary of a node.
    fn at(&self, id: u64) -> Summary
        requires { id < length self.now.summaries.items }
        ensures { slice_get self.now.summaries.items id ≡ Some result }
    {
        self.summaries[id as usize]
    }

    /// The context to know behind this one: that which the context known here knows, where the way to the latter is as
    /// long as the way on; else this one.
    fn further_out(&self, id: u64) -> u64
        requires low { AreLow self.now.summaries.items }
        requires known { id < length self.now.summaries.items }
        ensures low { result ≤ id }
        ensures start { (nodes : _) → AreSummaries nodes self.now.summaries.items
            → IsStart (tree_of nodes result) (tree_of nodes id) }
    {
        let near = self.at(id);
        let far = self.at(near.further_out);
        let farthest = self.at(far.further_out);
        let way = near.entries.checked_sub(far.entries);
        if way == far.entries.checked_sub(farthest.entries) {
            far.further_out
        } else {
            id
        }
    }

    /// The entry of a context with this number, counted by a measure from 0 at the innermost; `None` where it has none.
    pub fn find(&self, pool: &Pool, context: u64, by: Measure, number: u64) -> Option<FoundEntry>
        requires summaries { AreSummaries pool.now.nodes self.now.summaries.items }
        requires known { context < length self.now.summaries.items }
        ensures found { IfSome result (IsFound pool.now.nodes context by number) }
        ensures none { IfNone result (measured by (tree_of pool.now.nodes context) ≤ number) }
    {
        let whole = self.at(context);
        let count = whole.measure(by);
        if count <= number {
            return None;
        }
        let (at, last) = self.entry_behind(pool, context, by, count - number - 1)?;
        let outer = self.at(at);
        Some(FoundEntry {
            last,
            depth: Counts {
                points: whole.binds.points - outer.binds.points,
                terms: whole.binds.terms - outer.binds.terms,
            },
        })
    }

    /// The context at the start of this one whose last entry is the first with so many before it, by a measure, and
    /// that entry.
    fn entry_behind(
        &self,
        pool: &Pool,
        context: u64,
        by: Measure,
        before: u64,
    ) -> Option<(u64, Last)>
        requires summaries { AreSummaries pool.now.nodes self.now.summaries.items }
        requires known { context < length self.now.summaries.items }
        requires there { before < measured by (tree_of pool.now.nodes context) }
        ensures behind { IfSome result (IsBehind pool.now.nodes context by before) }
        ensures some { IsSome result }
    {
        let mut at = context;
        while let Some(last) = last_entry(pool, at) {
            match self.next(at, last, by, before) {
                Some(next) => at = next,
                None => return Some((at, last)),
            }
        }
        None
    }

    /// The context to look at next, further out, where more than so many entries are before it; `None` where the last
    /// entry of this one is the first with so many before it.
    fn next(&self, at: u64, last: Last, by: Measure, before: u64) -> Option<u64>
        requires low { AreLow self.now.summaries.items }
        requires known { at < length self.now.summaries.items }
        requires last { last.before < at }
        ensures lower { IfSome result (λ next. next < at) }
        ensures next { (nodes : _) → AreSummaries nodes self.now.summaries.items
            → IsLast nodes at last → IfSome result (IsNext nodes at by before) }
        ensures none { (nodes : _) → AreSummaries nodes self.now.summaries.items
            → IfNone result (measured by (tree_of nodes last.before) ≤ before) }
    {
        let far = self.at(at).further_out;
        if far < at && before < self.at(far).measure(by) {
            Some(far)
        } else if before < self.at(last.before).measure(by) {
            Some(last.before)
        } else {
            None
        }
    }
}
