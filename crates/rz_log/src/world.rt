//! A pool and a log over it.

ghost use Rattle.std.specs.Prelude.{◌≡◌, ◌≤◌, ◌∷◌, ◌++◌, [], length, take, IfOk, OnErr, OnOk};
ghost use Rattle.rz_rules.specs.Derivation.{Follows};
ghost use Rattle.rz_rules.specs.Judgment.{statement};
ghost use Rattle.rz_rules.specs.Tree.{trees_in};
ghost use Rattle.rz_log.specs.Log.{IsLineOver, step_of};
ghost use Rattle.rz_log.specs.World.{Adds, EndsBelow, Grows, IsSound, Says, statements_in};

use crate::log::Log;
use rz_pool::{HashKey, Pool};
use rz_rules::{Line, OutOfMemory};
use std::alloc::Global;

/// Trees, and what is derived of them.
#[derive(Debug, Drop)]
pub struct World {
    pub pool: Pool,
    pub log: Log,
}

/// How far a world had grown: how many nodes and how many lines it had.
#[derive(Clone, Copy, Debug, PartialEq, Eq)]
pub struct Mark {
    pub nodes: u64,
    pub lines: u64,
}

impl World {
    /// The world without trees and lines, which grows in the given allocator.
    pub fn new(alloc: Global) -> World
        ensures nodes { result.pool.nodes ≡ [] }
        ensures lines { result.log ≡ [] }
        ensures sound { IsSound result }
    {
        World::keyed(alloc, HashKey::KNOWN)
    }

    /// The same, whose tables hash by this key. No answer depends on the key.
    pub fn keyed(alloc: Global, key: HashKey) -> World
        ensures nodes { result.pool.nodes ≡ [] }
        ensures lines { result.log ≡ [] }
        ensures sound { IsSound result }
    {
        World {
            pool: Pool::keyed(alloc, key),
            log: Log::keyed(alloc, key),
        }
    }

    /// A step that says what a line says: the first that says it already, else a new one, with this
    /// line. The line follows by its row from lines of the log; nothing is tested. Where memory runs
    /// out, the world is as it was.
    pub fn add(&mut self, line: Line) -> Result<u64, OutOfMemory>
        requires sound { IsSound self.old }
        requires over { IsLineOver self.old.pool.nodes line }
        requires follows { Follows (statements_in self.old)
            (step_of self.old.pool.nodes line) }
        ensures says { IfOk result (λ step. Says self.new step
            (statement (trees_in self.old.pool.nodes) line.says)) }
        ensures adds { IfOk result (Adds self.old.log line self.new.log) }
        ensures nodes { self.new.pool.nodes ≡ self.old.pool.nodes }
        ensures grows { Grows self.old self.new }
        ensures err { OnErr result (self.new.log ≡ self.old.log) }
    {
        match self.log.find(line.says) {
            Some(step) => Ok(step),
            None => {
                let step = self.push(line)?;
                Ok(step)
            }
        }
    }

    /// A new step, with this line.
    fn push(&mut self, line: Line) -> Result<u64, OutOfMemory>
        requires sound { IsSound self.old }
        requires over { IsLineOver self.old.pool.nodes line }
        requires follows { Follows (statements_in self.old)
            (step_of self.old.pool.nodes line) }
        ensures says { IfOk result (λ step. Says self.new step
            (statement (trees_in self.old.pool.nodes) line.says)) }
        ensures step { IfOk result (λ step. step ≡ length self.old.log) }
        ensures lines { OnOk result (self.new.log ≡ self.old.log ++ line ∷ []) }
        ensures nodes { self.new.pool.nodes ≡ self.old.pool.nodes }
        ensures grows { Grows self.old self.new }
        ensures err { OnErr result (self.new.log ≡ self.old.log) }
    {
        let step = self.log.push(&self.pool, line)?;
        Ok(step)
    }

    /// How far the world has grown.
    pub fn mark(&self) -> Mark
        ensures nodes { result.nodes ≡ length self.now.pool.nodes }
        ensures lines { result.lines ≡ length self.now.log }
        ensures below { IsSound self.now → EndsBelow self.now result }
    {
        Mark {
            nodes: self.pool.mark(),
            lines: self.log.mark(),
        }
    }

    /// Ends the lines and the nodes from a mark on. No line that is left names a node from the mark on.
    pub fn release(&mut self, mark: Mark)
        requires nodes { mark.nodes ≤ length self.old.pool.nodes }
        requires lines { mark.lines ≤ length self.old.log }
        requires below { EndsBelow self.old mark }
        ensures nodes { self.new.pool.nodes ≡ take mark.nodes self.old.pool.nodes }
        ensures lines { self.new.log ≡ take mark.lines self.old.log }
        ensures sound { IsSound self.old → IsSound self.new }
    {
        self.log.release(mark.lines);
        self.pool.release(mark.nodes);
    }
}
