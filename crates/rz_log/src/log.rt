//! A log: lines, each of which follows by its row from earlier ones.

ghost use Rattle.std.specs.Prelude.{◌≡◌, ◌∷◌, ◌++◌, ◌<◌, ◌≤◌, ◌-◌, [], length, take, slice_get, All, Some, IfOk, OnOk, OnErr};
ghost use Rattle.rz_rules.specs.Derivation.{Follows};
ghost use Rattle.rz_log.specs.Index.{IsFirst};
ghost use Rattle.rz_log.specs.Log.{IsLineOver, IsSoundLog, judgments_of, statements_of, step_of};

use crate::index::Index;
use rz_pool::{HashKey, Pool};
use rz_rules::{Judgment, Line, OutOfMemory};
use std::alloc::Global;
use std::marker::Model;

/// Lines by their numbers, which count up from 0 in the order in which the lines were made.
#[derive(Debug, Drop)]
pub struct Log {
    lines: Vec<Line>,
    /// From each judgment that a line says to the first such line.
    index: Index,
}

impl Model for Log {
    ghost use Rattle.std.specs.Prelude.{List};
    ghost use Rattle.rz_rules.specs.declared.judgments.Line.{Line};
    ghost use Rattle.rz_log.specs.Log.{AreEarlier, judgments_of};
    ghost use Rattle.rz_log.specs.Index.{IsIndex};

    ghost Value = { List Line };

    ghost view = { λ log. log.lines.items };

    ghost invariant = { λ log. AreEarlier log.lines.items
        × IsIndex (judgments_of log.lines.items) log.index };
}

impl Log {
    /// The empty log, which grows in the given allocator and hashes by a key that everybody knows.
    pub fn new(alloc: Global) -> Log
        ensures { result ≡ [] }
    {
        Log::keyed(alloc, HashKey::KNOWN)
    }

    /// The empty log, which grows in the given allocator and hashes by this key. No answer depends
    /// on the key.
    pub fn keyed(alloc: Global, key: HashKey) -> Log
        ensures { result ≡ [] }
    {
        Log {
            lines: Vec::new(alloc),
            index: Index::keyed(alloc, key),
        }
    }

    /// How many lines there are: the steps are the numbers below it.
    pub fn len(&self) -> u64
        ensures { result ≡ length self.now }
    {
        self.lines.len() as u64
    }

    /// The line with a number.
    pub fn line(&self, step: u64) -> &Line
        requires { step < length self.now }
        ensures line { slice_get self.now step ≡ Some result.now }
        ensures earlier { All (λ premise. premise < step) result.now.from }
    {
        &self.lines[step as usize]
    }

    /// The first step that says a judgment; `None` where none does.
    pub fn find(&self, says: Judgment) -> Option<u64>
        ensures { IsFirst (judgments_of self.now) says result }
    {
        let _ = &self.lines;
        self.index.find(says)
    }

    /// Adds a line at the end, and answers its number. The line follows by its row from lines of this
    /// log; nothing is tested.
    pub fn push(&mut self, pool: &Pool, line: Line) -> Result<u64, OutOfMemory>
        requires over { IsLineOver pool.now.nodes line }
        requires follows { Follows (statements_of pool.now.nodes self.old)
            (step_of pool.now.nodes line) }
        ensures step { IfOk result (λ step. step ≡ length self.old) }
        ensures lines { OnOk result (self.new ≡ self.old ++ line ∷ []) }
        ensures sound { OnOk result (IsSoundLog pool.now.nodes self.old
            → IsSoundLog pool.now.nodes self.new) }
        ensures err { OnErr result (self.new ≡ self.old) }
    {
        let _ = pool.len();
        let step = self.len();
        let says = line.says;
        self.lines.reserve(1)?;
        self.index.add(says, step)?;
        self.lines.push(line)?;
        Ok(step)
    }

    /// The place to which `release` takes the log back: the number of its lines.
    pub fn mark(&self) -> u64
        ensures { result ≡ length self.now }
    {
        self.len()
    }

    /// Ends the lines from a mark on. The others stay, and so does the memory.
    pub fn release(&mut self, mark: u64)
        requires { mark ≤ length self.old }
        ensures { self.new ≡ take mark self.old }
    {
        while self.len() > mark {
            self.pop();
        }
    }

    /// Ends the last line.
    fn pop(&mut self)
        requires { 0 < length self.old }
        ensures { self.new ≡ take (length self.old - 1) self.old }
    {
        if let Some(line) = self.lines.pop() {
            let step = self.lines.len() as u64;
            self.index.remove(line.says, step);
        }
    }
}
