//! What steps rest on.

ghost use Rattle.std.specs.Prelude.{ℕ, ◌<◌, ◌↔◌, length, All, Contains, IfOk};
ghost use Rattle.rz_log.specs.Reachable.{IsReachable, IsRising};

use crate::log::Log;
use rz_pool::add_all;
use rz_rules::{Numbers, OutOfMemory};
use std::alloc::Global;
use std::collections::{BTreeSet, VecDeque};

impl Log {
    /// The steps on which these rest, themselves among them, rising.
    ///
    /// It visits those steps alone, whatever the length of the log.
    pub fn reachable(&self, alloc: Global, roots: &Numbers) -> Result<Numbers, OutOfMemory>
        requires { All (λ root. root < length self.now) roots.now }
        ensures exact { IfOk result (λ steps. (step : ℕ)
            → Contains steps step ↔ IsReachable self.now roots.now step) }
        ensures rising { IfOk result IsRising }
    {
        let mut waiting = BTreeSet::new(alloc);
        add_all(&mut waiting, roots.as_slice())?;
        let mut rising = VecDeque::new(alloc);
        while let Some(step) = waiting.pop_last() {
            add_all(&mut waiting, self.line(step).from.as_slice())?;
            rising.push_front(step)?;
        }
        Ok(Numbers::from_vec(rising.into_vec()))
    }
}
