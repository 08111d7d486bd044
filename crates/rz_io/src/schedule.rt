//! Faults that are planned by the number of the call.

ghost use Rattle.std.specs.Prelude.{◌≡◌, ◌≤◌};
ghost use Rattle.rz_io.specs.Memory.{no_call_yet, next_fails, after_call};

use rz_rules::Numbers;
use std::marker::Model;

/// Which calls of a device fail, and how many it had.
#[derive(Drop)]
pub struct FaultSchedule {
    fails: Numbers,
    calls: u64,
    faults: u64,
}

impl Model for FaultSchedule {
    ghost use Rattle.rz_io.specs.Memory.{FaultSchedule};

    ghost Value = { FaultSchedule };

    ghost view = { λ schedule. record {
      fails = schedule.fails;
      calls = schedule.calls;
      faults = schedule.faults;
    } };
}

impl FaultSchedule {
    /// No call yet. These are the numbers of the calls that fail, from 0, in any order.
    pub fn new(fails: Numbers) -> Self
        ensures { result ≡ no_call_yet fails }
    {
        FaultSchedule {
            fails,
            calls: 0,
            faults: 0,
        }
    }

    /// Counts one more call, and answers whether it fails.
    pub fn next_call(&mut self) -> bool
        ensures fails { result ≡ next_fails self.old }
        ensures counted { self.new ≡ after_call self.old }
        ensures never_falls { self.old.faults ≤ self.new.faults }
    {
        let fails = self.calls < u64::MAX && self.fails.as_slice().contains(&self.calls);
        self.calls = self.calls.saturating_add(1);
        if fails {
            self.faults = self.faults.saturating_add(1);
        }
        fails
    }

    /// How many calls failed; the count stops at 2^64 - 1.
    pub fn faults(&self) -> u64
        ensures { result ≡ self.now.faults }
    {
        self.faults
    }
}
