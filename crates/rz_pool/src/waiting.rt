//! Ids that wait for a walk.

ghost use Rattle.std.specs.Prelude.{ℕ, ◌≡◌, ◌||◌, OnOk};
ghost use Rattle.std.specs.BTreeSet.{contains};
ghost use Rattle.std.specs.List.{list_any};
ghost use Rattle.std.specs.Ordering.{nat_cmp, eq_by_cmp};

use rz_rules::OutOfMemory;
use std::collections::BTreeSet;

/// Adds numbers, ids of nodes or steps, to those that wait.
pub fn add_all(waiting: &mut BTreeSet<u64>, numbers: &[u64]) -> Result<(), OutOfMemory>
    ensures { OnOk result ((q : ℕ) → contains nat_cmp waiting.new q
        ≡ (contains nat_cmp waiting.old q || list_any (eq_by_cmp nat_cmp q) numbers.now)) }
{
    for number in numbers {
        waiting.insert(*number)?;
    }
    Ok(())
}
