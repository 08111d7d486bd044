//! The nodes that lines need.

ghost use Rattle.std.specs.Prelude.{ℕ, ◌<◌, ◌≡◌, ◌↔◌, length, All, Contains, IfOk};
ghost use Rattle.rz_log.specs.Reachable.{IsRising};
ghost use Rattle.rz_log.specs.World.{IsSound};
ghost use Rattle.rz_export.specs.Needs.{IsNeeded, names_at};

use rz_log::{Log, World};
use rz_pool::{Pool, add_all};
use rz_rules::{Numbers, OutOfMemory};
use std::alloc::Global;
use std::collections::{BTreeSet, VecDeque};

/// The ids that the lines of these steps name, line by line.
fn named_ids(alloc: Global, log: &Log, steps: &[u64]) -> Result<Numbers, OutOfMemory>
    requires { All (λ step. step < length log.now) steps.now }
    ensures { IfOk result (λ ids. ids ≡ names_at log.now steps.now) }
{
    let mut ids = Numbers::new(alloc);
    for step in steps {
        let says = log.line(*step).says;
        ids.push(says.context())?;
        ids.extend_from_slice(says.parts().as_slice())?;
    }
    Ok(ids)
}

/// These ids and those of their trees' parts, each once, rising.
fn parts_of(alloc: Global, pool: &Pool, named: &[u64]) -> Result<Numbers, OutOfMemory>
    requires { All (λ id. id < length pool.now.nodes) named.now }
    ensures exact { IfOk result (λ ids. (id : ℕ)
        → Contains ids id ↔ IsNeeded pool.now.nodes named.now id) }
    ensures rising { IfOk result IsRising }
{
    let mut waiting = BTreeSet::new(alloc);
    add_all(&mut waiting, named)?;
    let mut rising = VecDeque::new(alloc);
    while let Some(id) = waiting.pop_last() {
        add_all(&mut waiting, pool.node(id).kids.as_slice())?;
        rising.push_front(id)?;
    }
    Ok(Numbers::from_vec(rising.into_vec()))
}

/// The ids of the nodes that the lines of these steps name, and of their parts, rising.
pub fn needed_ids(alloc: Global, w: &World, steps: &[u64]) -> Result<Numbers, OutOfMemory>
    requires sound { IsSound w.now }
    requires live { All (λ step. step < length w.now.log) steps.now }
    ensures exact { IfOk result (λ ids. (id : ℕ)
        → Contains ids id ↔ IsNeeded w.now.pool.nodes (names_at w.now.log steps.now) id) }
    ensures rising { IfOk result IsRising }
{
    let named = named_ids(alloc, &w.log, steps)?;
    parts_of(alloc, &w.pool, named.as_slice())
}
