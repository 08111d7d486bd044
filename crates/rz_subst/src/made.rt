//! What became of places that a walk has come to.

ghost use Rattle.std.specs.Prelude.{IfSome, OnOk, ℕ, Contains, ◌⊎◌};
ghost use Rattle.rz_subst.specs.declared.walk.Place.{Place};
ghost use Rattle.rz_subst.specs.Made.{IsAmong, IsIn, AddsOnly, answered};

use crate::walk::Place;
use rz_pool::HashKey;
use rz_rules::OutOfMemory;
use std::alloc::Global;
use std::collections::HashMap;

/// How many answers are kept in a list, before a table is made of them.
const FEW: usize = 16;

/// A place, and the id of what became of the tree there.
#[derive(Clone, Copy)]
pub struct Answered {
    pub place: Place,
    pub id: u64,
}

/// What became of places.
#[derive(Drop)]
pub struct Made {
    /// The first answers.
    pub few: Vec<Answered>,
    /// All of them, once they are more than a few.
    pub many: HashMap<Place, u64, HashKey>,
}

impl Made {
    /// No answers yet. The key is for the table.
    pub fn new(alloc: Global, key: HashKey) -> Made
        ensures { (place : Place) (id : ℕ) → IsAmong result place id → ⊥ }
    {
        Made {
            few: Vec::new(alloc),
            many: HashMap::with_hasher(alloc, key),
        }
    }

    /// What became of a place, where that is known.
    pub fn find(&self, place: Place) -> Option<u64>
        ensures { IfSome result (IsAmong self.now place) }
    {
        if self.many.is_empty() {
            find_among(&self.few, place)
        } else {
            self.many.get(&place).copied()
        }
    }

    /// Adds an answer.
    pub fn add(&mut self, place: Place, id: u64) -> Result<(), OutOfMemory>
        ensures { OnOk result (AddsOnly self.old self.new place id) }
    {
        if self.few.len() < FEW {
            self.few.push(Answered { place, id })?;
            return Ok(());
        }
        if self.many.is_empty() {
            add_all(&self.few, &mut self.many)?;
        }
        self.many.insert(place, id)?;
        Ok(())
    }
}

/// What became of a place, by a list.
fn find_among(few: &[Answered], place: Place) -> Option<u64>
    ensures { IfSome result (λ id. Contains few.now (answered place id)) }
{
    for answered in few {
        if answered.place == place {
            return Some(answered.id);
        }
    }
    None
}

/// Adds the answers of a list to a table.
fn add_all(few: &[Answered], many: &mut HashMap<Place, u64, HashKey>) -> Result<(), OutOfMemory>
    ensures { OnOk result ((place : Place) (id : ℕ) → IsIn many.new place id
        → IsIn many.old place id ⊎ Contains few.now (answered place id)) }
{
    for answered in few {
        many.insert(answered.place, answered.id)?;
    }
    Ok(())
}
