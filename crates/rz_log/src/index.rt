//! From judgments to the first lines that say them.

ghost use Rattle.std.specs.Prelude.{◌≡◌, ◌⊎◌, ◌++◌, ◌∷◌, [], List, length, Some, None, OnOk, OnErr};
ghost use Rattle.rz_rules.specs.declared.judgments.Judgment.{Judgment};
ghost use Rattle.rz_log.specs.Index.{IsIndex, key_of, step_in};

use rz_pool::HashKey;
use rz_rules::{Judgment, Kids, OutOfMemory};
use std::alloc::Global;
use std::collections::HashMap;

/// A judgment as the index finds it. How many parts there are tells which judgment it is.
#[derive(Debug, Drop, PartialEq, Eq, Hash)]
struct Key {
    /// The id of its context.
    context: u64,
    /// The ids of its parts behind the context.
    parts: Kids,
}

impl Key {
    /// The key of a judgment.
    fn of(says: Judgment) -> Key
        ensures { result ≡ key_of says }
    {
        Key {
            context: says.context(),
            parts: says.parts(),
        }
    }
}

/// For each judgment that a list says the first place that says it.
#[derive(Debug, Drop)]
pub struct Index {
    steps: HashMap<Key, u64, HashKey>,
}

impl Index {
    /// The index of no judgments.
    pub fn keyed(alloc: Global, key: HashKey) -> Index
        ensures { IsIndex [] result }
    {
        Index {
            steps: HashMap::with_hasher(alloc, key),
        }
    }

    /// The first place that says a judgment; `None` where none does.
    pub fn find(&self, says: Judgment) -> Option<u64>
        ensures { result ≡ step_in self.now says }
    {
        self.steps.get(&Key::of(says)).copied()
    }

    /// Notes the place of a judgment.
    fn note(&mut self, says: Judgment, step: u64) -> Result<(), OutOfMemory>
        ensures here { OnOk result (step_in self.new says ≡ Some step) }
        ensures others { OnOk result ((other : Judgment) → (key_of other ≡ key_of says)
            ⊎ (step_in self.new other ≡ step_in self.old other)) }
        ensures err { OnErr result ((other : Judgment)
            → step_in self.new other ≡ step_in self.old other) }
    {
        self.steps.insert(Key::of(says), step)?;
        Ok(())
    }

    /// Has no place for a judgment any more.
    fn forget(&mut self, says: Judgment)
        ensures here { step_in self.new says ≡ None }
        ensures others { (other : Judgment) → (key_of other ≡ key_of says)
            ⊎ (step_in self.new other ≡ step_in self.old other) }
    {
        self.steps.remove(&Key::of(says));
    }

    /// Tells of one judgment more, at the end of the list.
    pub fn add(&mut self, says: Judgment, step: u64) -> Result<(), OutOfMemory>
        ensures ok { OnOk result ((said : List Judgment) → IsIndex said self.old
            → step ≡ length said → IsIndex (said ++ says ∷ []) self.new) }
        ensures err { OnErr result ((said : List Judgment) → IsIndex said self.old
            → IsIndex said self.new) }
    {
        match self.find(says) {
            Some(_) => {}
            None => self.note(says, step)?,
        }
        Ok(())
    }

    /// Forgets the judgment at the end of the list.
    pub fn remove(&mut self, says: Judgment, step: u64)
        ensures { (said : List Judgment) → IsIndex (said ++ says ∷ []) self.old
            → step ≡ length said → IsIndex said self.new }
    {
        match self.find(says) {
            Some(first) => {
                if first == step {
                    self.forget(says);
                }
            }
            None => {}
        }
    }
}
