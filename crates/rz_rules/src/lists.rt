//! Lists that contracts see as lists, numbered by `u64` from 0.

ghost use Rattle.std.specs.Prelude.{◌≡◌, [], ◌∷◌, ◌++◌, ◌<◌, length, slice_get, nat_eq, encode_utf8, IfOk, OnOk, OnErr, OnSome};
ghost use Rattle.std.specs.Cmp.{partial_equiv_from_equiv};
ghost use Rattle.std.specs.Cmp.Lexicographic.{pointwise, nat_list_eq_equiv, lists_per, lists_equiv};
ghost use Rattle.std.specs.Cmp.Rules.{hashing};
ghost use Rattle.std.specs.Hash as fed;
ghost use Rattle.std.specs.Hash.{items_Alike};
ghost use Rattle.std.specs.Option.{option_copied};
ghost use Rattle.std.specs.Str.{IsUtf8};
ghost use Rattle.std.proofs.Common.{rules};

use crate::memory::OutOfMemory;
use std::alloc::Global;
use std::hash::{Hash, Hasher};
use std::marker::Model;

/// A list of items that are copied, as numbers are.
#[derive(Debug, Drop)]
pub struct Values<T> {
    items: Vec<T>,
}

impl<T> Model for Values<T> {
    ghost use Rattle.std.specs.Prelude.{List};
    ghost use Rattle.std.specs.Coded.{coded_list};

    ghost Value = { List T };

    ghost coded = { coded_list T.code };

    ghost view = { λ list. list.items.items };
}

/// Bytes, of a file or a text.
pub type Bytes = Values<u8>;

/// Numbers: ids of nodes, steps or entries, as the place that holds them says.
pub type Numbers = Values<u64>;

/// Pairs of a line and a column, both from 1; a column counts characters.
pub type Places = Values<(u64, u64)>;

impl<T: Copy + Drop> Values<T> {
    /// The empty list, which grows in the given allocator.
    pub fn new(alloc: Global) -> Self
        ensures { result ≡ [] }
    {
        Values {
            items: Vec::new(alloc),
        }
    }

    /// Adds an item at the end.
    pub fn push(&mut self, item: T) -> Result<(), OutOfMemory>
        ensures ok { OnOk result (self.new ≡ self.old ++ item ∷ []) }
        ensures err { OnErr result (self.new ≡ self.old) }
    {
        self.items.push(item)?;
        Ok(())
    }

    /// Adds these items at the end, in their order.
    pub fn extend_from_slice(&mut self, items: &[T]) -> Result<(), OutOfMemory>
        ensures ok { OnOk result (self.new ≡ self.old ++ items.now) }
        ensures err { OnErr result (self.new ≡ self.old) }
    {
        self.items.extend_from_slice(items)?;
        Ok(())
    }

    /// How many items there are.
    pub fn len(&self) -> u64
        ensures { result ≡ length self.now }
    {
        self.items.len() as u64
    }

    /// The item at a place, counted from 0; `None` from the length on.
    pub fn get(&self, place: u64) -> Option<T>
        ensures { result ≡ slice_get self.now place }
    {
        self.items.get(place as usize).copied()
    }

    /// All items in order.
    pub fn as_slice(&self) -> &[T]
        ensures { result.now ≡ self.now }
    {
        self.items.as_slice()
    }

    /// An equal list, in the same allocator.
    pub fn copy(&self) -> Result<Self, OutOfMemory>
        ensures { IfOk result (λ list. list ≡ self.now) }
    {
        Values::from_slice(*self.items.allocator(), self.items.as_slice())
    }

    /// The list of the items of a vector, which takes no memory.
    pub fn from_vec(items: Vec<T>) -> Self
        ensures { result ≡ items.items }
    {
        Values { items }
    }

    /// Its items as a vector, which takes no memory.
    pub fn into_vec(self) -> Vec<T>
        ensures { result.items ≡ self }
    {
        self.items
    }

    /// The list of these items.
    pub fn from_slice(alloc: Global, items: &[T]) -> Result<Self, OutOfMemory>
        ensures { IfOk result (λ list. list ≡ items.now) }
    {
        let items = Vec::from_slice(alloc, items)?;
        Ok(Values { items })
    }
}

impl<T: PartialEq> PartialEq for Values<T> {
    ghost eq = { pointwise T.eq };

    ghost laws = { lists_per T.laws };

    fn eq(&self, other: &Values<T>) -> bool {
        self.items.as_slice() == other.items.as_slice()
    }
}

impl<T: Eq> Eq for Values<T> {
    ghost laws = { lists_equiv T.Eq.laws };
}

impl<T: Hash> Hash for Values<T> {
    ghost hash_input = { fed.slice T.hash_input };

    ghost respects_eq = { (items_Alike (record { fed = T.respects_eq })).fed };

    fn hash<H: Hasher>(&self, state: &mut H) {
        self.items.as_slice().hash(state);
    }
}

/// A list of items that are lent.
#[derive(Debug, Drop)]
pub struct Items<T> {
    items: Vec<T>,
}

impl<T> Model for Items<T> {
    ghost use Rattle.std.specs.Prelude.{List};
    ghost use Rattle.std.specs.Coded.{coded_list};

    ghost Value = { List T };

    ghost coded = { coded_list T.code };

    ghost view = { λ list. list.items.items };
}

impl<T: Drop> Items<T> {
    /// The empty list, which grows in the given allocator.
    pub fn new(alloc: Global) -> Self
        ensures { result ≡ [] }
    {
        Items {
            items: Vec::new(alloc),
        }
    }

    /// Adds an item at the end. A refused push drops it.
    pub fn push(&mut self, item: T) -> Result<(), OutOfMemory>
        ensures ok { OnOk result (self.new ≡ self.old ++ item ∷ []) }
        ensures err { OnErr result (self.new ≡ self.old) }
    {
        self.items.push(item)?;
        Ok(())
    }

    /// How many items there are.
    pub fn len(&self) -> u64
        ensures { result ≡ length self.now }
    {
        self.items.len() as u64
    }

    /// The item at a place, counted from 0; `None` from the length on.
    pub fn get(&self, place: u64) -> Option<&T>
        ensures value { option_copied result ≡ slice_get self.now place }
        ensures within { OnSome result (place < length self.now) }
    {
        self.items.get(place as usize)
    }

    /// All items in order.
    pub fn as_slice(&self) -> &[T]
        ensures { result.now ≡ self.now }
    {
        self.items.as_slice()
    }

    /// The list of the items of a vector, which takes no memory.
    pub fn from_vec(items: Vec<T>) -> Self
        ensures { result ≡ items.items }
    {
        Items { items }
    }

    /// Its items as a vector, which takes no memory.
    pub fn into_vec(self) -> Vec<T>
        ensures { result.items ≡ self }
    {
        self.items
    }
}

impl<T: TryCopy + Drop> Items<T> {
    /// An equal list, in the same allocator.
    pub fn copy(&self) -> Result<Self, OutOfMemory>
        ensures { IfOk result (λ list. list ≡ self.now) }
    {
        let mut items = Items::new(*self.items.allocator());
        for item in self.items.as_slice() {
            items.push(item.try_copy()?)?;
        }
        Ok(items)
    }
}

impl<T: PartialEq> PartialEq for Items<T> {
    ghost eq = { pointwise T.eq };

    ghost laws = { lists_per T.laws };

    fn eq(&self, other: &Items<T>) -> bool {
        self.items.as_slice() == other.items.as_slice()
    }
}

impl<T: Eq> Eq for Items<T> {
    ghost laws = { lists_equiv T.Eq.laws };
}

impl<T: Hash> Hash for Items<T> {
    ghost hash_input = { fed.slice T.hash_input };

    ghost respects_eq = { (items_Alike (record { fed = T.respects_eq })).fed };

    fn hash<H: Hasher>(&self, state: &mut H) {
        self.items.as_slice().hash(state);
    }
}

/// A value that can be copied where there is memory.
pub trait TryCopy {
    /// An equal value.
    fn try_copy(&self) -> Result<Self, OutOfMemory>
        ensures { IfOk result (λ copy. copy ≡ self.now) };
}

impl<T: Copy + Drop> TryCopy for Values<T> {
    fn try_copy(&self) -> Result<Self, OutOfMemory> {
        self.copy()
    }
}

impl TryCopy for Name {
    fn try_copy(&self) -> Result<Self, OutOfMemory> {
        self.copy()
    }
}

/// A name: text, seen as its bytes, which are UTF-8.
#[derive(Debug, Drop)]
pub struct Name {
    text: String,
}

impl Model for Name {
    ghost use Rattle.std.specs.Prelude.{List, ℕ, string_bytes};

    ghost Value = { List ℕ };

    ghost view = { λ name. string_bytes name.text };
}

impl Name {
    /// The empty name, which grows in the given allocator.
    pub fn new(alloc: Global) -> Self
        ensures { result ≡ [] }
    {
        Name {
            text: String::new(alloc),
        }
    }

    /// The name that is this text.
    pub fn from_text(alloc: Global, text: &str) -> Result<Self, OutOfMemory>
        ensures { IfOk result (λ name. name ≡ text.now) }
    {
        let text = String::from_str(alloc, text)?;
        Ok(Name { text })
    }

    /// Adds a character's bytes at the end.
    pub fn push(&mut self, item: char) -> Result<(), OutOfMemory>
        ensures ok { OnOk result (self.new ≡ self.old ++ encode_utf8 item) }
        ensures err { OnErr result (self.new ≡ self.old) }
    {
        self.text.push(item)?;
        Ok(())
    }

    /// How many bytes there are.
    pub fn len(&self) -> u64
        ensures { result ≡ length self.now }
    {
        self.text.len() as u64
    }

    /// The byte at a place, counted from 0; `None` from the length on.
    pub fn get(&self, place: u64) -> Option<u8>
        ensures { result ≡ slice_get self.now place }
    {
        self.text.as_bytes().get(place as usize).copied()
    }

    /// The name as text.
    pub fn as_str(&self) -> &str
        ensures value { result.now ≡ self.now }
        ensures text { IsUtf8 self.now }
    {
        self.text.as_str()
    }

    /// An equal name, in the same allocator.
    pub fn copy(&self) -> Result<Self, OutOfMemory>
        ensures { IfOk result (λ name. name ≡ self.now) }
    {
        Name::from_text(*self.text.allocator(), self.text.as_str())
    }
}

impl PartialEq for Name {
    ghost eq = { pointwise nat_eq };

    ghost laws = { partial_equiv_from_equiv nat_list_eq_equiv };

    fn eq(&self, other: &Name) -> bool {
        self.as_str() == other.as_str()
    }
}

impl Eq for Name {
    ghost laws = { nat_list_eq_equiv };
}

impl Hash for Name {
    ghost hash_input = { fed.str };

    ghost respects_eq = { Prim.search (hashing, rules) };

    fn hash<H: Hasher>(&self, state: &mut H) {
        self.as_str().hash(state);
    }
}
