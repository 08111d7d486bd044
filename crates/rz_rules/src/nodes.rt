//! Nodes: trees whose parts are named by ids.

ghost use Rattle.std.specs.Prelude.{◌≡◌, [], ◌∷◌, ◌++◌, ◌<◌, ◌≤◌, ◌^◌, true, false, length, slice_get, nat_eq, ◌↔◌, IsTrue, IsOk, IfOk};
ghost use Rattle.rz_rules.specs.Form.{is_numbered, is_named};
ghost use Rattle.rz_rules.specs.Name.{IsName};
ghost use Rattle.rz_rules.specs.Tree.{IsLabelled};
ghost use Rattle.std.specs.Cmp.{partial_equiv_from_equiv};
ghost use Rattle.std.specs.Cmp.Lexicographic.{pointwise, nat_list_eq_equiv};
ghost use Rattle.std.specs.Cmp.Rules.{hashing};
ghost use Rattle.std.specs.Hash as fed;
ghost use Rattle.std.proofs.Common.{rules};

use crate::kinds::{Kind, Role};
use crate::lists::{Name, TryCopy};
use crate::memory::OutOfMemory;
use crate::names::is_name;
use std::hash::{Hash, Hasher};
use std::marker::Model;

/// The ids of a node's kids, or of a judgment's parts, in order: a list of at most seven.
#[derive(Debug, Drop)]
pub struct Kids {
    /// How many there are.
    pub count: u8,
    /// The ids; from `count` on they are 0.
    pub at: [u64; 7],
}

impl Model for Kids {
    ghost use Rattle.std.specs.Prelude.{List, ℕ, take};
    ghost use Rattle.rz_rules.specs.Kids.{AreKids};

    ghost Value = { List ℕ };

    ghost view = { λ kids. take kids.count kids.at };

    ghost invariant = { λ kids. AreKids kids.count kids.at };
}

impl Kids {
    /// No kids.
    pub fn new() -> Kids
        ensures { result ≡ [] }
    {
        Kids {
            count: 0,
            at: [0; 7],
        }
    }

    /// The list of these ids.
    pub fn from_slice(ids: &[u64]) -> Kids
        requires { length ids.now ≤ 7 }
        ensures { result ≡ ids.now }
    {
        let mut kids = Kids::new();
        for id in ids {
            kids.push(*id);
        }
        kids
    }

    /// Adds an id at the end.
    pub fn push(&mut self, id: u64)
        requires { length self.old < 7 }
        ensures { self.new ≡ self.old ++ id ∷ [] }
    {
        self.at[self.count as usize] = id;
        self.count += 1;
    }

    /// The ids in order.
    pub fn as_slice(&self) -> &[u64]
        ensures value { result.now ≡ self.now }
        ensures few { length self.now ≤ 7 }
    {
        &self.at[..self.count as usize]
    }

    /// How many there are.
    pub fn len(&self) -> u64
        ensures value { result ≡ length self.now }
        ensures few { length self.now ≤ 7 }
    {
        u64::from(self.count)
    }

    /// The id at a place, counted from 0; `None` from the length on.
    pub fn get(&self, place: u64) -> Option<u64>
        ensures { result ≡ slice_get self.now place }
    {
        self.as_slice().get(place as usize).copied()
    }

    /// An equal list. It takes no memory, and is never refused.
    pub fn copy(&self) -> Result<Kids, OutOfMemory>
        ensures copy { IfOk result (λ kids. kids ≡ self.now) }
        ensures succeeds { IsOk result }
    {
        Ok(Kids {
            count: self.count,
            at: self.at,
        })
    }
}

impl PartialEq for Kids {
    ghost eq = { pointwise nat_eq };

    ghost laws = { partial_equiv_from_equiv nat_list_eq_equiv };

    fn eq(&self, other: &Kids) -> bool {
        self.as_slice() == other.as_slice()
    }
}

impl Eq for Kids {
    ghost laws = { nat_list_eq_equiv };
}

impl Hash for Kids {
    ghost hash_input = { fed.slice fed.u64 };

    ghost respects_eq = { Prim.search (hashing, rules) };

    fn hash<H: Hasher>(&self, state: &mut H) {
        self.as_slice().hash(state);
    }
}

/// Whether a node of this role may have this name, the empty one standing for none.
fn is_name_for(role: Role, name: &str) -> bool
    ensures { IsTrue result
        ↔ ((is_named role ≡ false → name.now ≡ []) × (is_named role ≡ true → IsName name.now)) }
{
    if role.is_named() {
        is_name(name.as_bytes())
    } else {
        name.is_empty()
    }
}

/// Whether a node of this role may have this number.
fn is_number_for(role: Role, number: u64) -> bool
    ensures { IsTrue result ↔ ((number < 2 ^ 32) × (is_numbered role ≡ false → number ≡ 0)) }
{
    number < 1 << 32 && (role.is_numbered() || number == 0)
}

/// A node.
#[derive(Debug, Drop, PartialEq, Eq, Hash)]
pub struct Node {
    pub kind: Kind,
    /// The index of a variable, below 2^32; 0 elsewhere.
    pub number: u64,
    /// The name of a constant or a postulate; empty elsewhere.
    pub name: Name,
    /// The ids of its kids, each below the node's own.
    pub kids: Kids,
}

impl Node {
    /// Whether its number and its name are such as its kind has.
    pub fn is_labelled(&self) -> bool
        ensures { IsTrue result ↔ IsLabelled self.now.kind self.now.number self.now.name }
    {
        let role = self.kind.form().role;
        is_number_for(role, self.number) && is_name_for(role, self.name.as_str())
    }

    /// An equal node.
    pub fn copy(&self) -> Result<Node, OutOfMemory>
        ensures { IfOk result (λ node. node ≡ self.now) }
    {
        Ok(Node {
            kind: self.kind,
            number: self.number,
            name: self.name.copy()?,
            kids: self.kids.copy()?,
        })
    }
}

impl TryCopy for Node {
    fn try_copy(&self) -> Result<Node, OutOfMemory> {
        self.copy()
    }
}
