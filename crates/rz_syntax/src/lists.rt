//! Lists that share their ends, and stacks.

ghost use Rattle.std.specs.Prelude.{◌≡◌, ◌<◌, ◌-◌, [], ◌∷◌, ◌++◌, length, take, slice_get, IfOk, OnOk, IfNone, IfSome};
ghost use Rattle.rz_syntax.specs.Lists.{list_at, Grows};

use rz_rules::OutOfMemory;
use std::alloc::Global;
use std::marker::Model;

/// Lists, each named by a number. 0 is the empty list, and each other one is an item and a list
/// with a lesser number.
#[derive(Debug, Drop)]
pub struct Lists<T> {
    cells: Vec<(T, u64)>,
}

impl<T> Model for Lists<T> {
    ghost use Rattle.std.specs.Prelude.{List, [], ◌∷◌};
    ghost use Rattle.std.specs.Coded.{coded_list};
    ghost use Rattle.rz_syntax.specs.Lists.{grown, IsLinked};

    ghost Value = { List (List T) };

    ghost coded = { coded_list (coded_list T.code) };

    ghost view = { λ lists. grown ([] ∷ []) lists.cells.items };

    ghost invariant = { λ lists. IsLinked 1 lists.cells.items };
}

/// The number of the empty list.
pub const EMPTY: u64 = 0;

impl<T: Copy + Drop> Lists<T> {
    /// The empty list alone.
    pub fn new(alloc: Global) -> Self
        ensures { result ≡ [] ∷ [] }
    {
        Lists {
            cells: Vec::new(alloc),
        }
    }

    /// Adds the list of an item and of the items of a list.
    pub fn push(&mut self, first: T, others: u64) -> Result<u64, OutOfMemory>
        requires { others < length self.old }
        ensures number { IfOk result (λ list. list ≡ length self.old) }
        ensures added { OnOk result
            (self.new ≡ self.old ++ (first ∷ list_at self.old others) ∷ []) }
    {
        self.cells.push((first, others))?;
        Ok(self.cells.len() as u64)
    }

    /// Adds the list of these items and then of the items of a list.
    pub fn push_all(&mut self, items: &[T], others: u64) -> Result<u64, OutOfMemory>
        requires { others < length self.old }
        ensures within { IfOk result (λ list. list < length self.new) }
        ensures added { IfOk result
            (λ list. list_at self.new list ≡ items.now ++ list_at self.old others) }
        ensures grows { OnOk result (Grows self.old self.new) }
    {
        let mut list = others;
        for count in 0..items.len() {
            list = self.push(items[items.len() - 1 - count], list)?;
        }
        Ok(list)
    }

    /// How many lists there are.
    pub fn len(&self) -> u64
        ensures { result ≡ length self.now }
    {
        self.cells.len() as u64 + 1
    }

    /// The items of a list.
    pub fn items(&self, alloc: Global, list: u64) -> Result<Vec<T>, OutOfMemory>
        requires { list < length self.now }
        ensures { IfOk result (λ items. items.items ≡ list_at self.now list) }
    {
        let mut items = Vec::new(alloc);
        let mut list = list;
        while let Some((item, others)) = self.first(list) {
            items.push(item)?;
            list = others;
        }
        Ok(items)
    }

    /// The first item of a list, and the list of the others.
    pub fn first(&self, list: u64) -> Option<(T, u64)>
        requires { list < length self.now }
        ensures none { IfNone result (list_at self.now list ≡ []) }
        ensures some { IfSome result
            (λ cell. list_at self.now list ≡ cell.0 ∷ list_at self.now cell.1) }
        ensures before { IfSome result (λ cell. cell.1 < list) }
    {
        let cells = &self.cells;
        if list == EMPTY {
            return None;
        }
        let cell = cells[list as usize - 1];
        Some(cell)
    }
}

/// A stack, which contracts see as the list of its items, the top last.
#[derive(Debug, Drop)]
pub struct Stack<T> {
    items: Vec<T>,
}

impl<T> Model for Stack<T> {
    ghost use Rattle.std.specs.Prelude.{List};
    ghost use Rattle.std.specs.Coded.{coded_list};

    ghost Value = { List T };

    ghost coded = { coded_list T.code };

    ghost view = { λ stack. stack.items.items };
}

impl<T: Drop> Stack<T> {
    /// The stack without an item.
    pub fn new(alloc: Global) -> Self
        ensures { result ≡ [] }
    {
        Stack {
            items: Vec::new(alloc),
        }
    }

    /// Puts an item on top. A refused push drops it.
    pub fn push(&mut self, item: T) -> Result<(), OutOfMemory>
        ensures { OnOk result (self.new ≡ self.old ++ item ∷ []) }
    {
        self.items.push(item)?;
        Ok(())
    }

    /// Takes the item on top.
    pub fn pop(&mut self) -> Option<T>
        ensures top { result ≡ slice_get self.old (length self.old - 1) }
        ensures rest { self.new ≡ take (length self.old - 1) self.old }
    {
        self.items.pop()
    }
}
