//! A line as an item, whatever stands before it.

ghost use Rattle.std.specs.Prelude.{◌≡◌, ◌≢◌, ℕ, ◌∷◌, ◌==◌, List, IfOk, IfSome, IfNone, codes};
ghost use Rattle.std.specs.List.{slice_split};
ghost use Rattle.rz_rules.specs.Name.{IsName};
ghost use Rattle.rz_drv.specs.Words.{words_in, HasWords, NoneHas};

use crate::nodes::node_of;
use crate::numbers::number_of;
use crate::steps::step_of;
use crate::words::{name_of, split_words};
use rz_rules::{Line, Name, Node, OutOfMemory};
use std::alloc::Global;

const NODE: &[u8] = b"n";

const STEP: &[u8] = b"s";

const CLAIM: &[u8] = b"c";

/// What stands in a line of its own, over the numbers of the file's nodes and steps, each counted from 0.
#[derive(Debug, Drop)]
pub enum Item {
    /// A node, whose kids are nodes.
    Node(Node),
    /// A step: its judgment names nodes, its premises are steps.
    Step(Line),
    /// A claim: a name for what a step says.
    Claim(Name, u64),
}

/// The item that a line is, without its line feed; `None` where it is none.
pub fn item_of(alloc: Global, line: &[u8]) -> Result<Option<Item>, OutOfMemory>
    ensures found { IfOk result (λ answer. IfSome answer
        (HasWords (slice_split (λ b. b == 32) line.now))) }
    ensures none { IfOk result (λ answer. IfNone answer
        (NoneHas (slice_split (λ b. b == 32) line.now))) }
{
    let words = split_words(alloc, line)?;
    let Some((first, rest)) = words.split_first() else {
        return Ok(None);
    };
    if *first == NODE {
        node_of(alloc, rest)
    } else if *first == STEP {
        step_of(alloc, rest)
    } else if *first == CLAIM {
        claim_of(alloc, rest)
    } else {
        Ok(None)
    }
}

/// The claim that words are, behind the first.
fn claim_of(alloc: Global, words: &[&[u8]]) -> Result<Option<Item>, OutOfMemory>
    ensures found { IfOk result (λ answer. IfSome answer
        (HasWords (codes "c" ∷ words_in words.now))) }
    ensures none { IfOk result (λ answer. IfNone answer
        (NoneHas (codes "c" ∷ words_in words.now))) }
{
    let [name, step] = words else {
        return Ok(None);
    };
    let Some(step) = number_of(step) else {
        return Ok(None);
    };
    match name_of(alloc, name)? {
        Some(name) => Ok(Some(Item::Claim(name, step))),
        None => Ok(None),
    }
}
