//! The words of a line as a node.

ghost use Rattle.std.specs.Prelude.{◌≡◌, ◌≢◌, ℕ, ◌∷◌, ◌++◌, List, IfOk, IfSome, IfNone, false, codes};
ghost use Rattle.rz_drv.specs.Items.{AreSmall};
ghost use Rattle.rz_drv.specs.Words.{words_in, own_number, SpellsNumbers, NoNumbersSpell, SpellsNode, NoNodeSpells, IsNodeOf, HasWords, NoneHas};

use crate::items::Item;
use crate::numbers::numbers_of;
use crate::words::name_of;
use rz_rules::{Kids, Kind, Name, Node, OutOfMemory, Worded};
use std::alloc::Global;

/// What the words of a node spell.
#[derive(Drop)]
pub struct NodeParts {
    pub kind: Kind,
    /// The name, where the kind has one; else empty.
    pub name: Name,
    /// The node's own number, where the kind has one, and its kids.
    pub numbers: Vec<u64>,
}

/// The node that words are, behind the first.
pub fn node_of(alloc: Global, words: &[&[u8]]) -> Result<Option<Item>, OutOfMemory>
    ensures found { IfOk result (λ answer. IfSome answer
        (HasWords (codes "n" ∷ words_in words.now))) }
    ensures none { IfOk result (λ answer. IfNone answer
        (NoneHas (codes "n" ∷ words_in words.now))) }
{
    let Some(parts) = node_parts(alloc, words)? else {
        return Ok(None);
    };
    match node_from(parts) {
        Some(node) => Ok(Some(Item::Node(node))),
        None => Ok(None),
    }
}

/// What these words spell as those of a node, behind the first.
fn node_parts(alloc: Global, words: &[&[u8]]) -> Result<Option<NodeParts>, OutOfMemory>
    ensures found { IfOk result (λ answer. IfSome answer (SpellsNode (words_in words.now))) }
    ensures none { IfOk result (λ answer. IfNone answer (NoNodeSpells (words_in words.now))) }
{
    let Some((word, rest)) = words.split_first() else {
        return Ok(None);
    };
    let Some(kind) = Kind::of_word(word) else {
        return Ok(None);
    };
    if !kind.form().role.is_named() {
        return with_numbers(alloc, kind, Name::new(alloc), rest);
    }
    let Some((word, rest)) = rest.split_first() else {
        return Ok(None);
    };
    match name_of(alloc, word)? {
        Some(name) => with_numbers(alloc, kind, name, rest),
        None => Ok(None),
    }
}

/// The parts of a node with this kind and this name, and the numbers that words spell.
fn with_numbers(
    alloc: Global,
    kind: Kind,
    name: Name,
    words: &[&[u8]],
) -> Result<Option<NodeParts>, OutOfMemory>
    ensures kind { IfOk result (λ answer. IfSome answer (λ parts. parts.kind ≡ kind)) }
    ensures name { IfOk result (λ answer. IfSome answer (λ parts. parts.name ≡ name)) }
    ensures numbers { IfOk result (λ answer. IfSome answer
        (λ parts. SpellsNumbers (words_in words.now) parts.numbers.items)) }
    ensures none { IfOk result (λ answer. IfNone answer (NoNumbersSpell (words_in words.now))) }
{
    match numbers_of(alloc, words)? {
        Some(numbers) => Ok(Some(NodeParts {
            kind,
            name,
            numbers,
        })),
        None => Ok(None),
    }
}

/// The number of a node, where its kind has one, and its kids.
fn number_and_kids(numbered: bool, numbers: &[u64]) -> Option<(u64, &[u64])>
    ensures some { IfSome result (λ parts. own_number numbered parts.0 ++ parts.1.now
        ≡ numbers.now) }
    ensures unnumbered { IfSome result (λ parts. numbered ≡ false → parts.0 ≡ 0) }
    ensures none { IfNone result ((number : ℕ) (kids : List ℕ)
        → own_number numbered number ++ kids ≢ numbers.now) }
{
    if !numbered {
        return Some((0, numbers));
    }
    match numbers.split_first() {
        Some((number, kids)) => Some((*number, kids)),
        None => None,
    }
}

/// The node of these parts, where its kind has such a number and so many kids.
fn node_from(parts: NodeParts) -> Option<Node>
    requires { AreSmall parts.numbers.items }
    ensures found { IfSome result (IsNodeOf parts) }
    ensures none { IfNone result ((node : Node) → IsNodeOf parts node → ⊥) }
{
    let form = parts.kind.form();
    let (number, kids) = number_and_kids(form.role.is_numbered(), &parts.numbers)?;
    if kids.len() != form.kids.len() {
        return None;
    }
    let kids = Kids::from_slice(kids);
    let node = Node {
        kind: parts.kind,
        number,
        name: parts.name,
        kids,
    };
    if node.is_labelled() { Some(node) } else { None }
}
