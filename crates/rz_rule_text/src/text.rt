//! A text as judgments over a pool.
//!
//! The text is read from its end. A symbol takes its trees from the top of a stack and puts one there; a judgment takes its
//! context and its parts. Where an index would reach 2^32 there is no node; such a tree is only ever a part of others, and
//! the judgment that it is a part of is none.

ghost use Rattle.std.specs.Prelude.{◌≡◌, ◌≤◌, ◌<◌, ◌∷◌, List, length, take, drop, map, true, All, Contains, Some, None, IsTrue, IfOk, IfSome, IfNone, OnOk};
ghost use Rattle.std.specs.Bool.{OnTrue, OnFalse};
ghost use Rattle.rz_rules.specs.Tree.{trees_in};
ghost use Rattle.rz_rules.specs.Judgment.{sorts_of, statement};
ghost use Rattle.rz_rules.specs.Form.{form};
ghost use Rattle.rz_rules.specs.Row.{Assignment, name_of, number_of, spelled};
ghost use Rattle.rz_rules.specs.Text.{IsText};
ghost use Rattle.rz_rules.specs.declared.symbols.Symbol.{Symbol};
ghost use Rattle.rz_pool.specs.Pool.{Grows, IsPool};
ghost use Rattle.rz_rule_text.specs.Letters.{assignment_of, is_row_name, name_in, tree_for};
ghost use Rattle.rz_rule_text.specs.Spelling.{Answers, AreLetters, CanMake, CanPut, IsJudgmentOver, IsMadeOf, IsNamed, IsTooHigh, Keeps, SaysOnTop, first_of};

use crate::substitution;
use rz_pool::Pool;
use rz_rules::{Judgment, JudgmentKind, Kids, Kind, Label, Name, Node, OutOfMemory, Symbol};
use std::alloc::Global;
use std::collections::VecDeque;

/// What the end of a text spells.
#[derive(Drop)]
struct Stack {
    /// The trees that no judgment has taken yet, the top first; `None` where an index reaches 2^32.
    trees: VecDeque<Option<u64>>,
    /// The judgments, in the order of the text.
    said: VecDeque<Judgment>,
}

/// The judgments that a text spells, where its letters, by their numbers, stand for these trees of the pool, and its name is
/// that of a node; `None` where an index in one of them would reach 2^32.
pub fn spell(
    alloc: Global,
    pool: &mut Pool,
    text: &[Symbol],
    letters: &[Option<u64>],
    name: Option<u64>,
) -> Result<Option<Vec<Judgment>>, OutOfMemory>
    requires pool { IsPool pool.old.nodes }
    requires text { IsText text.now }
    requires letters { AreLetters pool.old.nodes text.now letters.now name }
    ensures spells { IfOk result
        (λ answer. IfSome answer
        (λ said. (spelled text.now (assignment_of pool.old.nodes letters.now name)).statements
        ≡ map (statement (trees_in pool.new.nodes)) said.items)) }
    ensures over { IfOk result
        (λ answer. IfSome answer (λ said. All (IsJudgmentOver pool.new.nodes) said.items)) }
    ensures none { IfOk result (λ answer. IfNone answer
        (IsTooHigh text.now (assignment_of pool.old.nodes letters.now name))) }
    ensures grows { Grows pool.old.nodes pool.new.nodes }
    ensures pool { IsPool pool.new.nodes }
{
    let mut stack = Stack {
        trees: VecDeque::new(alloc),
        said: VecDeque::new(alloc),
    };
    let mut left = text;
    while let Some((symbol, others)) = left.split_last() {
        if !put_symbol(alloc, pool, &mut stack, *symbol, letters, name)? {
            return Ok(None);
        }
        left = others;
    }
    Ok(Some(stack.said.into_vec()))
}

/// Puts a symbol in front of what the stack has; `false` where it is a judgment in which an index reaches 2^32.
fn put_symbol(
    alloc: Global,
    pool: &mut Pool,
    stack: &mut Stack,
    symbol: Symbol,
    letters: &[Option<u64>],
    name: Option<u64>,
) -> Result<bool, OutOfMemory>
    requires pool { IsPool pool.old.nodes }
    requires ready { (behind : List Symbol) × (assignment : Assignment)
        × CanPut pool.old.nodes symbol behind assignment stack.old letters.now name }
    ensures puts { (behind : List Symbol) (assignment : Assignment)
        → CanPut pool.old.nodes symbol behind assignment stack.old letters.now name
        → IfOk result (Answers pool.new.nodes (symbol ∷ behind) assignment stack.new) }
    ensures grows { Grows pool.old.nodes pool.new.nodes }
    ensures pool { IsPool pool.new.nodes }
{
    match symbol {
        Symbol::Letter(letter) => put_tree(stack, letters[letter.number as usize]),
        Symbol::Node(kind, label) => {
            let node = node_on(alloc, pool, &mut stack.trees, kind, label, name)?;
            put_tree(stack, node)
        }
        Symbol::Put(space) => {
            let (Some(body), Some(value)) = (next(&mut stack.trees), next(&mut stack.trees)) else {
                return Ok(false);
            };
            put_tree(stack, substitution::put(alloc, pool, space, body, value)?)
        }
        Symbol::Shift(space, from) => {
            let Some(tree) = next(&mut stack.trees) else {
                return Ok(false);
            };
            put_tree(stack, substitution::raise(alloc, pool, space, tree, from)?)
        }
        Symbol::Says(kind) => put_judgment(stack, kind),
    }
}

/// Puts a tree on the stack.
fn put_tree(stack: &mut Stack, tree: Option<u64>) -> Result<bool, OutOfMemory>
    ensures put { IfOk result (λ put. put ≡ true) }
    ensures trees { OnOk result (stack.new.trees.items ≡ tree ∷ stack.old.trees.items) }
    ensures said { stack.new.said ≡ stack.old.said }
{
    stack.trees.push_front(tree)?;
    Ok(true)
}

/// Takes the top of the stack; `None` where it has no id.
fn next(trees: &mut VecDeque<Option<u64>>) -> Option<u64>
    ensures first { result ≡ first_of trees.old.items }
    ensures rest { trees.new.items ≡ drop 1 trees.old.items }
{
    match trees.pop_front() {
        Some(Some(id)) => Some(id),
        _ => None,
    }
}

/// Takes a judgment's context and its parts off the stack, and says it; `false` where one of them has no id.
fn put_judgment(stack: &mut Stack, kind: JudgmentKind) -> Result<bool, OutOfMemory>
    requires { length (sorts_of kind) ≤ length stack.old.trees.items }
    ensures trees { OnOk result (stack.new.trees.items
        ≡ drop (length (sorts_of kind)) stack.old.trees.items) }
    ensures said { IfOk result (λ put. OnTrue put (SaysOnTop kind stack.old stack.new)) }
    ensures none { IfOk result
        (λ put. OnFalse put (Contains (take (length (sorts_of kind)) stack.old.trees.items) None)) }
{
    let Some(ids) = take_known(&mut stack.trees, 1 + kind.parts().len()) else {
        return Ok(false);
    };
    let Some((context, parts)) = ids.as_slice().split_first() else {
        return Ok(false);
    };
    let Some(says) = Judgment::of(kind, *context, parts) else {
        return Ok(false);
    };
    stack.said.push_front(says)?;
    Ok(true)
}

/// The node of a kind whose kids are on the stack, which it takes off; `None` where one of them has no id.
fn node_on(
    alloc: Global,
    pool: &mut Pool,
    trees: &mut VecDeque<Option<u64>>,
    kind: Kind,
    label: Label,
    name: Option<u64>,
) -> Result<Option<u64>, OutOfMemory>
    requires pool { IsPool pool.old.nodes }
    requires ready { CanMake pool.old.nodes trees.old.items kind label name }
    ensures rest { trees.new.items ≡ drop (length (form kind).kids) trees.old.items }
    ensures made { IfOk result
        (λ made. IfSome made (IsMadeOf pool.old.nodes pool.new.nodes trees.old.items kind label
        (name_in (tree_for pool.old.nodes name)))) }
    ensures none { IfOk result
        (λ made. IfNone made (Contains (take (length (form kind).kids) trees.old.items) None)) }
    ensures grows { Grows pool.old.nodes pool.new.nodes }
    ensures pool { IsPool pool.new.nodes }
{
    let Some(kids) = take_known(trees, kind.form().kids.len()) else {
        return Ok(None);
    };
    let name = row_name(alloc, pool, label, name)?;
    Ok(Some(pool.make(Node {
        kind,
        number: index_of(label),
        name,
        kids,
    })?))
}

/// The index in a label; 0 where it has none.
fn index_of(label: Label) -> u64
    ensures { result ≡ number_of label }
{
    match label {
        Label::Index(index) => u64::from(index),
        Label::Plain | Label::RowName => 0,
    }
}

/// The name in a label, where the row's name is that of a node.
fn row_name(
    alloc: Global,
    pool: &Pool,
    label: Label,
    name: Option<u64>,
) -> Result<Name, OutOfMemory>
    requires { IsTrue (is_row_name label) → IsNamed pool.now.nodes name }
    ensures { IfOk result (λ text. text ≡ name_of label (name_in (tree_for pool.now.nodes name))) }
{
    match (label, name) {
        (Label::RowName, Some(id)) => pool.node(id).name.copy(),
        _ => Ok(Name::new(alloc)),
    }
}

/// Takes so many trees off the stack; `None` where one of them has no id.
fn take_known(trees: &mut VecDeque<Option<u64>>, count: usize) -> Option<Kids>
    requires few { count ≤ 7 }
    requires enough { count ≤ length trees.old.items }
    ensures rest { trees.new.items ≡ drop count trees.old.items }
    ensures known { IfSome result (λ kids. take count trees.old.items
        ≡ map (λ kid. Some kid) kids) }
    ensures none { IfNone result (Contains (take count trees.old.items) None) }
{
    let mut kids = Kids::new();
    let mut known = true;
    for taken in 0..count {
        let kept = keep_known(&mut kids, next(trees));
        known = known && kept;
    }
    if known { Some(kids) } else { None }
}

/// Keeps a tree among the kids; `false` where it has no id.
fn keep_known(kids: &mut Kids, tree: Option<u64>) -> bool
    requires { length kids.old < 7 }
    ensures kept { OnTrue result (Keeps kids.old tree kids.new) }
    ensures lost { OnFalse result ((tree ≡ None) × (kids.new ≡ kids.old)) }
{
    match tree {
        Some(id) => {
            kids.push(id);
            true
        }
        None => false,
    }
}
