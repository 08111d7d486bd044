//! The letters of a row's text, read off judgments.
//!
//! The text is walked beside the judgments, the premises first. A node of the text wants a node of its kind, whose kids are
//! expected next; a letter stands for the tree that is expected. Below a substitution or a shift nothing is expected. So
//! the letters of every instance are those that are found, and whether there is one is told by spelling the text with them.

ghost use Rattle.std.specs.Prelude.{◌≡◌, ◌<◌, ◌++◌, length, replicate, drop, All, Some, None, IsTrue, IsSome, IfOk, IfSome, IfNone, OnOk, map};
ghost use Rattle.std.specs.Bool.{OnTrue, OnFalse};
ghost use Rattle.rz_rules.specs.Judgment.{ids_of};
ghost use Rattle.rz_rules.specs.Form.{form};
ghost use Rattle.rz_rules.specs.Tree.{tree_of};
ghost use Rattle.rz_rules.specs.Row.{letters_in};
ghost use Rattle.rz_rules.specs.Text.{IsText, label_fits};
ghost use Rattle.rz_rules.specs.declared.symbols.Symbol.TheVariants.{Letter as LetterOf, Node as NodeOf, Says};
ghost use Rattle.rz_rule_text.specs.Finding.{Answers, AnswersLabel, AnswersName, FindsAll, FindsSubject, HasNoInstance, HasNoSubject, IsFinding, IsPassed, IsRefused, IsWalk, first_expected, is_determined, kind_in, last_words, subject_determines, symbol_fits};
ghost use Rattle.rz_rule_text.specs.Letters.{HasName, IsFound, has_name, is_row_name, name_in};

use rz_pool::Pool;
use rz_rules::{
    Judgment, JudgmentKind, Kind, LETTERS, Label, Letter, Name, Node, OutOfMemory, Symbol,
};
use std::alloc::Global;
use std::collections::VecDeque;

/// What was found of a row's letters and of its name.
#[derive(Drop)]
pub struct Finding {
    /// For each letter, by its number, the id of its tree.
    pub letters: Vec<Option<u64>>,
    /// The id of a node that has the name which the row speaks of.
    pub name: Option<u64>,
}

/// How far a walk has come.
#[derive(Drop)]
struct Walk<'a> {
    /// The trees that are expected before the next judgment, the next one first; `None` where a tree is not known.
    expected: VecDeque<Option<u64>>,
    /// The judgments that come after.
    rest: &'a [Judgment],
    /// What was found so far.
    finding: Finding,
}

/// The letters of a text in judgments; `None` where no trees in their place make the text spell these judgments.
pub fn find(
    alloc: Global,
    pool: &Pool,
    text: &[Symbol],
    judgments: &[Judgment],
) -> Result<Option<Finding>, OutOfMemory>
    requires there { All
        (λ says. All (λ id. id < length pool.now.nodes) (ids_of says)) judgments.now }
    requires text { IsText text.now }
    ensures finds { IfOk result (λ answer. IfSome answer
        (λ found. FindsAll pool.now.nodes text.now judgments.now found.letters.items found.name)) }
    ensures there { IfOk result (λ answer. IfSome answer
        (λ found. IsFinding pool.now.nodes found.letters.items found.name)) }
    ensures letters { IfOk result (λ answer. IfSome answer (λ found. IsTrue (is_determined text.now)
        → All (IsFound pool.now.nodes found.letters.items) (letters_in text.now))) }
    ensures name { IfOk result (λ answer. IfSome answer (λ found. IsTrue (is_determined text.now)
        → IsTrue (has_name text.now) → IsSome found.name)) }
    ensures none { IfOk result
        (λ answer. IfNone answer (HasNoInstance pool.now.nodes text.now judgments.now)) }
{
    let mut walk = walk_from(alloc, VecDeque::new(alloc), judgments)?;
    if !pass_all(&mut walk, pool, text)? {
        return Ok(None);
    }
    if walk.rest.is_empty() {
        Ok(Some(walk.finding))
    } else {
        Ok(None)
    }
}

/// The letters of a text whose last judgment says something of this term in this context; `None` where it can't.
pub fn find_subject(
    alloc: Global,
    pool: &Pool,
    text: &[Symbol],
    context: u64,
    term: u64,
) -> Result<Option<Finding>, OutOfMemory>
    requires context { context < length pool.now.nodes }
    requires term { term < length pool.now.nodes }
    requires text { IsText text.now }
    ensures finds { IfOk result (λ answer. IfSome answer (λ found.
        FindsSubject pool.now.nodes text.now context term found.letters.items found.name)) }
    ensures there { IfOk result (λ answer. IfSome answer
        (λ found. IsFinding pool.now.nodes found.letters.items found.name)) }
    ensures letters { IfOk result (λ answer. IfSome answer (λ found.
        IsTrue (subject_determines text.now)
        → All (IsFound pool.now.nodes found.letters.items) (letters_in text.now))) }
    ensures name { IfOk result (λ answer. IfSome answer (λ found.
        IsTrue (subject_determines text.now) → IsTrue (has_name text.now) → IsSome found.name)) }
    ensures none { IfOk result
        (λ answer. IfNone answer (HasNoSubject pool.now.nodes text.now context term)) }
{
    let mut expected = VecDeque::new(alloc);
    expect(&mut expected, &[context, term])?;
    let mut walk = walk_from(alloc, expected, &[])?;
    if pass_all(&mut walk, pool, behind_judgments(text))? {
        Ok(Some(walk.finding))
    } else {
        Ok(None)
    }
}

/// The end of a text, behind the last symbol that is a judgment.
fn behind_judgments(text: &[Symbol]) -> &[Symbol]
    ensures { result.now ≡ last_words text.now text.now }
{
    let mut end = text;
    let mut left = text;
    while let Some((symbol, others)) = left.split_first() {
        if let Symbol::Says(_) = symbol {
            end = others;
        }
        left = others;
    }
    end
}

/// Walks past these symbols; `false` where one of them can't stand there.
fn pass_all(walk: &mut Walk, pool: &Pool, text: &[Symbol]) -> Result<bool, OutOfMemory>
    requires fits { All (λ symbol. IsTrue (symbol_fits symbol)) text.now }
    requires walk { IsWalk pool.now.nodes walk.old }
    ensures walk { OnOk result (IsWalk pool.now.nodes walk.new) }
    ensures passes { IfOk result (λ passed. OnTrue passed
        (IsPassed pool.now.nodes text.now walk.old walk.new)) }
    ensures refuses { IfOk result (λ passed. OnFalse passed
        (IsRefused pool.now.nodes text.now walk.old)) }
{
    for symbol in text {
        if !pass(walk, pool, *symbol)? {
            return Ok(false);
        }
    }
    Ok(true)
}

/// A walk that begins where these trees are expected and then these judgments.
fn walk_from(
    alloc: Global,
    expected: VecDeque<Option<u64>>,
    rest: &[Judgment],
) -> Result<Walk<'_>, OutOfMemory>
    ensures expected { IfOk result (λ walk. walk.expected.items ≡ expected.items) }
    ensures rest { IfOk result (λ walk. walk.rest.now ≡ rest.now) }
    ensures letters { IfOk result
        (λ walk. walk.finding.letters.items ≡ replicate LETTERS None) }
    ensures name { IfOk result (λ walk. walk.finding.name ≡ None) }
{
    Ok(Walk {
        expected,
        rest,
        finding: nothing_found(alloc)?,
    })
}

/// Nothing is found yet.
fn nothing_found(alloc: Global) -> Result<Finding, OutOfMemory>
    ensures letters { IfOk result (λ found. found.letters.items ≡ replicate LETTERS None) }
    ensures name { IfOk result (λ found. found.name ≡ None) }
{
    let letters = vec![in alloc; None; LETTERS]?;
    Ok(Finding {
        letters,
        name: None,
    })
}

/// Walks past a symbol; `false` where it can't stand there.
fn pass(walk: &mut Walk, pool: &Pool, symbol: Symbol) -> Result<bool, OutOfMemory>
    requires fits { IsTrue (symbol_fits symbol) }
    requires walk { IsWalk pool.now.nodes walk.old }
    ensures walk { OnOk result (IsWalk pool.now.nodes walk.new) }
    ensures step { IfOk result (Answers pool.now.nodes symbol walk.old walk.new) }
{
    match symbol {
        Symbol::Letter(letter) => Ok(pass_letter(walk, pool, letter)),
        Symbol::Node(kind, label) => pass_node(walk, pool, kind, label),
        Symbol::Put(_) => {
            let _ = next(&mut walk.expected);
            expect_unknown(&mut walk.expected, 2)?;
            Ok(true)
        }
        Symbol::Shift(..) => {
            let _ = next(&mut walk.expected);
            expect_unknown(&mut walk.expected, 1)?;
            Ok(true)
        }
        Symbol::Says(kind) => pass_judgment(walk, pool, kind),
    }
}

/// The tree that is expected next, where it is known.
fn next(expected: &mut VecDeque<Option<u64>>) -> Option<u64>
    ensures first { result ≡ first_expected expected.old.items }
    ensures rest { expected.new.items ≡ drop 1 expected.old.items }
{
    match expected.pop_front() {
        Some(Some(id)) => Some(id),
        _ => None,
    }
}

/// Expects trees before the others, the first of them next.
fn expect(expected: &mut VecDeque<Option<u64>>, ids: &[u64]) -> Result<(), OutOfMemory>
    ensures { OnOk result (expected.new.items ≡ map (λ id. Some id) ids.now ++ expected.old.items) }
{
    let mut left = ids;
    while let Some((last, others)) = left.split_last() {
        expected.push_front(Some(*last))?;
        left = others;
    }
    Ok(())
}

/// Expects so many unknown trees before the others.
fn expect_unknown(expected: &mut VecDeque<Option<u64>>, count: usize) -> Result<(), OutOfMemory>
    ensures { OnOk result (expected.new.items ≡ replicate count None ++ expected.old.items) }
{
    for made in 0..count {
        expected.push_front(None)?;
    }
    Ok(())
}

/// Lets a letter stand for the tree that is expected next; `false` where it is of another sort or stands for another.
fn pass_letter(walk: &mut Walk, pool: &Pool, letter: Letter) -> bool
    requires low { letter.number < LETTERS }
    requires walk { IsWalk pool.now.nodes walk.old }
    ensures walk { IsWalk pool.now.nodes walk.new }
    ensures step { Answers pool.now.nodes (LetterOf letter) walk.old walk.new result }
{
    let Some(id) = next(&mut walk.expected) else {
        return true;
    };
    if pool.node(id).kind.form().sort != letter.sort {
        return false;
    }
    let place = letter.number as usize;
    match walk.finding.letters[place] {
        Some(other) => pool.are_same(other, id),
        None => {
            walk.finding.letters[place] = Some(id);
            true
        }
    }
}

/// Passes a node, and expects its kids.
fn pass_node(walk: &mut Walk, pool: &Pool, kind: Kind, label: Label) -> Result<bool, OutOfMemory>
    requires fits { IsTrue (label_fits (form kind).role label) }
    requires walk { IsWalk pool.now.nodes walk.old }
    ensures walk { OnOk result (IsWalk pool.now.nodes walk.new) }
    ensures step { IfOk result (Answers pool.now.nodes (NodeOf kind label) walk.old walk.new) }
{
    let Some(id) = next(&mut walk.expected) else {
        expect_unknown(&mut walk.expected, kind.form().kids.len())?;
        return Ok(true);
    };
    let node = pool.node(id);
    if node.kind != kind {
        return Ok(false);
    }
    if !note_label(&mut walk.finding, pool, id, label) {
        return Ok(false);
    }
    expect(&mut walk.expected, node.kids.as_slice())?;
    Ok(true)
}

/// Notes the row's name where the label is it; `false` where the node has another number or name than the label says.
fn note_label(finding: &mut Finding, pool: &Pool, id: u64, label: Label) -> bool
    requires there { id < length pool.now.nodes }
    requires fits { IsTrue (label_fits (form (kind_in (tree_of pool.now.nodes id))).role label) }
    requires finding { IsFinding pool.now.nodes finding.old.letters.items finding.old.name }
    ensures finding { IsFinding pool.now.nodes finding.new.letters.items finding.new.name }
    ensures letters { finding.new.letters ≡ finding.old.letters }
    ensures kept { IsSome finding.old.name → IsSome finding.new.name }
    ensures noted { OnTrue result (IsTrue (is_row_name label) → IsSome finding.new.name) }
    ensures answer { AnswersLabel pool.now.nodes
        (tree_of pool.now.nodes id) label finding.old.letters.items finding.old.name
        finding.new.name result }
{
    let node = pool.node(id);
    match label {
        Label::Plain => node.number == 0 && node.name.len() == 0,
        Label::Index(index) => node.number == u64::from(index) && node.name.len() == 0,
        Label::RowName => node.number == 0 && note_name(finding, pool, id),
    }
}

/// Lets the row's name be that of a node; `false` where it is another.
fn note_name(finding: &mut Finding, pool: &Pool, id: u64) -> bool
    requires there { HasName pool.now.nodes id }
    requires finding { IsFinding pool.now.nodes finding.old.letters.items finding.old.name }
    ensures finding { IsFinding pool.now.nodes finding.new.letters.items finding.new.name }
    ensures letters { finding.new.letters ≡ finding.old.letters }
    ensures kept { IsSome finding.old.name → IsSome finding.new.name }
    ensures noted { OnTrue result (IsSome finding.new.name) }
    ensures answer { AnswersName pool.now.nodes
        (name_in (tree_of pool.now.nodes id)) finding.old.letters.items finding.old.name
        finding.new.name result }
{
    match finding.name {
        Some(other) => pool.node(other).name == pool.node(id).name,
        None => {
            finding.name = Some(id);
            true
        }
    }
}

/// Passes a judgment of a kind, and expects its context and its parts.
fn pass_judgment(walk: &mut Walk, pool: &Pool, kind: JudgmentKind) -> Result<bool, OutOfMemory>
    requires walk { IsWalk pool.now.nodes walk.old }
    ensures walk { OnOk result (IsWalk pool.now.nodes walk.new) }
    ensures step { IfOk result (Answers pool.now.nodes (Says kind) walk.old walk.new) }
{
    let Some((says, rest)) = walk.rest.split_first() else {
        return Ok(false);
    };
    if says.kind() != kind {
        return Ok(false);
    }
    expect(&mut walk.expected, says.parts().as_slice())?;
    walk.expected.push_front(Some(says.context()))?;
    walk.rest = rest;
    Ok(true)
}
