//! Judgments and lines over nodes named by ids.

ghost use Rattle.std.specs.Prelude.{◌≡◌, IfOk, IfSome};
ghost use Rattle.rz_rules.specs.Judgment.{IsJudgmentForm, judgment_form, word_of_judgment_kind, all_judgment_kinds, judgment_words_are_distinct, kind_of, context_of, parts_of, IsJudgmentOf};

use crate::kinds::Sort;
use crate::lists::{Numbers, TryCopy};
use crate::memory::OutOfMemory;
use crate::nodes::Kids;
use crate::rows::Row;
use crate::words::Worded;

/// What a judgment says of its parts in its context.
#[derive(Clone, Copy, Debug, PartialEq, Eq)]
pub enum JudgmentKind {
    /// `formed`: the context is formed.
    Formed,
    /// `holds`: the tope holds.
    Holds,
    /// `has`: the term has the type.
    Has,
    /// `same`: the two terms are equal at the type.
    Same,
}

/// An entry of the table of judgments: the word in a derivation file, and the sorts of the parts behind the context.
pub type JudgmentForm = (&'static str, &'static [Sort]);

pub const FORMED: JudgmentForm = ("formed", &[]);

pub const HOLDS: JudgmentForm = ("holds", &[Sort::Tope]);

pub const HAS: JudgmentForm = ("has", &[Sort::Term, Sort::Term]);

pub const SAME: JudgmentForm = ("same", &[Sort::Term, Sort::Term, Sort::Term]);

/// The kinds of judgments, in the order of the table.
pub const JUDGMENT_KINDS: &[JudgmentKind] = &[
    JudgmentKind::Formed,
    JudgmentKind::Holds,
    JudgmentKind::Has,
    JudgmentKind::Same,
];

impl JudgmentKind {
    /// The entry of the table.
    fn form(self) -> JudgmentForm
        ensures { IsJudgmentForm (judgment_form self) result }
    {
        match self {
            JudgmentKind::Formed => FORMED,
            JudgmentKind::Holds => HOLDS,
            JudgmentKind::Has => HAS,
            JudgmentKind::Same => SAME,
        }
    }

    /// The sorts of the judgment's parts, which stand behind its context.
    pub fn parts(self) -> &'static [Sort]
        ensures { result.now ≡ (judgment_form self).parts }
    {
        self.form().1
    }
}

impl Worded for JudgmentKind {
    ghost word_of = { word_of_judgment_kind };

    ghost all = { all_judgment_kinds };

    fn word(&self) -> &'static str {
        self.form().0
    }

    fn every() -> &'static [JudgmentKind] {
        JUDGMENT_KINDS
    }

    ghost words_are_distinct = { judgment_words_are_distinct };
}

/// A judgment. Its context and its parts are ids of nodes.
#[derive(Clone, Copy, Debug, PartialEq, Eq)]
pub enum Judgment {
    /// The context `c` is formed.
    Formed { c: u64 },
    /// In the context `c` the tope `phi` holds.
    Holds { c: u64, phi: u64 },
    /// In the context `c` the term `a` has the type `of`.
    Has { c: u64, a: u64, of: u64 },
    /// In the context `c` the terms `a` and `b` are equal at the type `of`.
    Same { c: u64, a: u64, b: u64, of: u64 },
}

impl Judgment {
    /// What is said.
    pub fn kind(self) -> JudgmentKind
        ensures { result ≡ kind_of self }
    {
        match self {
            Judgment::Formed { .. } => JudgmentKind::Formed,
            Judgment::Holds { .. } => JudgmentKind::Holds,
            Judgment::Has { .. } => JudgmentKind::Has,
            Judgment::Same { .. } => JudgmentKind::Same,
        }
    }

    /// The id of its context.
    pub fn context(self) -> u64
        ensures { result ≡ context_of self }
    {
        match self {
            Judgment::Formed { c }
            | Judgment::Holds { c, .. }
            | Judgment::Has { c, .. }
            | Judgment::Same { c, .. } => c,
        }
    }

    /// The ids of its parts behind the context, in order.
    pub fn parts(self) -> Kids
        ensures { result ≡ parts_of self }
    {
        match self {
            Judgment::Formed { .. } => Kids::new(),
            Judgment::Holds { phi, .. } => Kids::from_slice(&[phi]),
            Judgment::Has { a, of, .. } => Kids::from_slice(&[a, of]),
            Judgment::Same { a, b, of, .. } => Kids::from_slice(&[a, b, of]),
        }
    }

    /// The judgment of a kind with this context and these parts; `None` where their number is another.
    pub fn of(kind: JudgmentKind, c: u64, parts: &[u64]) -> Option<Judgment>
        ensures kind { IfSome result (λ says. kind_of says ≡ kind) }
        ensures context { IfSome result (λ says. context_of says ≡ c) }
        ensures parts { IfSome result (λ says. parts_of says ≡ parts.now) }
        ensures only { (says : Judgment) → IsJudgmentOf kind c parts.now says → result ≡ Some says }
    {
        match (kind, parts) {
            (JudgmentKind::Formed, []) => Some(Judgment::Formed { c }),
            (JudgmentKind::Holds, [phi]) => Some(Judgment::Holds { c, phi: *phi }),
            (JudgmentKind::Has, [a, of]) => Some(Judgment::Has { c, a: *a, of: *of }),
            (JudgmentKind::Same, [a, b, of]) => Some(Judgment::Same {
                c,
                a: *a,
                b: *b,
                of: *of,
            }),
            _ => None,
        }
    }
}

/// A line of a derivation: what it says, by which row, from which lines.
#[derive(Debug, Drop)]
pub struct Line {
    pub row: Row,
    /// The number of a row that uses one, below 2^32; 0 elsewhere.
    pub number: u64,
    pub says: Judgment,
    /// The premises: numbers of earlier lines, from 0, in the row's order.
    pub from: Numbers,
}

impl Line {
    /// An equal line.
    pub fn copy(&self) -> Result<Line, OutOfMemory>
        ensures { IfOk result (λ line. line ≡ self.now) }
    {
        Ok(Line {
            row: self.row,
            number: self.number,
            says: self.says,
            from: self.from.copy()?,
        })
    }
}

impl TryCopy for Line {
    fn try_copy(&self) -> Result<Line, OutOfMemory> {
        self.copy()
    }
}
