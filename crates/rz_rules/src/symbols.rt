//! What the texts of rows are made of, and the names that the row tables use.
//!
//! A text is read from its end: a symbol takes what it needs from the trees behind it. Each node has the word of its kind
//! in a derivation file. `PUT_X B X` is `B` with `X` for its innermost term variable, `PUT_T A S` is `A` with `S` for its
//! innermost cube variable; `UP_X` and `UP_T` raise the variables of a tree by one, `UP_X1` and `UP_T1` those but the
//! innermost. A letter with a 1 stands on the right side of an equality.

use crate::judgments::JudgmentKind;
use crate::kinds::{Kind, Sort, Space};

/// A letter of a row, which stands for a tree of a sort.
#[derive(Clone, Copy, Debug, PartialEq, Eq)]
pub struct Letter {
    /// Its number, which no other letter has, below `LETTERS`.
    pub number: u8,
    /// The sort of the trees that it stands for.
    pub sort: Sort,
}

/// What stands in a node beside its kind and its kids.
#[derive(Clone, Copy, Debug, PartialEq, Eq)]
pub enum Label {
    /// Neither number nor name.
    Plain,
    /// The index of a variable, below 2^32.
    Index(u32),
    /// The name that the row speaks of.
    RowName,
}

/// A symbol of a row's text.
#[derive(Clone, Copy, Debug, PartialEq, Eq)]
pub enum Symbol {
    /// A letter.
    Letter(Letter),
    /// A node of a kind; its kids follow.
    Node(Kind, Label),
    /// Substitution: a tree follows, and then what takes the place of its innermost variable of the space.
    Put(Space),
    /// A shift: in the tree that follows, the variables of the space from an index on rise by one.
    Shift(Space, u32),
    /// A judgment: its context follows, and then its parts.
    Says(JudgmentKind),
}

/// What a row asks of the trees of its letters, beside its premises.
#[derive(Clone, Copy, Debug, PartialEq, Eq)]
pub enum Condition {
    /// The letter is a cube of at most 64 leaves.
    FewLeaves(Letter),
    /// Over the context that is the first letter, the second is a tope.
    TopeOver(Letter, Letter),
    /// Over the context that is the first letter, the third is a point of the cube that is the second.
    PointOf(Letter, Letter, Letter),
}

/// How many letters there are.
pub const LETTERS: usize = 30;

/// The letter `C` in a condition.
pub const CONTEXT: Letter = Letter {
    number: 0,
    sort: Sort::Context,
};

/// The letter `I` in a condition.
pub const CUBE: Letter = Letter {
    number: 1,
    sort: Sort::Cube,
};

/// The letter `S` in a condition.
pub const POINT: Letter = Letter {
    number: 3,
    sort: Sort::Point,
};

/// The letter `P` in a condition.
pub const TOPE: Letter = Letter {
    number: 8,
    sort: Sort::Tope,
};

/// A context.
pub const C: Symbol = Symbol::Letter(CONTEXT);

/// A cube, that of a shape where there is one.
pub const I: Symbol = Symbol::Letter(CUBE);

/// A second cube.
pub const K: Symbol = Symbol::Letter(Letter {
    number: 2,
    sort: Sort::Cube,
});

/// A point.
pub const S: Symbol = Symbol::Letter(POINT);

/// `S` on the right side.
pub const S1: Symbol = Symbol::Letter(Letter {
    number: 4,
    sort: Sort::Point,
});

/// A second point.
pub const T: Symbol = Symbol::Letter(Letter {
    number: 5,
    sort: Sort::Point,
});

/// `T` on the right side.
pub const T1: Symbol = Symbol::Letter(Letter {
    number: 6,
    sort: Sort::Point,
});

/// A third point.
pub const W: Symbol = Symbol::Letter(Letter {
    number: 7,
    sort: Sort::Point,
});

/// A tope, that of a shape where there is one.
pub const P: Symbol = Symbol::Letter(TOPE);

/// `P` on the right side.
pub const P1: Symbol = Symbol::Letter(Letter {
    number: 9,
    sort: Sort::Tope,
});

/// A second tope, that of a face where there is one.
pub const Q: Symbol = Symbol::Letter(Letter {
    number: 10,
    sort: Sort::Tope,
});

/// `Q` on the right side.
pub const Q1: Symbol = Symbol::Letter(Letter {
    number: 11,
    sort: Sort::Tope,
});

/// A third tope.
pub const R: Symbol = Symbol::Letter(Letter {
    number: 12,
    sort: Sort::Tope,
});

/// A type.
pub const A: Symbol = Symbol::Letter(Letter {
    number: 13,
    sort: Sort::Term,
});

/// `A` on the right side.
pub const A1: Symbol = Symbol::Letter(Letter {
    number: 14,
    sort: Sort::Term,
});

/// A second type, or a family over the first.
pub const B: Symbol = Symbol::Letter(Letter {
    number: 15,
    sort: Sort::Term,
});

/// `B` on the right side.
pub const B1: Symbol = Symbol::Letter(Letter {
    number: 16,
    sort: Sort::Term,
});

/// A term, that on a face where there is one.
pub const X: Symbol = Symbol::Letter(Letter {
    number: 17,
    sort: Sort::Term,
});

/// `X` on the right side.
pub const X1: Symbol = Symbol::Letter(Letter {
    number: 18,
    sort: Sort::Term,
});

/// A second term.
pub const Y: Symbol = Symbol::Letter(Letter {
    number: 19,
    sort: Sort::Term,
});

/// `Y` on the right side.
pub const Y1: Symbol = Symbol::Letter(Letter {
    number: 20,
    sort: Sort::Term,
});

/// A third term.
pub const Z: Symbol = Symbol::Letter(Letter {
    number: 21,
    sort: Sort::Term,
});

/// A function.
pub const F: Symbol = Symbol::Letter(Letter {
    number: 22,
    sort: Sort::Term,
});

/// `F` on the right side.
pub const F1: Symbol = Symbol::Letter(Letter {
    number: 23,
    sort: Sort::Term,
});

/// A pair, or an identity.
pub const H: Symbol = Symbol::Letter(Letter {
    number: 24,
    sort: Sort::Term,
});

/// `H` on the right side.
pub const H1: Symbol = Symbol::Letter(Letter {
    number: 25,
    sort: Sort::Term,
});

/// A motive.
pub const M: Symbol = Symbol::Letter(Letter {
    number: 26,
    sort: Sort::Term,
});

/// `M` on the right side.
pub const M1: Symbol = Symbol::Letter(Letter {
    number: 27,
    sort: Sort::Term,
});

/// The case of a motive.
pub const G: Symbol = Symbol::Letter(Letter {
    number: 28,
    sort: Sort::Term,
});

/// `G` on the right side.
pub const G1: Symbol = Symbol::Letter(Letter {
    number: 29,
    sort: Sort::Term,
});

pub const CUBE_ONE: Symbol = Symbol::Node(Kind::CubeOne, Label::Plain);

pub const CUBE_TWO: Symbol = Symbol::Node(Kind::CubeTwo, Label::Plain);

pub const CX: Symbol = Symbol::Node(Kind::Product, Label::Plain);

pub const ZERO: Symbol = Symbol::Node(Kind::Zero, Label::Plain);

pub const ONE: Symbol = Symbol::Node(Kind::One, Label::Plain);

pub const PP: Symbol = Symbol::Node(Kind::PointPair, Label::Plain);

pub const PL: Symbol = Symbol::Node(Kind::PointLeft, Label::Plain);

pub const PR: Symbol = Symbol::Node(Kind::PointRight, Label::Plain);

pub const TTOP: Symbol = Symbol::Node(Kind::Top, Label::Plain);

pub const TBOT: Symbol = Symbol::Node(Kind::Bottom, Label::Plain);

pub const TAND: Symbol = Symbol::Node(Kind::Conjunction, Label::Plain);

pub const TOR: Symbol = Symbol::Node(Kind::Disjunction, Label::Plain);

pub const TEQ: Symbol = Symbol::Node(Kind::EqualPoints, Label::Plain);

pub const TLE: Symbol = Symbol::Node(Kind::AtMost, Label::Plain);

pub const U: Symbol = Symbol::Node(Kind::Universe, Label::Plain);

pub const PI: Symbol = Symbol::Node(Kind::Pi, Label::Plain);

pub const LAM: Symbol = Symbol::Node(Kind::Lambda, Label::Plain);

pub const APP: Symbol = Symbol::Node(Kind::Application, Label::Plain);

pub const SIG: Symbol = Symbol::Node(Kind::Sigma, Label::Plain);

pub const PAIR: Symbol = Symbol::Node(Kind::Pair, Label::Plain);

pub const FST: Symbol = Symbol::Node(Kind::First, Label::Plain);

pub const SND: Symbol = Symbol::Node(Kind::Second, Label::Plain);

pub const ID: Symbol = Symbol::Node(Kind::Identity, Label::Plain);

pub const REFL: Symbol = Symbol::Node(Kind::Reflexivity, Label::Plain);

pub const J: Symbol = Symbol::Node(Kind::IdentityInduction, Label::Plain);

pub const UNIT: Symbol = Symbol::Node(Kind::UnitType, Label::Plain);

pub const STAR: Symbol = Symbol::Node(Kind::Star, Label::Plain);

pub const EXT: Symbol = Symbol::Node(Kind::Extension, Label::Plain);

pub const XLAM: Symbol = Symbol::Node(Kind::ExtensionLambda, Label::Plain);

pub const XAPP: Symbol = Symbol::Node(Kind::ExtensionApplication, Label::Plain);

pub const REC: Symbol = Symbol::Node(Kind::RecOr, Label::Plain);

pub const ABORT: Symbol = Symbol::Node(Kind::RecBottom, Label::Plain);

pub const NIL: Symbol = Symbol::Node(Kind::EmptyContext, Label::Plain);

pub const XCUBE: Symbol = Symbol::Node(Kind::CubeEntry, Label::Plain);

pub const XTOPE: Symbol = Symbol::Node(Kind::TopeEntry, Label::Plain);

pub const XTERM: Symbol = Symbol::Node(Kind::TermEntry, Label::Plain);

pub const CONST: Symbol = Symbol::Node(Kind::Constant, Label::RowName);

pub const POST: Symbol = Symbol::Node(Kind::Postulate, Label::RowName);

/// The innermost cube variable.
pub const PV_0: Symbol = Symbol::Node(Kind::PointVariable, Label::Index(0));

/// The innermost term variable.
pub const V_0: Symbol = Symbol::Node(Kind::TermVariable, Label::Index(0));

pub const PUT_T: Symbol = Symbol::Put(Space::Points);

pub const PUT_X: Symbol = Symbol::Put(Space::Terms);

pub const UP_T: Symbol = Symbol::Shift(Space::Points, 0);

pub const UP_T1: Symbol = Symbol::Shift(Space::Points, 1);

pub const UP_X: Symbol = Symbol::Shift(Space::Terms, 0);

pub const UP_X1: Symbol = Symbol::Shift(Space::Terms, 1);

pub const FORMED: Symbol = Symbol::Says(JudgmentKind::Formed);

pub const HOLDS: Symbol = Symbol::Says(JudgmentKind::Holds);

pub const HAS: Symbol = Symbol::Says(JudgmentKind::Has);

pub const SAME: Symbol = Symbol::Says(JudgmentKind::Same);
