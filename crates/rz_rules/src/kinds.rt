//! The node table: the kinds of nodes, and what each is made of.

ghost use Rattle.std.specs.Prelude.{◌≡◌};
ghost use Rattle.rz_rules.specs.Form.{form, IsKindRow, IsForm, word_of_kind, all_kinds, is_numbered, is_named, bound, kind_words_are_distinct};

use crate::words::Worded;

/// The sorts of trees.
#[derive(Clone, Copy, Debug, PartialEq, Eq)]
pub enum Sort {
    Cube,
    Point,
    Tope,
    Term,
    Context,
}

/// The spaces of variables. Each has binders of its own, and its variables count those alone.
#[derive(Clone, Copy, Debug, PartialEq, Eq)]
pub enum Space {
    /// Cube variables, which are points.
    Points,
    /// Term variables.
    Terms,
}

/// What the number and the name of a node are, and whether variables reach its kids.
#[derive(Clone, Copy, Debug, PartialEq, Eq)]
pub enum Role {
    /// A variable. Its number counts the binders of its space between it and its own, from the innermost, from 0.
    Variable(Space),
    /// A constant or a postulate. It has a name, and its kids are closed: no variable outside is one of theirs.
    Declared,
    /// Any other node, with neither number nor name.
    Former,
}

impl Role {
    /// Whether a node of this role has a number.
    pub fn is_numbered(self) -> bool
        ensures { result ≡ is_numbered self }
    {
        matches!(self, Role::Variable(_))
    }

    /// Whether a node of this role has a name.
    pub fn is_named(self) -> bool
        ensures { result ≡ is_named self }
    {
        matches!(self, Role::Declared)
    }
}

/// A place for a kid.
#[derive(Clone, Copy, Debug, PartialEq, Eq)]
pub struct Slot {
    /// The sort of the kid.
    pub sort: Sort,
    /// How many cube variables the node binds there.
    pub points: u8,
    /// How many term variables the node binds there.
    pub terms: u8,
}

impl Slot {
    /// How many variables of a space the node binds there.
    pub fn bound(self, space: Space) -> u8
        ensures { result ≡ bound self space }
    {
        match space {
            Space::Points => self.points,
            Space::Terms => self.terms,
        }
    }
}

/// What a node is. Its word in a derivation file stands first in each line.
#[derive(Clone, Copy, Debug, PartialEq, Eq, Hash)]
pub enum Kind {
    /// `c1`: the cube with one point.
    CubeOne,
    /// `c2`: the directed interval, whose ends are the points `p0` and `p1`.
    CubeTwo,
    /// `cx`: the product of two cubes.
    Product,
    /// `pv`: a cube variable.
    PointVariable,
    /// `pstar`: the only point of `c1`.
    OnlyPoint,
    /// `p0`: the first end of the directed interval.
    Zero,
    /// `p1`: the last end of the directed interval.
    One,
    /// `pp`: a point of a product, by its two parts.
    PointPair,
    /// `pl`: the first part of a point of a product.
    PointLeft,
    /// `pr`: the second part of a point of a product.
    PointRight,
    /// `ttop`: the tope that always holds.
    Top,
    /// `tbot`: the tope that never holds.
    Bottom,
    /// `tand`: the conjunction of two topes.
    Conjunction,
    /// `tor`: the disjunction of two topes.
    Disjunction,
    /// `teq`: two points of a cube are equal.
    EqualPoints,
    /// `tle`: the one point of the directed interval is at most the other.
    AtMost,
    /// `U`: the universe, the type of all types, itself among them.
    Universe,
    /// `v`: a term variable.
    TermVariable,
    /// `const`: a constant, with its type and its body.
    Constant,
    /// `post`: a postulate, with its type.
    Postulate,
    /// `pi`: the type of functions from a type into a family over it.
    Pi,
    /// `lam`: a function, by its domain, its codomain and its body.
    Lambda,
    /// `app`: a function at an argument; domain and codomain stand before the two.
    Application,
    /// `sig`: the type of pairs over a family.
    Sigma,
    /// `pair`: a pair; the type and the family stand before its two parts.
    Pair,
    /// `fst`: the first part of a pair; the type and the family stand before it.
    First,
    /// `snd`: the second part of a pair; the type and the family stand before it.
    Second,
    /// `id`: the identity type of two terms of a type.
    Identity,
    /// `refl`: the reflexivity of a term of a type.
    Reflexivity,
    /// `J`: induction along an identity: type, left end, motive, case, right end, identity.
    IdentityInduction,
    /// `unit`: the type with one term.
    UnitType,
    /// `star`: the only term of `unit`.
    Star,
    /// `ext`: an extension type: cube, tope, family, face, and the term on the face (Riehl and Shulman 2017, section 2.2).
    Extension,
    /// `xlam`: a function on a shape; the parts of its extension type stand before its body.
    ExtensionLambda,
    /// `xapp`: a function on a shape at a point; the parts of its extension type stand before the two.
    ExtensionApplication,
    /// `rec`: elimination of a disjunction of topes: type, the two topes, and a term under each.
    RecOr,
    /// `abort`: elimination of the tope that never holds, at a type.
    RecBottom,
    /// `nil`: the context without entries.
    EmptyContext,
    /// `xcube`: a context and a cube entry after it.
    CubeEntry,
    /// `xtope`: a context and a tope entry after it.
    TopeEntry,
    /// `xterm`: a context and a term entry after it, by its type.
    TermEntry,
}

/// A row of the node table.
#[derive(Clone, Copy, Debug)]
pub struct Form {
    /// The word in a derivation file.
    pub word: &'static str,
    /// The sort of the node.
    pub sort: Sort,
    /// The places of its kids, in order.
    pub kids: &'static [Slot],
    /// What its number and its name are.
    pub role: Role,
}

const CUBE: Slot = Slot {
    sort: Sort::Cube,
    points: 0,
    terms: 0,
};

const POINT: Slot = Slot {
    sort: Sort::Point,
    points: 0,
    terms: 0,
};

const TOPE: Slot = Slot {
    sort: Sort::Tope,
    points: 0,
    terms: 0,
};

const TERM: Slot = Slot {
    sort: Sort::Term,
    points: 0,
    terms: 0,
};

const CONTEXT: Slot = Slot {
    sort: Sort::Context,
    points: 0,
    terms: 0,
};

/// A tope in which the node binds a cube variable.
const T_TOPE: Slot = Slot {
    sort: Sort::Tope,
    points: 1,
    terms: 0,
};

/// A term in which the node binds a cube variable.
const T_TERM: Slot = Slot {
    sort: Sort::Term,
    points: 1,
    terms: 0,
};

/// A term in which the node binds a term variable.
const X_TERM: Slot = Slot {
    sort: Sort::Term,
    points: 0,
    terms: 1,
};

/// A row of the node table: the word, the sort, the places of the kids, and what the number and the name are.
pub type KindRow = (&'static str, Sort, &'static [Slot], Role);

pub const CUBE_ONE: KindRow = ("c1", Sort::Cube, &[], Role::Former);

pub const CUBE_TWO: KindRow = ("c2", Sort::Cube, &[], Role::Former);

pub const PRODUCT: KindRow = ("cx", Sort::Cube, &[CUBE, CUBE], Role::Former);

pub const POINT_VARIABLE: KindRow = ("pv", Sort::Point, &[], Role::Variable(Space::Points));

pub const ONLY_POINT: KindRow = ("pstar", Sort::Point, &[], Role::Former);

pub const ZERO: KindRow = ("p0", Sort::Point, &[], Role::Former);

pub const ONE: KindRow = ("p1", Sort::Point, &[], Role::Former);

pub const POINT_PAIR: KindRow = ("pp", Sort::Point, &[POINT, POINT], Role::Former);

pub const POINT_LEFT: KindRow = ("pl", Sort::Point, &[POINT], Role::Former);

pub const POINT_RIGHT: KindRow = ("pr", Sort::Point, &[POINT], Role::Former);

pub const TOP: KindRow = ("ttop", Sort::Tope, &[], Role::Former);

pub const BOTTOM: KindRow = ("tbot", Sort::Tope, &[], Role::Former);

pub const CONJUNCTION: KindRow = ("tand", Sort::Tope, &[TOPE, TOPE], Role::Former);

pub const DISJUNCTION: KindRow = ("tor", Sort::Tope, &[TOPE, TOPE], Role::Former);

pub const EQUAL_POINTS: KindRow = ("teq", Sort::Tope, &[CUBE, POINT, POINT], Role::Former);

pub const AT_MOST: KindRow = ("tle", Sort::Tope, &[POINT, POINT], Role::Former);

pub const UNIVERSE: KindRow = ("U", Sort::Term, &[], Role::Former);

pub const TERM_VARIABLE: KindRow = ("v", Sort::Term, &[], Role::Variable(Space::Terms));

pub const CONSTANT: KindRow = ("const", Sort::Term, &[TERM, TERM], Role::Declared);

pub const POSTULATE: KindRow = ("post", Sort::Term, &[TERM], Role::Declared);

pub const PI: KindRow = ("pi", Sort::Term, &[TERM, X_TERM], Role::Former);

pub const LAMBDA: KindRow = ("lam", Sort::Term, &[TERM, X_TERM, X_TERM], Role::Former);

pub const APPLICATION: KindRow = ("app", Sort::Term, &[TERM, X_TERM, TERM, TERM], Role::Former);

pub const SIGMA: KindRow = ("sig", Sort::Term, &[TERM, X_TERM], Role::Former);

pub const PAIR: KindRow = (
    "pair",
    Sort::Term,
    &[TERM, X_TERM, TERM, TERM],
    Role::Former,
);

pub const FIRST: KindRow = ("fst", Sort::Term, &[TERM, X_TERM, TERM], Role::Former);

pub const SECOND: KindRow = ("snd", Sort::Term, &[TERM, X_TERM, TERM], Role::Former);

pub const IDENTITY: KindRow = ("id", Sort::Term, &[TERM, TERM, TERM], Role::Former);

pub const REFLEXIVITY: KindRow = ("refl", Sort::Term, &[TERM, TERM], Role::Former);

pub const IDENTITY_INDUCTION: KindRow = (
    "J",
    Sort::Term,
    &[TERM, TERM, TERM, TERM, TERM, TERM],
    Role::Former,
);

pub const UNIT_TYPE: KindRow = ("unit", Sort::Term, &[], Role::Former);

pub const STAR: KindRow = ("star", Sort::Term, &[], Role::Former);

pub const EXTENSION: KindRow = (
    "ext",
    Sort::Term,
    &[CUBE, T_TOPE, T_TERM, T_TOPE, T_TERM],
    Role::Former,
);

pub const EXTENSION_LAMBDA: KindRow = (
    "xlam",
    Sort::Term,
    &[CUBE, T_TOPE, T_TERM, T_TOPE, T_TERM, T_TERM],
    Role::Former,
);

pub const EXTENSION_APPLICATION: KindRow = (
    "xapp",
    Sort::Term,
    &[CUBE, T_TOPE, T_TERM, T_TOPE, T_TERM, TERM, POINT],
    Role::Former,
);

pub const REC_OR: KindRow = (
    "rec",
    Sort::Term,
    &[TERM, TOPE, TOPE, TERM, TERM],
    Role::Former,
);

pub const REC_BOTTOM: KindRow = ("abort", Sort::Term, &[TERM], Role::Former);

pub const EMPTY_CONTEXT: KindRow = ("nil", Sort::Context, &[], Role::Former);

pub const CUBE_ENTRY: KindRow = ("xcube", Sort::Context, &[CONTEXT, CUBE], Role::Former);

pub const TOPE_ENTRY: KindRow = ("xtope", Sort::Context, &[CONTEXT, TOPE], Role::Former);

pub const TERM_ENTRY: KindRow = ("xterm", Sort::Context, &[CONTEXT, TERM], Role::Former);

impl Kind {
    /// What a node of this kind is made of.
    pub fn form(self) -> Form
        ensures { IsForm (form self) result }
    {
        let (word, sort, kids, role) = self.row();
        Form {
            word,
            sort,
            kids,
            role,
        }
    }

    /// The row of this kind in the node table.
    fn row(self) -> KindRow
        ensures { IsKindRow (form self) result }
    {
        match self {
            Kind::CubeOne => CUBE_ONE,
            Kind::CubeTwo => CUBE_TWO,
            Kind::Product => PRODUCT,
            Kind::PointVariable => POINT_VARIABLE,
            Kind::OnlyPoint => ONLY_POINT,
            Kind::Zero => ZERO,
            Kind::One => ONE,
            Kind::PointPair => POINT_PAIR,
            Kind::PointLeft => POINT_LEFT,
            Kind::PointRight => POINT_RIGHT,
            Kind::Top => TOP,
            Kind::Bottom => BOTTOM,
            Kind::Conjunction => CONJUNCTION,
            Kind::Disjunction => DISJUNCTION,
            Kind::EqualPoints => EQUAL_POINTS,
            Kind::AtMost => AT_MOST,
            Kind::Universe => UNIVERSE,
            Kind::TermVariable => TERM_VARIABLE,
            Kind::Constant => CONSTANT,
            Kind::Postulate => POSTULATE,
            Kind::Pi => PI,
            Kind::Lambda => LAMBDA,
            Kind::Application => APPLICATION,
            Kind::Sigma => SIGMA,
            Kind::Pair => PAIR,
            Kind::First => FIRST,
            Kind::Second => SECOND,
            Kind::Identity => IDENTITY,
            Kind::Reflexivity => REFLEXIVITY,
            Kind::IdentityInduction => IDENTITY_INDUCTION,
            Kind::UnitType => UNIT_TYPE,
            Kind::Star => STAR,
            Kind::Extension => EXTENSION,
            Kind::ExtensionLambda => EXTENSION_LAMBDA,
            Kind::ExtensionApplication => EXTENSION_APPLICATION,
            Kind::RecOr => REC_OR,
            Kind::RecBottom => REC_BOTTOM,
            Kind::EmptyContext => EMPTY_CONTEXT,
            Kind::CubeEntry => CUBE_ENTRY,
            Kind::TopeEntry => TOPE_ENTRY,
            Kind::TermEntry => TERM_ENTRY,
        }
    }
}

/// The kinds, in the order of the table.
pub const KINDS: &[Kind] = &[
    Kind::CubeOne,
    Kind::CubeTwo,
    Kind::Product,
    Kind::PointVariable,
    Kind::OnlyPoint,
    Kind::Zero,
    Kind::One,
    Kind::PointPair,
    Kind::PointLeft,
    Kind::PointRight,
    Kind::Top,
    Kind::Bottom,
    Kind::Conjunction,
    Kind::Disjunction,
    Kind::EqualPoints,
    Kind::AtMost,
    Kind::Universe,
    Kind::TermVariable,
    Kind::Constant,
    Kind::Postulate,
    Kind::Pi,
    Kind::Lambda,
    Kind::Application,
    Kind::Sigma,
    Kind::Pair,
    Kind::First,
    Kind::Second,
    Kind::Identity,
    Kind::Reflexivity,
    Kind::IdentityInduction,
    Kind::UnitType,
    Kind::Star,
    Kind::Extension,
    Kind::ExtensionLambda,
    Kind::ExtensionApplication,
    Kind::RecOr,
    Kind::RecBottom,
    Kind::EmptyContext,
    Kind::CubeEntry,
    Kind::TopeEntry,
    Kind::TermEntry,
];

impl Worded for Kind {
    ghost word_of = { word_of_kind };

    ghost all = { all_kinds };

    fn word(&self) -> &'static str {
        self.form().word
    }

    fn every() -> &'static [Kind] {
        KINDS
    }

    ghost words_are_distinct = { kind_words_are_distinct };
}
