//! The grammar, as a table: for each rule its alternatives, each a list of symbols.
//!
//! A symbol is a token that must come, a rule, or an action, which takes no token. What may be
//! repeated and what may be left out are rules of their own, whose first alternative is empty.

ghost use Rattle.std.specs.Prelude.{◌≡◌, map};
ghost use Rattle.rz_syntax.specs.Grammar.{alternatives};

use crate::action::{Action, Join, Leaf};
use Symbol::{Do, One, Sub};
use rz_lex::Tok;

/// What stands in an alternative.
#[derive(Clone, Copy, Debug, PartialEq, Eq)]
pub enum Symbol {
    /// A token of this kind.
    One(Tok),
    /// What the rule gives.
    Sub(Rule),
    /// No token; the action is done.
    Do(Action),
}

/// The rules of the grammar.
#[derive(Clone, Copy, Debug, PartialEq, Eq)]
pub enum Rule {
    /// A whole file.
    File,
    /// `{";"}`
    Semicolons,
    /// `{command {";"}}`
    Commands,
    Command,
    /// `[uses]`
    Uses,
    /// `{name}`, of a command
    Words,
    /// `[name]`, of a command
    Title,
    /// `{binder}`
    Binders,
    /// `"(" pat {pat} ":" term ["|" term] ")"`, or the same in braces with the tope
    Binder,
    /// `["|" term]`
    Tope,
    /// `{pat}`
    Patterns,
    Pattern,
    Term,
    /// `["->" term | "as" rest]`
    Tail,
    /// `{pat | binder}`
    Parameters,
    /// `pat | binder`
    Parameter,
    /// `disj ["[" face {"," face} "]"]`
    Rest,
    /// `["[" face {"," face} "]"]`
    Faces,
    /// `{"," face}`
    MoreFaces,
    Face,
    Disjunction,
    /// `["\/" disj]`
    MoreDisjunction,
    Conjunction,
    /// `["/\" conj]`
    MoreConjunction,
    Relation,
    /// `[("===" | "<=" | "=" | "=_{" term "}") prod]`
    RightSide,
    Product,
    /// `{"×" app}`
    MoreProduct,
    Application,
    /// `atom | ("first" | "second") atom`
    Head,
    /// `{atom}`
    Arguments,
    Atom,
    /// `[":" term] "}"`, behind `refl_{` and a term
    ReflEnd,
    /// `")"` or `"," term ")"`, behind `(` and a term
    Closing,
    /// A whole sequent: `[names {"," names}] "|" [term {"," term}] "|-" term`
    Sequent,
    /// `[names {"," names}]`
    Entries,
    /// `{"," names}`
    MoreEntries,
    /// `name {name} ":" term`
    Names,
    /// `[term {"," term}]`
    Hypotheses,
    /// `{"," term}`
    MoreHypotheses,
}

/// What `Rule::File` gives.
pub const FILE: &[&[Symbol]] = &[&[
    One(Tok::LangCommand),
    One(Tok::RzkOne),
    Sub(Rule::Semicolons),
    Sub(Rule::Commands),
]];

/// What `Rule::Semicolons` gives.
pub const SEMICOLONS: &[&[Symbol]] = &[&[], &[One(Tok::Semicolon), Sub(Rule::Semicolons)]];

/// What `Rule::Commands` gives.
pub const COMMANDS: &[&[Symbol]] = &[
    &[],
    &[
        Sub(Rule::Command),
        Sub(Rule::Semicolons),
        Sub(Rule::Commands),
    ],
];

/// What `Rule::Command` gives.
pub const COMMAND: &[&[Symbol]] = &[
    &[
        One(Tok::DefCommand),
        Do(Action::Begin),
        One(Tok::Name),
        Do(Action::CommandName),
        Sub(Rule::Uses),
        Do(Action::OpenBinds),
        Sub(Rule::Binders),
        One(Tok::Colon),
        Sub(Rule::Term),
        One(Tok::ColonEqual),
        Sub(Rule::Term),
        Do(Action::Define),
    ],
    &[
        One(Tok::DefineCommand),
        Do(Action::Begin),
        One(Tok::Name),
        Do(Action::CommandName),
        Sub(Rule::Uses),
        Do(Action::OpenBinds),
        Sub(Rule::Binders),
        One(Tok::Colon),
        Sub(Rule::Term),
        One(Tok::ColonEqual),
        Sub(Rule::Term),
        Do(Action::Define),
    ],
    &[
        One(Tok::PostulateCommand),
        Do(Action::Begin),
        One(Tok::Name),
        Do(Action::CommandName),
        Sub(Rule::Uses),
        Do(Action::OpenBinds),
        Sub(Rule::Binders),
        One(Tok::Colon),
        Sub(Rule::Term),
        Do(Action::Postulate),
    ],
    &[
        One(Tok::CheckCommand),
        Do(Action::Begin),
        Sub(Rule::Term),
        One(Tok::Colon),
        Sub(Rule::Term),
        Do(Action::Check),
    ],
    &[
        One(Tok::ComputeCommand),
        Do(Action::Begin),
        Sub(Rule::Term),
        Do(Action::Compute),
    ],
    &[
        One(Tok::ComputeWhnfCommand),
        Do(Action::Begin),
        Sub(Rule::Term),
        Do(Action::Compute),
    ],
    &[
        One(Tok::ComputeNfCommand),
        Do(Action::Begin),
        Sub(Rule::Term),
        Do(Action::Compute),
    ],
    &[
        One(Tok::SectionCommand),
        Do(Action::Begin),
        Sub(Rule::Title),
        Do(Action::Section),
    ],
    &[
        One(Tok::EndCommand),
        Do(Action::Begin),
        Sub(Rule::Title),
        Do(Action::End),
    ],
    &[
        One(Tok::AssumeCommand),
        Do(Action::Begin),
        One(Tok::Name),
        Do(Action::AddWord),
        Sub(Rule::Words),
        One(Tok::Colon),
        Sub(Rule::Term),
        Do(Action::Assume),
    ],
    &[
        One(Tok::VariableCommand),
        Do(Action::Begin),
        One(Tok::Name),
        Do(Action::AddWord),
        Sub(Rule::Words),
        One(Tok::Colon),
        Sub(Rule::Term),
        Do(Action::Assume),
    ],
    &[
        One(Tok::VariablesCommand),
        Do(Action::Begin),
        One(Tok::Name),
        Do(Action::AddWord),
        Sub(Rule::Words),
        One(Tok::Colon),
        Sub(Rule::Term),
        Do(Action::Assume),
    ],
    &[
        One(Tok::SetOptionCommand),
        Do(Action::Begin),
        One(Tok::Text),
        One(Tok::Equal),
        One(Tok::Text),
        Do(Action::SetOption),
    ],
    &[
        One(Tok::UnsetOptionCommand),
        Do(Action::Begin),
        One(Tok::Text),
        Do(Action::SetOption),
    ],
];

/// What `Rule::Uses` gives.
pub const USES: &[&[Symbol]] = &[
    &[],
    &[
        One(Tok::Uses),
        One(Tok::OpenParen),
        One(Tok::Name),
        Do(Action::AddWord),
        Sub(Rule::Words),
        One(Tok::CloseParen),
    ],
];

/// What `Rule::Words` gives.
pub const WORDS: &[&[Symbol]] = &[
    &[],
    &[One(Tok::Name), Do(Action::AddWord), Sub(Rule::Words)],
];

/// What `Rule::Title` gives.
pub const TITLE: &[&[Symbol]] = &[&[], &[One(Tok::Name), Do(Action::CommandName)]];

/// What `Rule::Binders` gives.
pub const BINDERS: &[&[Symbol]] = &[&[], &[Sub(Rule::Binder), Sub(Rule::Binders)]];

/// What `Rule::Binder` gives.
pub const BINDER: &[&[Symbol]] = &[
    &[
        One(Tok::OpenParen),
        Do(Action::OpenPatterns),
        Sub(Rule::Pattern),
        Do(Action::AddPattern),
        Sub(Rule::Patterns),
        One(Tok::Colon),
        Sub(Rule::Term),
        Sub(Rule::Tope),
        One(Tok::CloseParen),
    ],
    &[
        One(Tok::OpenBrace),
        Do(Action::OpenPatterns),
        Sub(Rule::Pattern),
        Do(Action::AddPattern),
        Sub(Rule::Patterns),
        One(Tok::Colon),
        Sub(Rule::Term),
        One(Tok::Bar),
        Sub(Rule::Term),
        Do(Action::AddRestricted),
        One(Tok::CloseBrace),
    ],
];

/// What `Rule::Tope` gives.
pub const TOPE: &[&[Symbol]] = &[
    &[Do(Action::AddTyped)],
    &[One(Tok::Bar), Sub(Rule::Term), Do(Action::AddRestricted)],
];

/// What `Rule::Patterns` gives.
pub const PATTERNS: &[&[Symbol]] = &[
    &[],
    &[
        Sub(Rule::Pattern),
        Do(Action::AddPattern),
        Sub(Rule::Patterns),
    ],
];

/// What `Rule::Pattern` gives.
pub const PATTERN: &[&[Symbol]] = &[
    &[One(Tok::Name), Do(Action::NamePattern)],
    &[One(Tok::Blank), Do(Action::BlankPattern)],
    &[
        Do(Action::Here),
        One(Tok::OpenParen),
        Sub(Rule::Pattern),
        One(Tok::Comma),
        Sub(Rule::Pattern),
        One(Tok::CloseParen),
        Do(Action::PairPattern),
    ],
];

/// What `Rule::Term` gives.
pub const TERM: &[&[Symbol]] = &[
    &[
        Do(Action::Here),
        Do(Action::OpenBinds),
        One(Tok::Lambda),
        Sub(Rule::Parameter),
        Sub(Rule::Parameters),
        One(Tok::Arrow),
        Sub(Rule::Term),
        Do(Action::Lambda),
    ],
    &[
        Do(Action::Here),
        Do(Action::OpenBinds),
        Sub(Rule::Binder),
        One(Tok::Arrow),
        Sub(Rule::Term),
        Do(Action::Arrows),
    ],
    &[
        Do(Action::Here),
        One(Tok::Sigma),
        One(Tok::OpenParen),
        Sub(Rule::Pattern),
        One(Tok::Colon),
        Sub(Rule::Term),
        One(Tok::CloseParen),
        One(Tok::Comma),
        Sub(Rule::Term),
        Do(Action::Sigma),
    ],
    &[Sub(Rule::Rest), Sub(Rule::Tail)],
];

/// What `Rule::Tail` gives.
pub const TAIL: &[&[Symbol]] = &[
    &[],
    &[One(Tok::Arrow), Sub(Rule::Term), Do(Action::Arrow)],
    &[One(Tok::As), Sub(Rule::Rest), Do(Action::Join(Join::As))],
];

/// What `Rule::Parameters` gives.
pub const PARAMETERS: &[&[Symbol]] = &[&[], &[Sub(Rule::Parameter), Sub(Rule::Parameters)]];

/// What `Rule::Parameter` gives.
pub const PARAMETER: &[&[Symbol]] = &[
    &[Sub(Rule::Pattern), Do(Action::AddUntyped)],
    &[Sub(Rule::Binder)],
];

/// What `Rule::Rest` gives.
pub const REST: &[&[Symbol]] = &[&[Sub(Rule::Disjunction), Sub(Rule::Faces)]];

/// What `Rule::Faces` gives.
pub const FACES: &[&[Symbol]] = &[
    &[],
    &[
        Do(Action::OpenFaces),
        One(Tok::OpenBracket),
        Sub(Rule::Face),
        Sub(Rule::MoreFaces),
        One(Tok::CloseBracket),
        Do(Action::Restrict),
    ],
];

/// What `Rule::MoreFaces` gives.
pub const MORE_FACES: &[&[Symbol]] = &[
    &[],
    &[One(Tok::Comma), Sub(Rule::Face), Sub(Rule::MoreFaces)],
];

/// What `Rule::Face` gives.
pub const FACE: &[&[Symbol]] = &[&[
    Sub(Rule::Disjunction),
    One(Tok::MapsTo),
    Sub(Rule::Term),
    Do(Action::AddFace),
]];

/// What `Rule::Disjunction` gives.
pub const DISJUNCTION: &[&[Symbol]] = &[&[Sub(Rule::Conjunction), Sub(Rule::MoreDisjunction)]];

/// What `Rule::MoreDisjunction` gives.
pub const MORE_DISJUNCTION: &[&[Symbol]] = &[
    &[],
    &[
        One(Tok::Or),
        Sub(Rule::Disjunction),
        Do(Action::Join(Join::Or)),
    ],
];

/// What `Rule::Conjunction` gives.
pub const CONJUNCTION: &[&[Symbol]] = &[&[Sub(Rule::Relation), Sub(Rule::MoreConjunction)]];

/// What `Rule::MoreConjunction` gives.
pub const MORE_CONJUNCTION: &[&[Symbol]] = &[
    &[],
    &[
        One(Tok::And),
        Sub(Rule::Conjunction),
        Do(Action::Join(Join::And)),
    ],
];

/// What `Rule::Relation` gives.
pub const RELATION: &[&[Symbol]] = &[&[Sub(Rule::Product), Sub(Rule::RightSide)]];

/// What `Rule::RightSide` gives.
pub const RIGHT_SIDE: &[&[Symbol]] = &[
    &[],
    &[
        One(Tok::SamePoint),
        Sub(Rule::Product),
        Do(Action::Join(Join::SamePoint)),
    ],
    &[
        One(Tok::AtMost),
        Sub(Rule::Product),
        Do(Action::Join(Join::AtMost)),
    ],
    &[
        One(Tok::Equal),
        Sub(Rule::Product),
        Do(Action::Join(Join::Equal)),
    ],
    &[
        One(Tok::EqualAt),
        Sub(Rule::Term),
        One(Tok::CloseBrace),
        Sub(Rule::Product),
        Do(Action::EqualAt),
    ],
];

/// What `Rule::Product` gives.
pub const PRODUCT: &[&[Symbol]] = &[&[Sub(Rule::Application), Sub(Rule::MoreProduct)]];

/// What `Rule::MoreProduct` gives.
pub const MORE_PRODUCT: &[&[Symbol]] = &[
    &[],
    &[
        One(Tok::Product),
        Sub(Rule::Application),
        Do(Action::Join(Join::Product)),
        Sub(Rule::MoreProduct),
    ],
];

/// What `Rule::Application` gives.
pub const APPLICATION: &[&[Symbol]] = &[&[
    Do(Action::OpenArguments),
    Sub(Rule::Head),
    Sub(Rule::Arguments),
    Do(Action::Apply),
]];

/// What `Rule::Head` gives.
pub const HEAD: &[&[Symbol]] = &[
    &[Sub(Rule::Atom)],
    &[
        Do(Action::Here),
        One(Tok::First),
        Sub(Rule::Atom),
        Do(Action::First),
    ],
    &[
        Do(Action::Here),
        One(Tok::Second),
        Sub(Rule::Atom),
        Do(Action::Second),
    ],
];

/// What `Rule::Arguments` gives.
pub const ARGUMENTS: &[&[Symbol]] = &[
    &[],
    &[
        Sub(Rule::Atom),
        Do(Action::AddArgument),
        Sub(Rule::Arguments),
    ],
];

/// What `Rule::Atom` gives.
pub const ATOM: &[&[Symbol]] = &[
    &[One(Tok::Name), Do(Action::Named)],
    &[One(Tok::Universe), Do(Action::Leaf(Leaf::Universe))],
    &[One(Tok::CubeSort), Do(Action::Leaf(Leaf::CubeSort))],
    &[One(Tok::TopeSort), Do(Action::Leaf(Leaf::TopeSort))],
    &[One(Tok::CubeOne), Do(Action::Leaf(Leaf::CubeOne))],
    &[One(Tok::CubeTwo), Do(Action::Leaf(Leaf::CubeTwo))],
    &[One(Tok::Star), Do(Action::Leaf(Leaf::Star))],
    &[One(Tok::EndZero), Do(Action::Leaf(Leaf::EndZero))],
    &[One(Tok::EndOne), Do(Action::Leaf(Leaf::EndOne))],
    &[One(Tok::Top), Do(Action::Leaf(Leaf::Top))],
    &[One(Tok::Bottom), Do(Action::Leaf(Leaf::Bottom))],
    &[One(Tok::UnitType), Do(Action::Leaf(Leaf::UnitType))],
    &[One(Tok::UnitTerm), Do(Action::Leaf(Leaf::UnitTerm))],
    &[One(Tok::RecBot), Do(Action::Leaf(Leaf::RecBot))],
    &[One(Tok::Refl), Do(Action::Leaf(Leaf::Refl))],
    &[
        Do(Action::Here),
        One(Tok::ReflAt),
        Sub(Rule::Term),
        Sub(Rule::ReflEnd),
    ],
    &[
        Do(Action::Here),
        Do(Action::OpenArguments),
        One(Tok::IdJ),
        One(Tok::OpenParen),
        Sub(Rule::Term),
        Do(Action::AddArgument),
        One(Tok::Comma),
        Sub(Rule::Term),
        Do(Action::AddArgument),
        One(Tok::Comma),
        Sub(Rule::Term),
        Do(Action::AddArgument),
        One(Tok::Comma),
        Sub(Rule::Term),
        Do(Action::AddArgument),
        One(Tok::Comma),
        Sub(Rule::Term),
        Do(Action::AddArgument),
        One(Tok::Comma),
        Sub(Rule::Term),
        Do(Action::AddArgument),
        One(Tok::CloseParen),
        Do(Action::IdJ),
    ],
    &[
        Do(Action::Here),
        Do(Action::OpenFaces),
        One(Tok::RecOr),
        One(Tok::OpenParen),
        Sub(Rule::Face),
        One(Tok::Comma),
        Sub(Rule::Face),
        Sub(Rule::MoreFaces),
        One(Tok::CloseParen),
        Do(Action::RecOr),
    ],
    &[
        Do(Action::Here),
        One(Tok::OpenParen),
        Sub(Rule::Term),
        Sub(Rule::Closing),
    ],
];

/// What `Rule::ReflEnd` gives.
pub const REFL_END: &[&[Symbol]] = &[
    &[
        One(Tok::Colon),
        Sub(Rule::Term),
        One(Tok::CloseBrace),
        Do(Action::ReflTyped),
    ],
    &[One(Tok::CloseBrace), Do(Action::ReflAt)],
];

/// What `Rule::Closing` gives.
pub const CLOSING: &[&[Symbol]] = &[
    &[One(Tok::CloseParen), Do(Action::Bracketed)],
    &[
        One(Tok::Comma),
        Sub(Rule::Term),
        One(Tok::CloseParen),
        Do(Action::Pair),
    ],
];

/// What `Rule::Sequent` gives.
pub const SEQUENT: &[&[Symbol]] = &[&[
    Sub(Rule::Entries),
    One(Tok::Bar),
    Do(Action::OpenArguments),
    Sub(Rule::Hypotheses),
    One(Tok::Turnstile),
    Sub(Rule::Term),
]];

/// What `Rule::Entries` gives.
pub const ENTRIES: &[&[Symbol]] = &[&[], &[Sub(Rule::Names), Sub(Rule::MoreEntries)]];

/// What `Rule::MoreEntries` gives.
pub const MORE_ENTRIES: &[&[Symbol]] = &[
    &[],
    &[One(Tok::Comma), Sub(Rule::Names), Sub(Rule::MoreEntries)],
];

/// What `Rule::Names` gives.
pub const NAMES: &[&[Symbol]] = &[&[
    One(Tok::Name),
    Do(Action::AddWord),
    Sub(Rule::Words),
    One(Tok::Colon),
    Sub(Rule::Term),
    Do(Action::AddNames),
]];

/// What `Rule::Hypotheses` gives.
pub const HYPOTHESES: &[&[Symbol]] = &[
    &[],
    &[
        Sub(Rule::Term),
        Do(Action::AddArgument),
        Sub(Rule::MoreHypotheses),
    ],
];

/// What `Rule::MoreHypotheses` gives.
pub const MORE_HYPOTHESES: &[&[Symbol]] = &[
    &[],
    &[
        One(Tok::Comma),
        Sub(Rule::Term),
        Do(Action::AddArgument),
        Sub(Rule::MoreHypotheses),
    ],
];

/// The alternatives of a rule.
#[tactic(auto, unfolding(crate::specs::Grammar::alternatives))]
pub fn alternatives(rule: Rule) -> &'static [&'static [Symbol]]
    ensures { alternatives rule ≡ map (λ one. one.now) result.now }
{
    match rule {
        Rule::File => FILE,
        Rule::Semicolons => SEMICOLONS,
        Rule::Commands => COMMANDS,
        Rule::Command => COMMAND,
        Rule::Uses => USES,
        Rule::Words => WORDS,
        Rule::Title => TITLE,
        Rule::Binders => BINDERS,
        Rule::Binder => BINDER,
        Rule::Tope => TOPE,
        Rule::Patterns => PATTERNS,
        Rule::Pattern => PATTERN,
        Rule::Term => TERM,
        Rule::Tail => TAIL,
        Rule::Parameters => PARAMETERS,
        Rule::Parameter => PARAMETER,
        Rule::Rest => REST,
        Rule::Faces => FACES,
        Rule::MoreFaces => MORE_FACES,
        Rule::Face => FACE,
        Rule::Disjunction => DISJUNCTION,
        Rule::MoreDisjunction => MORE_DISJUNCTION,
        Rule::Conjunction => CONJUNCTION,
        Rule::MoreConjunction => MORE_CONJUNCTION,
        Rule::Relation => RELATION,
        Rule::RightSide => RIGHT_SIDE,
        Rule::Product => PRODUCT,
        Rule::MoreProduct => MORE_PRODUCT,
        Rule::Application => APPLICATION,
        Rule::Head => HEAD,
        Rule::Arguments => ARGUMENTS,
        Rule::Atom => ATOM,
        Rule::ReflEnd => REFL_END,
        Rule::Closing => CLOSING,
        Rule::Sequent => SEQUENT,
        Rule::Entries => ENTRIES,
        Rule::MoreEntries => MORE_ENTRIES,
        Rule::Names => NAMES,
        Rule::Hypotheses => HYPOTHESES,
        Rule::MoreHypotheses => MORE_HYPOTHESES,
    }
}
