//! The spellings of the tokens, and the bytes that white space, comments, names and strings are told by.

use crate::token::Tok;

/// Each spelling of a token that is always spelled alike, and what it means.
pub const FIXED: &[(&str, Tok)] = &[
    ("U", Tok::Universe),
    ("CUBE", Tok::CubeSort),
    ("TOPE", Tok::TopeSort),
    ("1", Tok::CubeOne),
    ("2", Tok::CubeTwo),
    ("*", Tok::Product),
    ("×", Tok::Product),
    ("*_1", Tok::Star),
    ("⋆₁", Tok::Star),
    ("0_2", Tok::EndZero),
    ("0₂", Tok::EndZero),
    ("1_2", Tok::EndOne),
    ("1₂", Tok::EndOne),
    ("TOP", Tok::Top),
    ("⊤", Tok::Top),
    ("BOT", Tok::Bottom),
    ("⊥", Tok::Bottom),
    ("/\\", Tok::And),
    ("∧", Tok::And),
    ("\\/", Tok::Or),
    ("∨", Tok::Or),
    ("===", Tok::SamePoint),
    ("≡", Tok::SamePoint),
    ("<=", Tok::AtMost),
    ("≤", Tok::AtMost),
    ("->", Tok::Arrow),
    ("→", Tok::Arrow),
    ("Sigma", Tok::Sigma),
    ("Σ", Tok::Sigma),
    ("∑", Tok::Sigma),
    ("\\", Tok::Lambda),
    ("=", Tok::Equal),
    ("=_{", Tok::EqualAt),
    ("Unit", Tok::UnitType),
    ("unit", Tok::UnitTerm),
    ("refl", Tok::Refl),
    ("refl_{", Tok::ReflAt),
    ("idJ", Tok::IdJ),
    ("recOR", Tok::RecOr),
    ("recBOT", Tok::RecBot),
    ("first", Tok::First),
    ("π₁", Tok::First),
    ("second", Tok::Second),
    ("π₂", Tok::Second),
    ("as", Tok::As),
    (":", Tok::Colon),
    (":=", Tok::ColonEqual),
    (",", Tok::Comma),
    (";", Tok::Semicolon),
    ("|", Tok::Bar),
    ("(", Tok::OpenParen),
    (")", Tok::CloseParen),
    ("[", Tok::OpenBracket),
    ("]", Tok::CloseBracket),
    ("{", Tok::OpenBrace),
    ("}", Tok::CloseBrace),
    ("|->", Tok::MapsTo),
    ("↦", Tok::MapsTo),
    ("|-", Tok::Turnstile),
    ("⊢", Tok::Turnstile),
    ("_", Tok::Blank),
    ("uses", Tok::Uses),
    ("rzk-1", Tok::RzkOne),
    ("#lang", Tok::LangCommand),
    ("#def", Tok::DefCommand),
    ("#define", Tok::DefineCommand),
    ("#postulate", Tok::PostulateCommand),
    ("#check", Tok::CheckCommand),
    ("#compute", Tok::ComputeCommand),
    ("#compute-whnf", Tok::ComputeWhnfCommand),
    ("#compute-nf", Tok::ComputeNfCommand),
    ("#section", Tok::SectionCommand),
    ("#end", Tok::EndCommand),
    ("#assume", Tok::AssumeCommand),
    ("#variable", Tok::VariableCommand),
    ("#variables", Tok::VariablesCommand),
    ("#set-option", Tok::SetOptionCommand),
    ("#unset-option", Tok::UnsetOptionCommand),
];

/// The white space. No other character is.
pub const WHITE_SPACE: &[u8] = b" \t\n\r";

/// The characters beside white space that no name has.
pub const NEVER_IN_NAMES: &[u8] = b"\\;,#\"[](){}<>|";

/// The characters that no name begins with.
pub const NEVER_FIRST: &[u8] = b"-?!.";

/// Begins a comment to the end of the line.
pub const LINE_COMMENT: &[u8] = b"--";

/// Begins a comment that has an end of its own.
pub const BLOCK_COMMENT: &[u8] = b"{-";

/// Ends a comment that has an end of its own.
pub const BLOCK_COMMENT_END: &[u8] = b"-}";

/// Ends a line.
pub const LINE_FEED: u8 = b'\n';

/// Begins and ends a string.
pub const QUOTE: u8 = b'"';
