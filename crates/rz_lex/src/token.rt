//! Tokens, and why a text has none.

/// What a token means, however it is spelled.
#[derive(Clone, Copy, Debug, PartialEq, Eq)]
pub enum Tok {
    Universe,
    CubeSort,
    TopeSort,
    CubeOne,
    CubeTwo,
    Product,
    Star,
    EndZero,
    EndOne,
    Top,
    Bottom,
    And,
    Or,
    SamePoint,
    AtMost,
    Arrow,
    Sigma,
    Lambda,
    Equal,
    EqualAt,
    UnitType,
    UnitTerm,
    Refl,
    ReflAt,
    IdJ,
    RecOr,
    RecBot,
    First,
    Second,
    As,
    Colon,
    ColonEqual,
    Comma,
    Semicolon,
    Bar,
    OpenParen,
    CloseParen,
    OpenBracket,
    CloseBracket,
    OpenBrace,
    CloseBrace,
    MapsTo,
    Turnstile,
    Blank,
    Uses,
    RzkOne,
    LangCommand,
    DefCommand,
    DefineCommand,
    PostulateCommand,
    CheckCommand,
    ComputeCommand,
    ComputeWhnfCommand,
    ComputeNfCommand,
    SectionCommand,
    EndCommand,
    AssumeCommand,
    VariableCommand,
    VariablesCommand,
    SetOptionCommand,
    UnsetOptionCommand,
    /// A name that the table doesn't have.
    Name,
    /// A string, with its quotes.
    Text,
}

/// A token: the bytes `from..to` of the text. Its first character stands at `line` and `column`, which count
/// from 1; a column counts characters.
#[derive(Clone, Copy, Debug, PartialEq, Eq)]
pub struct Token {
    pub kind: Tok,
    pub from: u64,
    pub to: u64,
    pub line: u64,
    pub column: u64,
}

/// Why a text was not read.
#[derive(Clone, Copy, Debug, PartialEq, Eq)]
pub enum LexFault {
    /// At this line and column no token begins, no comment and no white space. Both count from 1; a column
    /// counts characters. A block comment or a string that is never closed is such a place at its beginning.
    BadToken { line: u64, column: u64 },
    /// Memory ran out. This can be the answer to any text.
    OutOfMemory,
}
