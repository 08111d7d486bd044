//! Tokens into text.

ghost use Rattle.std.specs.Prelude.{◌≡◌, ◌∷◌, ◌++◌, [], Option, None, Some, string_bytes, IfOk, OnOk};
ghost use Rattle.rz_lex.specs.Spelling.{entries, table};
ghost use Rattle.rz_print.specs.Printing.{Adds};
ghost use Rattle.rz_print.specs.Text.{first_spelling, opens, closes, has_bracket, is_paren, is_glued, gap_between};

use rz_lex::{FIXED, Tok};
use rz_rules::OutOfMemory;
use std::alloc::Global;

// The first spelling of a token in a table; the empty text where the table doesn't have it.
fn first_spelling<'a>(fixed: &[(&'a str, Tok)], kind: Tok) -> &'a str
    ensures { result.now ≡ first_spelling (entries fixed.now) kind }
{
    for (spelling, meaning) in fixed {
        if *meaning == kind {
            return spelling;
        }
    }
    ""
}

/// The first spelling of a token in the table of tokens; the empty text for a name or a string.
#[tactic(auto, unfolding(rz_lex::specs::Spelling::table))]
pub fn spelling(kind: Tok) -> &'static str
    ensures { result.now ≡ first_spelling table kind }
{
    first_spelling(FIXED, kind)
}

// Whether the token stands close before any other.
fn opens(kind: Tok) -> bool
    ensures { result ≡ opens kind }
{
    matches!(
        kind,
        Tok::OpenParen | Tok::OpenBracket | Tok::EqualAt | Tok::ReflAt
    )
}

// Whether the token stands close behind any other.
fn closes(kind: Tok) -> bool
    ensures { result ≡ closes kind }
{
    matches!(
        kind,
        Tok::CloseParen | Tok::CloseBracket | Tok::CloseBrace | Tok::Comma
    )
}

// Whether a bracket is the token's own.
fn has_bracket(kind: Tok) -> bool
    ensures { result ≡ has_bracket kind }
{
    matches!(kind, Tok::IdJ | Tok::RecOr)
}

fn is_paren(kind: Tok) -> bool
    ensures { result ≡ is_paren kind }
{
    matches!(kind, Tok::OpenParen)
}

// Whether nothing stands between two tokens.
fn is_glued(kind: Tok, next: Tok) -> bool
    ensures { result ≡ is_glued kind next }
{
    opens(kind) || closes(next) || (has_bracket(kind) && is_paren(next))
}

/// A text that grows by tokens.
#[derive(Debug, Drop)]
pub struct Writer {
    text: String,
    last: Option<Tok>,
}

impl Writer {
    /// The empty text.
    pub fn new(alloc: Global) -> Self
        ensures text { string_bytes result.text ≡ [] }
        ensures last { result.last ≡ None }
    {
        Writer {
            text: String::new(alloc),
            last: None,
        }
    }

    /// Adds a token, and a space before it where two tokens stand apart.
    pub fn write(&mut self, kind: Tok, spelling: &str) -> Result<(), OutOfMemory>
        ensures { OnOk result (Adds self.old self.new
            (record { kind = kind; bytes = spelling.now } ∷ [])) }
    {
        if let Some(last) = self.last
            && !is_glued(last, kind)
        {
            self.text.push_str(" ")?;
        }
        self.text.push_str(spelling)?;
        self.last = Some(kind);
        Ok(())
    }

    /// The text.
    pub fn into_text(self) -> String
        ensures { string_bytes result ≡ string_bytes self.text }
    {
        self.text
    }
}
