//! The tokens of a text.

ghost use Rattle.std.specs.Prelude.{◌≡◌, ℕ, List, Ok, Err, All, IfOk, IfErr};
ghost use Rattle.rz_lex.specs.declared.token.Token.{Token};
ghost use Rattle.rz_lex.specs.declared.token.LexFault.{LexFault};
ghost use Rattle.rz_lex.specs.Text.{Lexed, IsFaultOf, IsBadAt, IsReading, UnlessMemory, AreSpansOf, IsWhole};

use crate::list::Tokens;
use crate::piece::piece_at;
use crate::place::{FIRST_PLACE, place_after};
use crate::token::{LexFault, Token};
use std::alloc::Global;

fn read(alloc: Global, text: &[u8]) -> Result<Tokens, LexFault>
    ensures { IsReading text.now result }
{
    let mut tokens = Tokens::new(alloc);
    let mut place = FIRST_PLACE;
    while place.at < text.len() {
        let line = place.line_feeds + 1;
        let column = place.characters + 1;
        let Some(piece) = piece_at(&text[place.at..]) else {
            return Err(LexFault::BadToken { line, column });
        };
        let end = place_after(text, place, piece.len);
        if let Some(kind) = piece.kind {
            let token = Token {
                kind,
                from: place.at as u64,
                to: end.at as u64,
                line,
                column,
            };
            tokens.push(token)?;
        }
        place = end;
    }
    Ok(tokens)
}

/// The tokens of a text, in order. Each is the longest that begins at its place. Between them stand white space
/// and comments: `--` and the rest of the line, and `{-` up to the next `-}`. A comment begins only where a token
/// could, and comments don't nest.
pub fn tokens(alloc: Global, text: &str) -> Result<Tokens, LexFault>
    // What is read is the text.
    ensures lexed { IfOk result (Lexed text.now) }
    // Spans rise without overlap, and between them are gaps.
    ensures spans { IfOk result (AreSpansOf text.now 0) }
    // No token cuts a character.
    ensures whole { IfOk result (All (IsWhole text.now)) }
    // A bad token is the first place that is reached and begins nothing.
    ensures fault { IfErr result (IsFaultOf text.now) }

    // A text that has tokens is read, and one that has a bad token refused, unless memory runs out.
    ensures only { (tokens : List Token) → Lexed text.now tokens → UnlessMemory result (Ok tokens) }
    ensures refused { (line column : ℕ)
        → IsBadAt text.now line column → UnlessMemory result (Err (LexFault.BadToken line column)) }
{
    read(alloc, text.as_bytes())
}
