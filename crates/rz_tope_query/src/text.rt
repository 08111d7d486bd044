//! A text as a sequent of the grammar.

ghost use Rattle.std.specs.Prelude.{◌≡◌, List, IfOk, IfSome, IfNone, OnOk};
ghost use Rattle.rz_lex.specs.declared.token.Token.{Token};
ghost use Rattle.rz_lex.specs.Text.{Lexed};
ghost use Rattle.rz_syntax.specs.declared.forms.RawSequent.{RawSequent};
ghost use Rattle.rz_syntax.specs.Grammar.{kinds_of};
ghost use Rattle.rz_syntax.specs.Levels.{IsShallow};
ghost use Rattle.rz_syntax.specs.Source.{IsSequent};
ghost use Rattle.rz_tope_query.specs.Parts.{IsRawOf};

use rz_lex::{LexFault, Tokens, one_ending};
use rz_rules::OutOfMemory;
use rz_syntax::{ParseFault, RawSequent, parse_sequent};
use std::alloc::Global;

/// The tokens of a text; `None` where it has a bad one.
fn tokens(alloc: Global, text: &str) -> Result<Option<Tokens>, OutOfMemory>
    ensures lexed { IfOk result (λ found. IfSome found (Lexed text.now)) }
    ensures none { IfOk result (λ found. IfNone found
        ((tokens : List Token) → Lexed text.now tokens → ⊥)) }
{
    one_ending();
    match rz_lex::tokens(alloc, text) {
        Ok(tokens) => Ok(Some(tokens)),
        Err(LexFault::OutOfMemory) => Err(OutOfMemory),
        Err(LexFault::BadToken { .. }) => Ok(None),
    }
}

/// Hands want of memory on; any other fault is a refusal.
fn unless_memory(fault: ParseFault) -> Result<(), OutOfMemory>
    ensures { OnOk result (fault ≡ ParseFault.OutOfMemory → ⊥) }
{
    match fault {
        ParseFault::OutOfMemory => Err(OutOfMemory),
        _ => Ok(()),
    }
}

/// The sequent of the grammar that tokens of a text are; `None` where they are none.
fn parse(alloc: Global, text: &str, tokens: &Tokens) -> Result<Option<RawSequent>, OutOfMemory>
    requires { Lexed text.now tokens.now }
    ensures shallow { IfOk result (λ found. IfSome found (λ _. IsShallow (kinds_of tokens.now))) }
    ensures sequent { IfOk result (λ found. IfSome found (IsSequent text.now tokens.now)) }
    ensures none { IfOk result (λ found. IfNone found ((raw : RawSequent)
        → IsShallow (kinds_of tokens.now) → IsSequent text.now tokens.now raw → ⊥)) }
{
    match parse_sequent(alloc, text, tokens.as_slice()) {
        Ok(raw) => Ok(Some(raw)),
        Err(fault) => {
            unless_memory(fault)?;
            Ok(None)
        }
    }
}

/// The sequent of the grammar that a text is; `None` where it is none.
pub fn raw_sequent(alloc: Global, text: &str) -> Result<Option<RawSequent>, OutOfMemory>
    ensures raw { IfOk result (λ found. IfSome found (IsRawOf text.now)) }
    ensures none { IfOk result (λ found. IfNone found
        ((raw : RawSequent) → IsRawOf text.now raw → ⊥)) }
{
    let Some(tokens) = tokens(alloc, text)? else {
        return Ok(None);
    };
    let raw = parse(alloc, text, &tokens)?;
    Ok(raw)
}
