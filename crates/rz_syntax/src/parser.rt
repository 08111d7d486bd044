//! The tokens of a text into its commands, or into a sequent.

ghost use Rattle.std.specs.Prelude.{◌≡◌, true, false, Ok, Err, IfOk, OnOk, IfErr};
ghost use Rattle.rz_lex.specs.declared.token.Token.{Token};
ghost use Rattle.rz_lex.specs.Text.{Lexed};
ghost use Rattle.rz_syntax.specs.declared.forms.Commands.{Commands};
ghost use Rattle.rz_syntax.specs.declared.forms.RawSequent.{RawSequent};
ghost use Rattle.rz_syntax.specs.declared.fault.ParseFault.{ParseFault};
ghost use Rattle.rz_syntax.specs.Grammar.{kinds_of};
ghost use Rattle.rz_syntax.specs.Levels.{IsShallow};
ghost use Rattle.rz_syntax.specs.Source.{begins_file, IsFile, IsRefusal, IsFaultOf, IsSequent, IsSequentFaultOf, IsSequentRefusal, UnlessMemory};

use crate::engine::read;
use crate::fault::ParseFault;
use crate::forms::{Commands, RawSequent};
use crate::grammar::Rule;
use crate::levels::check_levels;
use crate::making::{build, build_sequent};
use rz_lex::{Tok, Token};
use std::alloc::Global;

// Whether the first token begins a file.
fn begins_file(tokens: &[Token]) -> bool
    ensures { result ≡ begins_file (kinds_of tokens.now) }
{
    match tokens.first() {
        Some(token) => matches!(token.kind, Tok::LangCommand),
        None => false,
    }
}

fn answer(alloc: Global, text: &str, tokens: &[Token]) -> Result<Commands, ParseFault>
    requires { Lexed text.now tokens.now }
    ensures file { IfOk result (IsFile text.now tokens.now) }
    ensures shallow { OnOk result (IsShallow (kinds_of tokens.now)) }
    ensures fault { IfErr result (IsFaultOf (kinds_of tokens.now)) }
{
    if !begins_file(tokens) {
        return Err(ParseFault::NoLang);
    }
    check_levels(alloc, tokens)?;
    let steps = read(alloc, Rule::File, tokens)?;
    Ok(build(alloc, text, tokens, steps.as_slice())?)
}

/// The commands that the tokens of a text are. The tokens must be those of the text, as
/// `rz_lex::tokens` answers them.
///
/// The grammar is the table of `Rule`; `docs/LANGUAGE.md` prints it. A token may be nested at most
/// 200 levels deep.
pub fn parse(alloc: Global, text: &str, tokens: &[Token]) -> Result<Commands, ParseFault>
    requires { Lexed text.now tokens.now }
    // What is read is a file of the grammar, with no token too deep.
    ensures file { IfOk result (IsFile text.now tokens.now) }
    ensures shallow { OnOk result (IsShallow (kinds_of tokens.now)) }
    // Which fault it is, and at which token.
    ensures fault { IfErr result (IsFaultOf (kinds_of tokens.now)) }

    // A file without a token too deep is read as the one list of commands that it says, and any
    // other tokens are refused, unless memory runs out.
    ensures only { (commands : Commands) → IsShallow (kinds_of tokens.now)
        → IsFile text.now tokens.now commands → UnlessMemory result (Ok commands) }
    ensures refused { (fault : ParseFault) → IsRefusal (kinds_of tokens.now) fault
        → UnlessMemory result (Err fault) }
{
    answer(alloc, text, tokens)
}

fn sequent_answer(alloc: Global, text: &str, tokens: &[Token]) -> Result<RawSequent, ParseFault>
    requires { Lexed text.now tokens.now }
    ensures sequent { IfOk result (IsSequent text.now tokens.now) }
    ensures shallow { OnOk result (IsShallow (kinds_of tokens.now)) }
    ensures fault { IfErr result (IsSequentFaultOf (kinds_of tokens.now)) }
{
    check_levels(alloc, tokens)?;
    let steps = read(alloc, Rule::Sequent, tokens)?;
    Ok(build_sequent(alloc, text, tokens, steps.as_slice())?)
}

/// The sequent that the tokens of a text are: names with cubes, `|`, topes, `|-` and a tope. The
/// tokens must be those of the text, as `rz_lex::tokens` answers them.
///
/// The grammar is the table of `Rule`, from `Rule::Sequent` on; `docs/LANGUAGE.md` prints it. A
/// token may be nested at most 200 levels deep, as in a file; `NoLang` never comes.
pub fn parse_sequent(alloc: Global, text: &str, tokens: &[Token]) -> Result<RawSequent, ParseFault>
    requires { Lexed text.now tokens.now }
    // What is read is a sequent of the grammar, with no token too deep.
    ensures sequent { IfOk result (IsSequent text.now tokens.now) }
    ensures shallow { OnOk result (IsShallow (kinds_of tokens.now)) }
    // Which fault it is, and at which token.
    ensures fault { IfErr result (IsSequentFaultOf (kinds_of tokens.now)) }

    // A sequent without a token too deep is read as the one that it is, and any other tokens are
    // refused, unless memory runs out.
    ensures only { (sequent : RawSequent) → IsShallow (kinds_of tokens.now)
        → IsSequent text.now tokens.now sequent → UnlessMemory result (Ok sequent) }
    ensures refused { (fault : ParseFault) → IsSequentRefusal (kinds_of tokens.now) fault
        → UnlessMemory result (Err fault) }
{
    sequent_answer(alloc, text, tokens)
}
