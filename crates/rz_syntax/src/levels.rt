//! How deep tokens are nested.

ghost use Rattle.std.specs.Prelude.{◌≡◌, OnOk, IfErr};
ghost use Rattle.rz_syntax.specs.Grammar.{kinds_of};
ghost use Rattle.rz_syntax.specs.Levels.{bend_of, bent, IsLow, IsShallow, IsDeepFault};

use crate::fault::ParseFault;
use crate::lists::Stack;
use rz_lex::{Tok, Token};
use rz_rules::OutOfMemory;
use std::alloc::Global;

/// The least level that no token may have.
pub const TOO_DEEP: u64 = 201;

/// What a token does to the level.
#[derive(Clone, Copy, Debug, PartialEq, Eq)]
pub enum Bend {
    /// A command begins: the level is 0, and no bracket is open.
    Restart,
    /// A bracket opens.
    Open,
    /// The last bracket that is open is closed.
    Close,
    /// The level rises, until a bracket around is closed.
    Rise,
    Stay,
}

/// What a token of a kind does to the level.
pub fn bend_of(kind: Tok) -> Bend
    ensures { result ≡ bend_of kind }
{
    match kind {
        Tok::LangCommand
        | Tok::DefCommand
        | Tok::DefineCommand
        | Tok::PostulateCommand
        | Tok::CheckCommand
        | Tok::ComputeCommand
        | Tok::ComputeWhnfCommand
        | Tok::ComputeNfCommand
        | Tok::SectionCommand
        | Tok::EndCommand
        | Tok::AssumeCommand
        | Tok::VariableCommand
        | Tok::VariablesCommand
        | Tok::SetOptionCommand
        | Tok::UnsetOptionCommand => Bend::Restart,
        Tok::OpenParen | Tok::OpenBracket | Tok::OpenBrace | Tok::EqualAt | Tok::ReflAt => {
            Bend::Open
        }
        Tok::CloseParen | Tok::CloseBracket | Tok::CloseBrace => Bend::Close,
        Tok::Lambda | Tok::Arrow | Tok::Sigma | Tok::Or | Tok::And => Bend::Rise,
        _ => Bend::Stay,
    }
}

/// The level that is reached, and the levels before the brackets that are open.
#[derive(Debug, Drop)]
struct Nesting {
    level: u64,
    outer: Stack<u64>,
}

fn enter(alloc: Global, nesting: &mut Nesting, bend: Bend) -> Result<(), OutOfMemory>
    requires { IsLow nesting.old }
    ensures { OnOk result (nesting.new ≡ bent bend nesting.old) }
{
    match bend {
        Bend::Restart => {
            nesting.level = 0;
            nesting.outer = Stack::new(alloc);
        }
        Bend::Open => {
            nesting.outer.push(nesting.level)?;
            nesting.level += 1;
        }
        Bend::Close => nesting.level = nesting.outer.pop().unwrap_or(nesting.level),
        Bend::Rise => nesting.level += 1,
        Bend::Stay => {}
    }
    Ok(())
}

/// Whether no token is nested too deep; else the first that is.
pub fn check_levels(alloc: Global, tokens: &[Token]) -> Result<(), ParseFault>
    ensures shallow { OnOk result (IsShallow (kinds_of tokens.now)) }
    ensures deep { IfErr result (IsDeepFault (kinds_of tokens.now)) }
{
    let mut nesting = Nesting {
        level: 0,
        outer: Stack::new(alloc),
    };
    for (number, token) in tokens.iter().enumerate() {
        enter(alloc, &mut nesting, bend_of(token.kind))?;
        if nesting.level >= TOO_DEEP {
            return Err(ParseFault::TooNested {
                token: number as u64,
            });
        }
    }
    Ok(())
}
