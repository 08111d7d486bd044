//! Why tokens are no file, or no sequent.

use rz_rules::OutOfMemory;

/// Why the tokens of a text are not read. Tokens are counted from 0 within the text.
#[derive(Clone, Copy, Debug, PartialEq, Eq)]
pub enum ParseFault {
    /// The first token isn't `#lang`, or there is none. This is an answer to files alone.
    NoLang,
    /// The first token that is nested deeper than 200 levels.
    TooNested { token: u64 },
    /// The first token after which nothing could make a file, or a sequent where one is read; the
    /// number of tokens where something could follow.
    Syntax { token: u64 },
    /// Memory ran out. This can be the answer to any tokens.
    OutOfMemory,
}

impl From<OutOfMemory> for ParseFault {
    ghost use Rattle.std.specs.Prelude.{◌≡◌};
    ghost use Rattle.rz_syntax.specs.declared.fault.ParseFault.TheVariants.{OutOfMemory as NoMemory};

    ghost from_gives = { λ _ fault. fault ≡ NoMemory };

    fn from(_error: OutOfMemory) -> ParseFault {
        ParseFault::OutOfMemory
    }
}
