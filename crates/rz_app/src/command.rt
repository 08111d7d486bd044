//! The words of a command.

ghost use Rattle.std.specs.Prelude.{◌≡◌, map, string_bytes};
ghost use Rattle.std.specs.Option.{option_map};
ghost use Rattle.rz_app.specs.Command.{command, command_of, is_operand, request_command};

/// A command with its operands, lent from the words.
pub enum Request<'a> {
    /// Asks the kernel about a file of this name.
    Kernel(&'a str),
    /// Asks whether the sequent that this text says holds, if it says one.
    Tope(&'a str),
}

/// What the words after the program's name ask for; `None` where they have the form of no command.
pub fn parse<'a>(words: &'a [String]) -> Option<Request<'a>>
    ensures { option_map request_command result ≡ command (map string_bytes words.now) }
{
    match words {
        [word, operand] if is_operand(operand.as_str()) => {
            command_of(word.as_str(), operand.as_str())
        }
        _ => None,
    }
}

/// What a word with an operand asks for.
fn command_of<'a>(word: &str, operand: &'a str) -> Option<Request<'a>>
    ensures { option_map request_command result ≡ command_of word.now operand.now }
{
    match word {
        "kernel" => Some(Request::Kernel(operand)),
        "tope" => Some(Request::Tope(operand)),
        _ => None,
    }
}

/// Whether a word is not empty and doesn't begin with `-`.
fn is_operand(word: &str) -> bool
    ensures { result ≡ is_operand word.now }
{
    !word.is_empty() && !word.starts_with('-')
}
