//! The fences of a Markdown file, each read from one line.

ghost use Rattle.std.specs.Prelude.{◌≡◌, ◌≤◌, length};
ghost use Rattle.std.specs.Option.{option_copied};
ghost use Rattle.rz_literate.specs.Fence.{character, allows, run_length, content, unindented, is_code_info, opened_by, opening, is_white, closes};

/// The character of a fence.
#[derive(Clone, Copy)]
pub enum Mark {
    Backquote,
    Tilde,
}

/// What an opening fence says of the lines below it.
#[derive(Clone, Copy)]
pub struct Fence {
    /// The character that opens it, and closes it too.
    pub mark: Mark,
    /// How often the character stands there: at least three times.
    pub run: usize,
    /// Whether the lines inside are code.
    pub is_code: bool,
}

impl Mark {
    fn character(self) -> u8
        ensures { result ≡ character self }
    {
        match self {
            Mark::Backquote => b'`',
            Mark::Tilde => b'~',
        }
    }

    /// Whether the text may follow the run of an opening fence.
    fn allows(self, info: &[u8]) -> bool
        ensures { result ≡ allows self info.now }
    {
        match self {
            Mark::Backquote => !info.contains(&b'`'),
            Mark::Tilde => true,
        }
    }
}

/// How often the byte stands at the front of the text.
fn run_length(byte: u8, text: &[u8]) -> usize
    ensures within { result ≤ length text.now }
    ensures counted { result ≡ run_length byte text.now }
{
    text.iter().take_while(|b| **b == byte).count()
}

/// The line without its ending.
fn content(line: &[u8]) -> &[u8]
    ensures { result.now ≡ content line.now }
{
    match line {
        [text @ .., b'\r', b'\n'] => text,
        [text @ .., b'\n'] => text,
        _ => line,
    }
}

/// The line without its ending and the spaces before it, or `None` where these are four or more.
fn unindented(line: &[u8]) -> Option<&[u8]>
    ensures { option_copied result ≡ unindented line.now }
{
    let text = content(line);
    let indent = run_length(b' ', text);
    if indent > 3 {
        None
    } else {
        Some(&text[indent..])
    }
}

/// Whether the info string of a fence says that code is inside.
fn is_code_info(info: &[u8]) -> bool
    ensures { result ≡ is_code_info info.now }
{
    let name = &info[run_length(b' ', info)..];
    name == b"rzk".as_slice()
        || name.starts_with(b"rzk ")
        || name.starts_with(b"{.rzk ")
        || name.starts_with(b"{.rzk}")
}

/// The fence that the text opens by a run of this character.
fn opened_by(mark: Mark, text: &[u8]) -> Option<Fence>
    ensures { result ≡ opened_by mark text.now }
{
    let run = run_length(mark.character(), text);
    let info = &text[run..];
    if run < 3 || !mark.allows(info) {
        return None;
    }
    Some(Fence {
        mark,
        run,
        is_code: is_code_info(info),
    })
}

/// The fence that the line opens, where it stands outside a fence.
pub fn opening(line: &[u8]) -> Option<Fence>
    ensures { result ≡ opening line.now }
{
    let text = unindented(line)?;
    opened_by(Mark::Backquote, text).or(opened_by(Mark::Tilde, text))
}

/// Whether the text is only spaces and tabs.
fn is_white(text: &[u8]) -> bool
    ensures { result ≡ is_white text.now }
{
    text.iter().all(|b| *b == b' ' || *b == b'\t')
}

/// Whether the line closes the fence, where it stands inside it.
pub fn closes(fence: Fence, line: &[u8]) -> bool
    ensures { result ≡ closes fence line.now }
{
    let Some(text) = unindented(line) else {
        return false;
    };
    let run = run_length(fence.mark.character(), text);
    fence.run <= run && is_white(&text[run..])
}
