//! What begins at a place of a text.

ghost use Rattle.std.specs.Prelude.{◌≡◌, ◌<◌, ◌≤◌, length, IfSome, IfNone};
ghost use Rattle.std.specs.List.{prefix_len};
ghost use Rattle.rz_lex.specs.Spelling.{is_white, is_in_name, may_begin_name, is_name, is_string, is_string_body, entries, table, meaning, free_meaning, spelled, IsLongest, IsLongestToken, NoToken};
ghost use Rattle.rz_lex.specs.Pieces.{is_not_line_feed, block_comment_end, block_comment_len, line_comment_len, opens_gap, gap_len, Begins, NothingBegins};

use crate::table::{
    BLOCK_COMMENT, BLOCK_COMMENT_END, FIXED, LINE_COMMENT, LINE_FEED, NEVER_FIRST, NEVER_IN_NAMES,
    QUOTE, WHITE_SPACE,
};
use crate::token::Tok;

/// A piece of a text: its length in bytes, and its kind if it is a token. White space and comments have none.
#[derive(Clone, Copy, Debug, PartialEq, Eq)]
pub struct Piece {
    pub len: usize,
    pub kind: Option<Tok>,
}

#[tactic(auto, unfolding(crate::specs::Spelling::is_white))]
fn is_white(byte: u8) -> bool
    ensures { result ≡ is_white byte }
{
    WHITE_SPACE.contains(&byte)
}

#[tactic(auto, unfolding(crate::specs::Spelling::is_in_name, crate::specs::Spelling::is_white))]
fn is_in_name(byte: u8) -> bool
    ensures { result ≡ is_in_name byte }
{
    !is_white(byte) && !NEVER_IN_NAMES.contains(&byte)
}

#[tactic(auto, unfolding(crate::specs::Spelling::may_begin_name))]
fn may_begin_name(byte: u8) -> bool
    ensures { result ≡ may_begin_name byte }
{
    !NEVER_FIRST.contains(&byte)
}

fn run_in_name(rest: &[u8]) -> usize
    ensures { result ≡ prefix_len is_in_name rest.now }
{
    for (i, byte) in rest.iter().enumerate() {
        if !is_in_name(*byte) {
            return i;
        }
    }
    rest.len()
}

// The length of the longest name at the front, 0 if there is none.
fn name_len(rest: &[u8]) -> usize
    ensures { IsLongest is_name rest.now result }
{
    match rest.first() {
        Some(first) if may_begin_name(*first) => run_in_name(rest),
        _ => 0,
    }
}

// The length of the string at the front, 0 if there is none.
fn string_len(rest: &[u8]) -> usize
    ensures { IsLongest is_string rest.now result }
{
    match rest {
        [QUOTE, body @ ..] => match string_body_len(body) {
            0 => 0,
            len => len + 1,
        },
        _ => 0,
    }
}

// The length of what follows a string's first quote, 0 if the string doesn't end.
fn string_body_len(body: &[u8]) -> usize
    ensures { IsLongest is_string_body body.now result }
{
    for (i, byte) in body.iter().enumerate() {
        if *byte == QUOTE {
            return i + 1;
        }
        if *byte == LINE_FEED {
            return 0;
        }
    }
    0
}

// The longest spelling of a table at the front, and what it means.
fn longest_fixed(fixed: &[(&str, Tok)], rest: &[u8]) -> Option<(usize, Tok)>
    ensures none { IfNone result (NoToken (meaning (entries fixed.now)) rest.now) }
    ensures some { IfSome result
        (λ found. IsLongestToken (meaning (entries fixed.now)) rest.now found.0 found.1) }
{
    let mut best: Option<(usize, Tok)> = None;
    let mut len = 0;
    for (spelling, kind) in fixed {
        let spelling = spelling.as_bytes();
        if len < spelling.len() && rest.starts_with(spelling) {
            len = spelling.len();
            best = Some((len, *kind));
        }
    }
    best
}

// The longest spelling of the table of tokens at the front, and what it means.
#[tactic(auto, unfolding(crate::specs::Spelling::table))]
fn longest_listed(rest: &[u8]) -> Option<(usize, Tok)>
    ensures none { IfNone result (NoToken (meaning table) rest.now) }
    ensures some { IfSome result
        (λ found. IsLongestToken (meaning table) rest.now found.0 found.1) }
{
    longest_fixed(FIXED, rest)
}

// The longest name or string at the front. They never begin alike.
fn longest_free(rest: &[u8]) -> Option<(usize, Tok)>
    ensures none { IfNone result (NoToken free_meaning rest.now) }
    ensures some { IfSome result (λ found. IsLongestToken free_meaning rest.now found.0 found.1) }
{
    let name = name_len(rest);
    let string = string_len(rest);
    if name < string {
        Some((string, Tok::Text))
    } else if 0 < name {
        Some((name, Tok::Name))
    } else {
        None
    }
}

// The longest token at the front. Of two that are as long the table's is meant.
fn longest_token(rest: &[u8]) -> Option<(usize, Tok)>
    ensures none { IfNone result (NoToken (spelled table) rest.now) }
    ensures some { IfSome result
        (λ found. IsLongestToken (spelled table) rest.now found.0 found.1) }
{
    let fixed = longest_listed(rest);
    let free = longest_free(rest);
    match (fixed, free) {
        (Some((fixed_len, fixed_kind)), Some((free_len, free_kind))) => {
            if free_len <= fixed_len {
                Some((fixed_len, fixed_kind))
            } else {
                Some((free_len, free_kind))
            }
        }
        (Some(fixed), None) => Some(fixed),
        (None, free) => free,
    }
}

#[tactic(auto, unfolding(crate::specs::Pieces::opens_gap))]
fn opens_gap(rest: &[u8]) -> bool
    ensures { result ≡ opens_gap rest.now }
{
    match rest.first() {
        Some(first) => {
            is_white(*first) || rest.starts_with(LINE_COMMENT) || rest.starts_with(BLOCK_COMMENT)
        }
        None => false,
    }
}

// Where the first end of a block comment in the bytes is over.
fn block_comment_end(bytes: &[u8]) -> Option<usize>
    ensures value { result ≡ block_comment_end bytes.now }
    ensures within { IfSome result (λ end. end ≤ length bytes.now) }
{
    for i in 0..bytes.len() {
        if bytes[i..].starts_with(BLOCK_COMMENT_END) {
            return Some(i + BLOCK_COMMENT_END.len());
        }
    }
    None
}

fn line_len(rest: &[u8]) -> usize
    ensures value { result ≡ prefix_len is_not_line_feed rest.now }
    ensures within { result ≤ length rest.now }
{
    for (len, next) in rest.iter().enumerate() {
        if *next == LINE_FEED {
            return len;
        }
    }
    rest.len()
}

fn line_comment_len(rest: &[u8]) -> usize
    requires { length LINE_COMMENT.now ≤ length rest.now }
    ensures value { result ≡ line_comment_len rest.now }
    ensures within { (0 < result) × (result ≤ length rest.now) }
{
    LINE_COMMENT.len() + line_len(&rest[LINE_COMMENT.len()..])
}

fn block_comment_len(rest: &[u8]) -> Option<usize>
    requires { length BLOCK_COMMENT.now ≤ length rest.now }
    ensures value { result ≡ block_comment_len rest.now }
    ensures within { IfSome result (λ len. (0 < len) × (len ≤ length rest.now)) }
{
    let end = block_comment_end(&rest[BLOCK_COMMENT.len()..])?;
    Some(BLOCK_COMMENT.len() + end)
}

// The length of the gap that is open at the front, if it ends.
#[tactic(auto, unfolding(crate::specs::Pieces::gap_len))]
fn gap_len(rest: &[u8]) -> Option<usize>
    ensures value { result ≡ gap_len rest.now }
    ensures within { IfSome result (λ len. (0 < len) × (len ≤ length rest.now)) }
{
    let first = rest.first()?;
    if is_white(*first) {
        Some(1)
    } else if rest.starts_with(LINE_COMMENT) {
        Some(line_comment_len(rest))
    } else if rest.starts_with(BLOCK_COMMENT) {
        block_comment_len(rest)
    } else {
        None
    }
}

/// What begins at the front of the bytes that are left of a text.
pub fn piece_at(rest: &[u8]) -> Option<Piece>
    ensures begins { IfSome result (Begins rest.now) }
    ensures nothing { IfNone result (NothingBegins rest.now) }
    ensures within { IfSome result (λ piece. (0 < piece.len) × (piece.len ≤ length rest.now)) }
{
    if opens_gap(rest) {
        let len = gap_len(rest)?;
        Some(Piece { len, kind: None })
    } else {
        let (len, kind) = longest_token(rest)?;
        Some(Piece {
            len,
            kind: Some(kind),
        })
    }
}
