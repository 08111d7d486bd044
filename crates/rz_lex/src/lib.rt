//! Text into tokens: the longest match over a table of spellings, with gaps of white space and comments.
#![tactic(auto)]

mod laws;
mod lexer;
mod list;
mod piece;
mod place;
mod table;
mod token;

pub use laws::{one_ending, one_reading, whole_characters};
pub use lexer::tokens;
pub use list::{OutOfMemory, Tokens};
pub use table::{
    BLOCK_COMMENT, BLOCK_COMMENT_END, FIXED, LINE_COMMENT, LINE_FEED, NEVER_FIRST, NEVER_IN_NAMES,
    QUOTE, WHITE_SPACE,
};
pub use token::{LexFault, Tok, Token};
