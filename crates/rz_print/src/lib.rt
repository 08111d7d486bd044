//! Source forms as text, which reads back as the same form.
#![tactic(auto)]

mod laws;
mod layout;
mod level;
mod printer;
mod writer;

pub use laws::{one_term, parsed_forms_are_readable, words_are_read};
pub use layout::Piece;
pub use level::Level;
pub use printer::print;
