//! The program's one error.

use thiserror::Error;

/// Why the program ends without an answer.
#[derive(Debug, Drop, PartialEq, Error)]
pub enum Stop {
    #[error("out of memory")]
    NoMemory,
}
