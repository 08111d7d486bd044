//! Tokens into commands or into a sequent: a grammar that is data, and one engine over it.
#![tactic(auto)]

mod action;
mod builder;
mod engine;
mod fault;
mod forms;
mod grammar;
mod laws;
mod levels;
mod lists;
mod making;
mod parser;
mod parts;

pub use action::{Action, Join, Leaf, Step};
pub use fault::ParseFault;
pub use forms::{
    Bind, Command, Commands, CubeNames, Entry, EntrySort, Form, Pat, Raw, RawFace, RawSequent,
    Shape, Word,
};
pub use grammar::{Rule, Symbol, alternatives};
pub use laws::{one_reading, one_sequent};
pub use levels::{Bend, TOO_DEEP, bend_of};
pub use parser::{parse, parse_sequent};
