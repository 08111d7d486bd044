//! The top call of the checker: from the words of a command to what is written and the status.
#![tactic(auto)]

mod app;
mod command;
mod page;
mod refutation;

pub use app::rzk;
