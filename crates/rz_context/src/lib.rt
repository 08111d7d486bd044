//! What is known of contexts: their entries, and points and topes over them.
#![tactic(auto)]

mod knowledge;
mod summaries;

pub use knowledge::{Cached, Knowledge, View};
pub use summaries::{FoundEntry, Measure, Summaries};
