//! What a step of a term is, what a run of steps comes to, and when two terms compare as equal,
//! over plain trees; and the laws of these definitions. A function of this crate does nothing: its
//! clauses are the law.
#![tactic(auto)]

pub mod laws;
