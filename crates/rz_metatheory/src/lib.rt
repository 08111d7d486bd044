//! Laws over the definitions of derivations alone. A function of this crate does nothing: its clauses
//! are the law.
#![tactic(auto)]

pub mod laws;
