//! A sequent in a world.

use rz_rules::{Items, Name};

/// A sequent in a world.
#[derive(Debug, Drop)]
pub struct Question {
    /// The names in order, the first one for the outermost cube entry of the context.
    pub names: Items<Name>,
    /// The context, an id of a node: the names' cubes, and then the hypotheses.
    pub context: u64,
    /// The step that says that the context is formed.
    pub at: u64,
    /// The goal, an id of a node: a tope over the context.
    pub goal: u64,
}
