//! What a form stands under: the binders around it.

use rz_rules::{Numbers, Values};

/// What a binder binds.
#[derive(Clone, Copy, Debug, PartialEq, Eq)]
pub enum Binder {
    /// A point: the next cube entry of the context.
    Point,
    /// A term: the next term entry.
    Term,
}

/// Binders, the outermost first.
pub type Binders = Values<Binder>;

/// What stands around a form, over a context whose cube entries are those of the binders of points.
#[derive(Debug, Drop)]
pub struct Local {
    /// A step of the log that says that the context is formed.
    pub formed: u64,
    /// The ids of the assumptions whose term entries stand before those of the binders.
    pub assumed: Numbers,
    /// The binders of points and of terms.
    pub binders: Binders,
}
