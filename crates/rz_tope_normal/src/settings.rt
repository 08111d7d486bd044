//! What stays as it is while a sequent is read.

use rz_tope_proof::Places;

/// The context of a sequent, and its places.
#[derive(Drop)]
pub(crate) struct Setting {
    /// The context, an id of the pool.
    pub context: u64,
    /// The cubes of its cube entries, the innermost first.
    pub entries: Vec<u64>,
    /// The places of the coordinates that occur.
    pub places: Places,
}
