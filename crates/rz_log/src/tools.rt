//! The three tools with which a declaration is judged.

/// What decides entailments, what reduces and what compares terms.
#[derive(Debug, Drop)]
pub struct Tools<E, R, V> {
    pub entail: E,
    pub reduce: R,
    pub convert: V,
}
