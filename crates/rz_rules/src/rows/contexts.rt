//! Contexts: what a formed context is.

use crate::rows::Rule;
use crate::symbols::{
    A, C, CONTEXT, CUBE, Condition, FORMED, HAS, I, NIL, P, TOPE, U, XCUBE, XTERM, XTOPE,
};

/// `ctx-nil`: the context without entries is formed.
pub const CONTEXT_NIL_RULE: Rule = (
    "ctx-nil",
    &[
        FORMED, NIL, //
    ],
    &[],
);

/// `ctx-cube`: a formed context and a cube entry of at most 64 leaves are a formed context.
pub const CONTEXT_CUBE_RULE: Rule = (
    "ctx-cube",
    &[
        FORMED, C, //
        FORMED, XCUBE, C, I, //
    ],
    &[Condition::FewLeaves(CUBE)],
);

/// `ctx-tope`: a formed context and a tope over it are a formed context.
pub const CONTEXT_TOPE_RULE: Rule = (
    "ctx-tope",
    &[
        FORMED, C, //
        FORMED, XTOPE, C, P, //
    ],
    &[Condition::TopeOver(CONTEXT, TOPE)],
);

/// `ctx-term`: a context and an entry of a type in it are a formed context.
pub const CONTEXT_TERM_RULE: Rule = (
    "ctx-term",
    &[
        HAS, C, A, U, //
        FORMED, XTERM, C, A, //
    ],
    &[],
);
