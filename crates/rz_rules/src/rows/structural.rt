//! What holds of every judgment: what a context gives, how a judgment moves from context to context, and what a
//! judgment rests on.

use crate::rows::Rule;
use crate::symbols::{A, C, HAS, SAME, U, X, Y};

/// `hyp`: the tope of an entry holds.
pub const HYPOTHESIS_RULE: Rule = ("hyp", &[], &[]);

/// `var`: a variable has the type of its entry.
pub const VARIABLE_RULE: Rule = ("var", &[], &[]);

/// `s-weak`: a judgment holds under one entry more.
pub const WEAKENING_RULE: Rule = ("s-weak", &[], &[]);

/// `s-term`: a judgment holds with a term in the place of a term entry.
pub const TERM_CUT_RULE: Rule = ("s-term", &[], &[]);

/// `s-cube`: a judgment holds with a point in the place of a cube entry.
pub const CUBE_CUT_RULE: Rule = ("s-cube", &[], &[]);

/// `s-cut`: a judgment holds without a tope entry whose tope holds.
pub const TOPE_CUT_RULE: Rule = ("s-cut", &[], &[]);

/// `s-ctx`: the context of a judgment is formed.
pub const CONTEXT_OF_RULE: Rule = ("s-ctx", &[], &[]);

/// `s-type`: the type of a term is a type.
pub const TYPE_OF_RULE: Rule = (
    "s-type",
    &[
        HAS, C, X, A, //
        HAS, C, A, U, //
    ],
    &[],
);

/// `s-left`: the left side of an equality has its type.
pub const LEFT_SIDE_RULE: Rule = (
    "s-left",
    &[
        SAME, C, X, Y, A, //
        HAS, C, X, A, //
    ],
    &[],
);

/// `s-right`: the right side of an equality has its type.
pub const RIGHT_SIDE_RULE: Rule = (
    "s-right",
    &[
        SAME, C, X, Y, A, //
        HAS, C, Y, A, //
    ],
    &[],
);

/// `s-inv`: what the typing row of a term's former asks for.
pub const INVERSION_RULE: Rule = ("s-inv", &[], &[]);

/// `s-own`: the type of a term equals the one that the typing row of its former gives.
pub const OWN_TYPE_RULE: Rule = ("s-own", &[], &[]);
