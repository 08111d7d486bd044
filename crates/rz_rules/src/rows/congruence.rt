//! Equality: an equivalence that each former keeps.

use crate::rows::Rule;
use crate::symbols::{
    A, A1, ABORT, APP, B, B1, C, EXT, F, F1, FST, G, G1, H, H1, HAS, HOLDS, I, ID, J, LAM, M, M1,
    P, P1, PAIR, PI, PUT_T, PUT_X, Q, Q1, REC, REFL, S, S1, SAME, SIG, SND, TBOT, TEQ, U, UP_X,
    V_0, X, X1, XAPP, XCUBE, XLAM, XTERM, XTOPE, Y, Y1, Z,
};

/// `q-refl`: a term equals itself.
pub const SAME_REFLEXIVE_RULE: Rule = (
    "q-refl",
    &[
        HAS, C, X, A, //
        SAME, C, X, X, A, //
    ],
    &[],
);

/// `q-sym`: equality of terms is symmetric.
pub const SAME_SYMMETRIC_RULE: Rule = (
    "q-sym",
    &[
        SAME, C, X, Y, A, //
        SAME, C, Y, X, A, //
    ],
    &[],
);

/// `q-trans`: equality of terms is transitive.
pub const SAME_TRANSITIVE_RULE: Rule = (
    "q-trans",
    &[
        SAME, C, X, Y, A, //
        SAME, C, Y, Z, A, //
        SAME, C, X, Z, A, //
    ],
    &[],
);

/// `q-conv`: terms that are equal at a type are equal at each type that equals it.
pub const SAME_CONVERSION_RULE: Rule = (
    "q-conv",
    &[
        SAME, C, X, Y, A, //
        SAME, C, A, B, U, //
        SAME, C, X, Y, B, //
    ],
    &[],
);

/// `c-pi`: equal types and families form equal types of functions.
pub const PI_CONGRUENCE_RULE: Rule = (
    "c-pi",
    &[
        SAME, C, A, A1, U, //
        SAME, XTERM, C, A, B, B1, U, //
        SAME, C, PI, A, B, PI, A1, B1, U, //
    ],
    &[],
);

/// `c-sig`: equal types and families form equal types of pairs.
pub const SIGMA_CONGRUENCE_RULE: Rule = (
    "c-sig",
    &[
        SAME, C, A, A1, U, //
        SAME, XTERM, C, A, B, B1, U, //
        SAME, C, SIG, A, B, SIG, A1, B1, U, //
    ],
    &[],
);

/// `c-lam`: functions with equal parts are equal.
pub const LAMBDA_CONGRUENCE_RULE: Rule = (
    "c-lam",
    &[
        SAME, C, A, A1, U, //
        SAME, XTERM, C, A, B, B1, U, //
        SAME, XTERM, C, A, Y, Y1, B, //
        SAME, C, LAM, A, B, Y, LAM, A1, B1, Y1, PI, A, B, //
    ],
    &[],
);

/// `c-app`: applications with equal parts are equal.
pub const APPLICATION_CONGRUENCE_RULE: Rule = (
    "c-app",
    &[
        SAME, C, A, A1, U, //
        SAME, XTERM, C, A, B, B1, U, //
        SAME, C, F, F1, PI, A, B, //
        SAME, C, X, X1, A, //
        SAME, C, APP, A, B, F, X, APP, A1, B1, F1, X1, PUT_X, B, X, //
    ],
    &[],
);

/// `c-pair`: pairs with equal parts are equal.
pub const PAIR_CONGRUENCE_RULE: Rule = (
    "c-pair",
    &[
        SAME, C, A, A1, U, //
        SAME, XTERM, C, A, B, B1, U, //
        SAME, C, X, X1, A, //
        SAME, C, Y, Y1, PUT_X, B, X, //
        SAME, C, PAIR, A, B, X, Y, PAIR, A1, B1, X1, Y1, SIG, A, B, //
    ],
    &[],
);

/// `c-fst`: equal pairs have equal first parts.
pub const FIRST_CONGRUENCE_RULE: Rule = (
    "c-fst",
    &[
        SAME, C, A, A1, U, //
        SAME, XTERM, C, A, B, B1, U, //
        SAME, C, H, H1, SIG, A, B, //
        SAME, C, FST, A, B, H, FST, A1, B1, H1, A, //
    ],
    &[],
);

/// `c-snd`: equal pairs have equal second parts.
pub const SECOND_CONGRUENCE_RULE: Rule = (
    "c-snd",
    &[
        SAME, C, A, A1, U, //
        SAME, XTERM, C, A, B, B1, U, //
        SAME, C, H, H1, SIG, A, B, //
        SAME, C, SND, A, B, H, SND, A1, B1, H1, PUT_X, B, FST, A, B, H, //
    ],
    &[],
);

/// `c-id`: equal terms of equal types have equal identity types.
pub const IDENTITY_CONGRUENCE_RULE: Rule = (
    "c-id",
    &[
        SAME, C, A, A1, U, //
        SAME, C, X, X1, A, //
        SAME, C, Y, Y1, A, //
        SAME, C, ID, A, X, Y, ID, A1, X1, Y1, U, //
    ],
    &[],
);

/// `c-refl`: equal terms have equal reflexivities.
pub const REFLEXIVITY_CONGRUENCE_RULE: Rule = (
    "c-refl",
    &[
        SAME, C, A, A1, U, //
        SAME, C, X, X1, A, //
        SAME, C, REFL, A, X, REFL, A1, X1, ID, A, X, X, //
    ],
    &[],
);

/// `c-J`: inductions along identities with equal parts are equal.
pub const IDENTITY_INDUCTION_CONGRUENCE_RULE: Rule = (
    "c-J",
    &[
        SAME, C, A, A1, U, //
        SAME, C, X, X1, A, //
        SAME, C, M, M1, PI, A, PI, ID, UP_X, A, UP_X, X, V_0, U, //
        SAME, C, G, G1, APP, ID, A, X, X, U, APP, A, PI, ID, UP_X, A, UP_X, X, V_0, U, M, X, REFL,
        A, X, //
        SAME, C, Y, Y1, A, //
        SAME, C, H, H1, ID, A, X, Y, //
        SAME, C, J, A, X, M, G, Y, H, J, A1, X1, M1, G1, Y1, H1, APP, ID, A, X, Y, U, APP, A, PI,
        ID, UP_X, A, UP_X, X, V_0, U, M, Y, H, //
    ],
    &[],
);

/// `c-ext`: extension types over one cube with equivalent topes and equal parts are equal.
pub const EXTENSION_CONGRUENCE_RULE: Rule = (
    "c-ext",
    &[
        HOLDS, XTOPE, XCUBE, C, I, P, P1, //
        HOLDS, XTOPE, XCUBE, C, I, P1, P, //
        SAME, XTOPE, XCUBE, C, I, P, A, A1, U, //
        HOLDS, XTOPE, XTOPE, XCUBE, C, I, P, Q, Q1, //
        HOLDS, XTOPE, XTOPE, XCUBE, C, I, P, Q1, Q, //
        SAME, XTOPE, XTOPE, XCUBE, C, I, P, Q, X, X1, A, //
        SAME, C, EXT, I, P, A, Q, X, EXT, I, P1, A1, Q1, X1, U, //
    ],
    &[],
);

/// `c-xlam`: functions on a shape with equal parts are equal.
pub const EXTENSION_LAMBDA_CONGRUENCE_RULE: Rule = (
    "c-xlam",
    &[
        HAS, C, XLAM, I, P, A, Q, X, Y, EXT, I, P, A, Q, X, //
        HOLDS, XTOPE, XCUBE, C, I, P, P1, //
        HOLDS, XTOPE, XCUBE, C, I, P1, P, //
        SAME, XTOPE, XCUBE, C, I, P, A, A1, U, //
        HOLDS, XTOPE, XTOPE, XCUBE, C, I, P, Q, Q1, //
        HOLDS, XTOPE, XTOPE, XCUBE, C, I, P, Q1, Q, //
        SAME, XTOPE, XTOPE, XCUBE, C, I, P, Q, X, X1, A, //
        SAME, XTOPE, XCUBE, C, I, P, Y, Y1, A, //
        SAME, C, XLAM, I, P, A, Q, X, Y, XLAM, I, P1, A1, Q1, X1, Y1, EXT, I, P, A, Q, X, //
    ],
    &[],
);

/// `c-xapp`: equal functions on a shape at equal points are equal.
pub const EXTENSION_APPLICATION_CONGRUENCE_RULE: Rule = (
    "c-xapp",
    &[
        HOLDS, XTOPE, XCUBE, C, I, P, P1, //
        HOLDS, XTOPE, XCUBE, C, I, P1, P, //
        SAME, XTOPE, XCUBE, C, I, P, A, A1, U, //
        HOLDS, XTOPE, XTOPE, XCUBE, C, I, P, Q, Q1, //
        HOLDS, XTOPE, XTOPE, XCUBE, C, I, P, Q1, Q, //
        SAME, XTOPE, XTOPE, XCUBE, C, I, P, Q, X, X1, A, //
        SAME, C, F, F1, EXT, I, P, A, Q, X, //
        HOLDS, C, TEQ, I, S, S1, //
        HOLDS, C, PUT_T, P, S, //
        SAME, C, XAPP, I, P, A, Q, X, F, S, XAPP, I, P1, A1, Q1, X1, F1, S1, PUT_T, A, S, //
    ],
    &[],
);

/// `c-rec`: eliminations of one disjunction with equal terms are equal.
pub const REC_OR_CONGRUENCE_RULE: Rule = (
    "c-rec",
    &[
        HAS, C, REC, A, P, Q, X, Y, A, //
        SAME, C, A, A1, U, //
        SAME, XTOPE, C, P, X, X1, A, //
        SAME, XTOPE, C, Q, Y, Y1, A, //
        SAME, C, REC, A, P, Q, X, Y, REC, A1, P, Q, X1, Y1, A, //
    ],
    &[],
);

/// `c-abort`: where the tope that never holds does, equal types have equal terms by it.
pub const REC_BOTTOM_CONGRUENCE_RULE: Rule = (
    "c-abort",
    &[
        SAME, C, A, A1, U, //
        HOLDS, C, TBOT, //
        SAME, C, ABORT, A, ABORT, A1, A, //
    ],
    &[],
);
