//! Equality: what each elimination gives, and that each term is made by its type's introduction.

use crate::rows::Rule;
use crate::symbols::{
    A, ABORT, APP, B, C, CONST, CONTEXT, CUBE, Condition, EXT, F, FST, G, H, HAS, HOLDS, I, J, LAM,
    M, P, PAIR, PI, POINT, PUT_T, PUT_X, PV_0, Q, REC, REFL, S, SAME, SIG, SND, STAR, T, TBOT, TEQ,
    TOR, UNIT, UP_T, UP_T1, UP_X, UP_X1, V_0, X, XAPP, XCUBE, XLAM, XTERM, XTOPE, Y, Z,
};

/// `q-beta`: a function at an argument is its body there.
pub const BETA_RULE: Rule = (
    "q-beta",
    &[
        HAS, XTERM, C, A, Y, B, //
        HAS, C, X, A, //
        SAME, C, APP, A, B, LAM, A, B, Y, X, PUT_X, Y, X, PUT_X, B, X, //
    ],
    &[],
);

/// `q-eta`: a function is the function of its values.
pub const ETA_RULE: Rule = (
    "q-eta",
    &[
        HAS, C, F, PI, A, B, //
        SAME, C, F, LAM, A, B, APP, UP_X, A, UP_X1, B, UP_X, F, V_0, PI, A, B, //
    ],
    &[],
);

/// `q-fst`: the first part of a pair is its first term.
pub const FIRST_BETA_RULE: Rule = (
    "q-fst",
    &[
        HAS, C, PAIR, A, B, X, Y, SIG, A, B, //
        SAME, C, FST, A, B, PAIR, A, B, X, Y, X, A, //
    ],
    &[],
);

/// `q-snd`: the second part of a pair is its second term.
pub const SECOND_BETA_RULE: Rule = (
    "q-snd",
    &[
        HAS, C, PAIR, A, B, X, Y, SIG, A, B, //
        SAME, C, SND, A, B, PAIR, A, B, X, Y, Y, PUT_X, B, X, //
    ],
    &[],
);

/// `q-pair`: a term of a type of pairs is the pair of its parts.
pub const PAIR_ETA_RULE: Rule = (
    "q-pair",
    &[
        HAS, C, H, SIG, A, B, //
        SAME, C, H, PAIR, A, B, FST, A, B, H, SND, A, B, H, SIG, A, B, //
    ],
    &[],
);

/// `q-J`: induction along a reflexivity is its case.
pub const IDENTITY_INDUCTION_BETA_RULE: Rule = (
    "q-J",
    &[
        HAS, C, J, A, X, M, G, X, REFL, A, X, B, //
        SAME, C, J, A, X, M, G, X, REFL, A, X, G, B, //
    ],
    &[],
);

/// `q-unit`: each term of the type with one term is that term.
pub const UNIT_ETA_RULE: Rule = (
    "q-unit",
    &[
        HAS, C, X, UNIT, //
        SAME, C, X, STAR, UNIT, //
    ],
    &[],
);

/// `q-delta`: a constant is its body.
pub const DELTA_RULE: Rule = (
    "q-delta",
    &[
        HAS, C, CONST, A, Y, A, //
        SAME, C, CONST, A, Y, Y, A, //
    ],
    &[],
);

/// `q-xbeta`: a function on a shape at a point is its body there.
pub const EXTENSION_BETA_RULE: Rule = (
    "q-xbeta",
    &[
        HAS, C, XLAM, I, P, A, Q, X, Y, EXT, I, P, A, Q, X, //
        HOLDS, C, PUT_T, P, S, //
        SAME, C, XAPP, I, P, A, Q, X, XLAM, I, P, A, Q, X, Y, S, PUT_T, Y, S, PUT_T, A, S, //
    ],
    &[Condition::PointOf(CONTEXT, CUBE, POINT)],
);

/// `q-xeta`: a function on a shape is the function of its values.
pub const EXTENSION_ETA_RULE: Rule = (
    "q-xeta",
    &[
        HAS, C, F, EXT, I, P, A, Q, X, //
        SAME, C, F, XLAM, I, P, A, Q, X, XAPP, I, UP_T1, P, UP_T1, A, UP_T1, Q, UP_T1, X, UP_T, F,
        PV_0, EXT, I, P, A, Q, X, //
    ],
    &[],
);

/// `q-face`: a function on a shape agrees with the face's term on the face.
pub const FACE_RULE: Rule = (
    "q-face",
    &[
        HAS, C, F, EXT, I, P, A, Q, X, //
        HOLDS, C, PUT_T, P, S, //
        HOLDS, C, PUT_T, Q, S, //
        SAME, C, XAPP, I, P, A, Q, X, F, S, PUT_T, X, S, PUT_T, A, S, //
    ],
    &[Condition::PointOf(CONTEXT, CUBE, POINT)],
);

/// `q-or-l`: where the first tope holds, the elimination of a disjunction is its first term.
pub const REC_OR_LEFT_RULE: Rule = (
    "q-or-l",
    &[
        HAS, C, REC, A, P, Q, X, Y, A, //
        HOLDS, C, P, //
        SAME, C, REC, A, P, Q, X, Y, X, A, //
    ],
    &[],
);

/// `q-or-r`: where the second tope holds, the elimination of a disjunction is its second term.
pub const REC_OR_RIGHT_RULE: Rule = (
    "q-or-r",
    &[
        HAS, C, REC, A, P, Q, X, Y, A, //
        HOLDS, C, Q, //
        SAME, C, REC, A, P, Q, X, Y, Y, A, //
    ],
    &[],
);

/// `q-or-eta`: where a disjunction holds, a term is the elimination with it under both topes.
pub const REC_OR_ETA_RULE: Rule = (
    "q-or-eta",
    &[
        HAS, C, Z, A, //
        HOLDS, C, TOR, P, Q, //
        SAME, C, Z, REC, A, P, Q, Z, Z, A, //
    ],
    &[],
);

/// `q-abort`: where the tope that never holds does, each term is that of its type by it.
pub const REC_BOTTOM_ETA_RULE: Rule = (
    "q-abort",
    &[
        HAS, C, X, A, //
        HOLDS, C, TBOT, //
        SAME, C, X, ABORT, A, A, //
    ],
    &[],
);

/// `q-cube`: a term at a point is the term at each point that equals it.
pub const POINT_REPLACEMENT_RULE: Rule = (
    "q-cube",
    &[
        HAS, XTOPE, XCUBE, C, I, P, X, A, //
        HOLDS, C, TEQ, I, S, T, //
        HOLDS, C, PUT_T, P, S, //
        SAME, C, PUT_T, X, S, PUT_T, X, T, PUT_T, A, S, //
    ],
    &[],
);
