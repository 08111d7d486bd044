//! Typing: the type of each former (Riehl and Shulman 2017, section 2), with a universe that lies in itself.

use crate::rows::Rule;
use crate::symbols::{
    A, ABORT, APP, B, C, CONST, CONTEXT, CUBE, Condition, EXT, F, FORMED, FST, G, H, HAS, HOLDS, I,
    ID, J, LAM, M, NIL, P, PAIR, PI, POINT, POST, PUT_T, PUT_X, Q, REC, REFL, S, SAME, SIG, SND,
    STAR, TAND, TBOT, TOR, U, UNIT, UP_X, V_0, X, XAPP, XCUBE, XLAM, XTERM, XTOPE, Y,
};

/// `univ`: the universe lies in itself.
pub const UNIVERSE_RULE: Rule = (
    "univ",
    &[
        FORMED, C, //
        HAS, C, U, U, //
    ],
    &[],
);

/// `const`: a constant whose type and body are derived without entries has its type.
pub const CONSTANT_RULE: Rule = (
    "const",
    &[
        HAS, NIL, A, U, //
        HAS, NIL, Y, A, //
        FORMED, C, //
        HAS, C, CONST, A, Y, A, //
    ],
    &[],
);

/// `post`: a postulate whose type is derived without entries has its type.
pub const POSTULATE_RULE: Rule = (
    "post",
    &[
        HAS, NIL, A, U, //
        FORMED, C, //
        HAS, C, POST, A, A, //
    ],
    &[],
);

/// `pi`: functions from a type into a family over it form a type.
pub const PI_RULE: Rule = (
    "pi",
    &[
        HAS, C, A, U, //
        HAS, XTERM, C, A, B, U, //
        HAS, C, PI, A, B, U, //
    ],
    &[],
);

/// `sig`: pairs over a family form a type.
pub const SIGMA_RULE: Rule = (
    "sig",
    &[
        HAS, C, A, U, //
        HAS, XTERM, C, A, B, U, //
        HAS, C, SIG, A, B, U, //
    ],
    &[],
);

/// `lam`: a term of the family under a variable gives a function.
pub const LAMBDA_RULE: Rule = (
    "lam",
    &[
        HAS, C, PI, A, B, U, //
        HAS, XTERM, C, A, Y, B, //
        HAS, C, LAM, A, B, Y, PI, A, B, //
    ],
    &[],
);

/// `app`: a function at an argument lies in the family at the argument.
pub const APPLICATION_RULE: Rule = (
    "app",
    &[
        HAS, C, F, PI, A, B, //
        HAS, C, X, A, //
        HAS, C, APP, A, B, F, X, PUT_X, B, X, //
    ],
    &[],
);

/// `pair`: two terms, the second in the family at the first, form a pair.
pub const PAIR_RULE: Rule = (
    "pair",
    &[
        HAS, C, SIG, A, B, U, //
        HAS, C, X, A, //
        HAS, C, Y, PUT_X, B, X, //
        HAS, C, PAIR, A, B, X, Y, SIG, A, B, //
    ],
    &[],
);

/// `fst`: a pair has a first part.
pub const FIRST_RULE: Rule = (
    "fst",
    &[
        HAS, C, H, SIG, A, B, //
        HAS, C, FST, A, B, H, A, //
    ],
    &[],
);

/// `snd`: a pair has a second part, in the family at the first.
pub const SECOND_RULE: Rule = (
    "snd",
    &[
        HAS, C, H, SIG, A, B, //
        HAS, C, SND, A, B, H, PUT_X, B, FST, A, B, H, //
    ],
    &[],
);

/// `id`: two terms of a type have an identity type.
pub const IDENTITY_RULE: Rule = (
    "id",
    &[
        HAS, C, A, U, //
        HAS, C, X, A, //
        HAS, C, Y, A, //
        HAS, C, ID, A, X, Y, U, //
    ],
    &[],
);

/// `refl`: a term is identical to itself.
pub const REFLEXIVITY_RULE: Rule = (
    "refl",
    &[
        HAS, C, X, A, //
        HAS, C, REFL, A, X, ID, A, X, X, //
    ],
    &[],
);

/// `J`: induction along an identity: from the case of reflexivity at a motive.
pub const IDENTITY_INDUCTION_RULE: Rule = (
    "J",
    &[
        HAS, C, M, PI, A, PI, ID, UP_X, A, UP_X, X, V_0, U, //
        HAS, C, G, APP, ID, A, X, X, U, APP, A, PI, ID, UP_X, A, UP_X, X, V_0, U, M, X, //
        REFL, A, X, //
        HAS, C, Y, A, //
        HAS, C, H, ID, A, X, Y, //
        HAS, C, J, A, X, M, G, Y, H, APP, ID, A, X, Y, U, APP, A, PI, ID, UP_X, A, UP_X, X, V_0, U,
        M, Y, H, //
    ],
    &[],
);

/// `unit`: the type with one term is a type.
pub const UNIT_TYPE_RULE: Rule = (
    "unit",
    &[
        FORMED, C, //
        HAS, C, UNIT, U, //
    ],
    &[],
);

/// `star`: the only term of the type with one term.
pub const STAR_RULE: Rule = (
    "star",
    &[
        FORMED, C, //
        HAS, C, STAR, UNIT, //
    ],
    &[],
);

/// `ext`: a family on a shape and a term of it on a face form an extension type.
pub const EXTENSION_RULE: Rule = (
    "ext",
    &[
        HAS, XTOPE, XCUBE, C, I, P, A, U, //
        HAS, XTOPE, XTOPE, XCUBE, C, I, P, Q, X, A, //
        HAS, C, EXT, I, P, A, Q, X, U, //
    ],
    &[],
);

/// `xlam`: a term of the family on the shape that agrees with the face's term on the face gives a function on the shape.
pub const EXTENSION_LAMBDA_RULE: Rule = (
    "xlam",
    &[
        HAS, C, EXT, I, P, A, Q, X, U, //
        HAS, XTOPE, XCUBE, C, I, P, Y, A, //
        SAME, XTOPE, XTOPE, XCUBE, C, I, P, Q, Y, X, A, //
        HAS, C, XLAM, I, P, A, Q, X, Y, EXT, I, P, A, Q, X, //
    ],
    &[],
);

/// `xapp`: a function on a shape at a point of the shape lies in the family at the point.
pub const EXTENSION_APPLICATION_RULE: Rule = (
    "xapp",
    &[
        HAS, C, F, EXT, I, P, A, Q, X, //
        HOLDS, C, PUT_T, P, S, //
        HAS, C, XAPP, I, P, A, Q, X, F, S, PUT_T, A, S, //
    ],
    &[Condition::PointOf(CONTEXT, CUBE, POINT)],
);

/// `rec`: terms under two topes, equal under both, give a term where one of the topes holds.
pub const REC_OR_RULE: Rule = (
    "rec",
    &[
        HAS, C, A, U, //
        HOLDS, C, TOR, P, Q, //
        HAS, XTOPE, C, P, X, A, //
        HAS, XTOPE, C, Q, Y, A, //
        SAME, XTOPE, C, TAND, P, Q, X, Y, A, //
        HAS, C, REC, A, P, Q, X, Y, A, //
    ],
    &[],
);

/// `abort`: where the tope that never holds does, each type has a term.
pub const REC_BOTTOM_RULE: Rule = (
    "abort",
    &[
        HAS, C, A, U, //
        HOLDS, C, TBOT, //
        HAS, C, ABORT, A, A, //
    ],
    &[],
);

/// `conv`: a term of a type is a term of each type that equals it.
pub const CONVERSION_RULE: Rule = (
    "conv",
    &[
        HAS, C, X, A, //
        SAME, C, A, B, U, //
        HAS, C, X, B, //
    ],
    &[],
);
