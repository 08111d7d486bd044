//! Topes: coherent logic, equality of points, and the directed interval (Riehl and Shulman 2017, sections 2 and 3).

use crate::rows::Rule;
use crate::symbols::{
    C, CUBE_ONE, CUBE_TWO, CX, FORMED, HOLDS, I, K, ONE, P, PL, PP, PR, Q, R, S, S1, T, T1, TAND,
    TBOT, TEQ, TLE, TOR, TTOP, W, XTOPE, ZERO,
};

/// `top`: the tope that always holds does.
pub const TOP_RULE: Rule = (
    "top",
    &[
        FORMED, C, //
        HOLDS, C, TTOP, //
    ],
    &[],
);

/// `bot`: where the tope that never holds does, each tope holds.
pub const BOTTOM_RULE: Rule = (
    "bot",
    &[
        HOLDS, C, TBOT, //
        HOLDS, C, P, //
    ],
    &[],
);

/// `and-i`: two topes that hold have a conjunction that holds.
pub const AND_RULE: Rule = (
    "and-i",
    &[
        HOLDS, C, P, //
        HOLDS, C, Q, //
        HOLDS, C, TAND, P, Q, //
    ],
    &[],
);

/// `and-l`: the first part of a conjunction that holds does.
pub const AND_LEFT_RULE: Rule = (
    "and-l",
    &[
        HOLDS, C, TAND, P, Q, //
        HOLDS, C, P, //
    ],
    &[],
);

/// `and-r`: the second part of a conjunction that holds does.
pub const AND_RIGHT_RULE: Rule = (
    "and-r",
    &[
        HOLDS, C, TAND, P, Q, //
        HOLDS, C, Q, //
    ],
    &[],
);

/// `or-l`: a disjunction holds where its first part does.
pub const OR_LEFT_RULE: Rule = (
    "or-l",
    &[
        HOLDS, C, P, //
        HOLDS, C, TOR, P, Q, //
    ],
    &[],
);

/// `or-r`: a disjunction holds where its second part does.
pub const OR_RIGHT_RULE: Rule = (
    "or-r",
    &[
        HOLDS, C, Q, //
        HOLDS, C, TOR, P, Q, //
    ],
    &[],
);

/// `or-e`: a tope holds where a disjunction does, and the tope under each of its parts.
pub const OR_ELIMINATION_RULE: Rule = (
    "or-e",
    &[
        HOLDS, C, TOR, P, Q, //
        HOLDS, XTOPE, C, P, R, //
        HOLDS, XTOPE, C, Q, R, //
        HOLDS, C, R, //
    ],
    &[],
);

/// `eq-refl`: a point equals itself.
pub const EQUAL_REFLEXIVE_RULE: Rule = (
    "eq-refl",
    &[
        FORMED, C, //
        HOLDS, C, TEQ, I, S, S, //
    ],
    &[],
);

/// `eq-sym`: equality of points is symmetric.
pub const EQUAL_SYMMETRIC_RULE: Rule = (
    "eq-sym",
    &[
        HOLDS, C, TEQ, I, S, T, //
        HOLDS, C, TEQ, I, T, S, //
    ],
    &[],
);

/// `eq-trans`: equality of points is transitive.
pub const EQUAL_TRANSITIVE_RULE: Rule = (
    "eq-trans",
    &[
        HOLDS, C, TEQ, I, S, T, //
        HOLDS, C, TEQ, I, T, W, //
        HOLDS, C, TEQ, I, S, W, //
    ],
    &[],
);

/// `eq-fst`: the first part of a pair of points is its first point.
pub const EQUAL_FIRST_RULE: Rule = (
    "eq-fst",
    &[
        FORMED, C, //
        HOLDS, C, TEQ, I, PL, PP, S, T, S, //
    ],
    &[],
);

/// `eq-snd`: the second part of a pair of points is its second point.
pub const EQUAL_SECOND_RULE: Rule = (
    "eq-snd",
    &[
        FORMED, C, //
        HOLDS, C, TEQ, K, PR, PP, S, T, T, //
    ],
    &[],
);

/// `eq-eta`: a point of a product is the pair of its parts.
pub const EQUAL_ETA_RULE: Rule = (
    "eq-eta",
    &[
        FORMED, C, //
        HOLDS, C, TEQ, CX, I, K, S, PP, PL, S, PR, S, //
    ],
    &[],
);

/// `eq-one`: two points of the cube with one point are equal.
pub const EQUAL_ONE_RULE: Rule = (
    "eq-one",
    &[
        FORMED, C, //
        HOLDS, C, TEQ, CUBE_ONE, S, T, //
    ],
    &[],
);

/// `eq-pair`: pairs of equal points are equal.
pub const EQUAL_PAIR_RULE: Rule = (
    "eq-pair",
    &[
        HOLDS, C, TEQ, I, S, S1, //
        HOLDS, C, TEQ, K, T, T1, //
        HOLDS, C, TEQ, CX, I, K, PP, S, T, PP, S1, T1, //
    ],
    &[],
);

/// `eq-left`: equal points of a product have equal first parts.
pub const EQUAL_LEFT_RULE: Rule = (
    "eq-left",
    &[
        HOLDS, C, TEQ, CX, I, K, S, T, //
        HOLDS, C, TEQ, I, PL, S, PL, T, //
    ],
    &[],
);

/// `eq-right`: equal points of a product have equal second parts.
pub const EQUAL_RIGHT_RULE: Rule = (
    "eq-right",
    &[
        HOLDS, C, TEQ, CX, I, K, S, T, //
        HOLDS, C, TEQ, K, PR, S, PR, T, //
    ],
    &[],
);

/// `le-eq`: of two equal points of the directed interval the first is at most the second.
pub const AT_MOST_EQUAL_RULE: Rule = (
    "le-eq",
    &[
        HOLDS, C, TEQ, CUBE_TWO, S, T, //
        HOLDS, C, TLE, S, T, //
    ],
    &[],
);

/// `le-trans`: the order of the directed interval is transitive.
pub const AT_MOST_TRANSITIVE_RULE: Rule = (
    "le-trans",
    &[
        HOLDS, C, TLE, S, T, //
        HOLDS, C, TLE, T, W, //
        HOLDS, C, TLE, S, W, //
    ],
    &[],
);

/// `le-anti`: the order of the directed interval is antisymmetric.
pub const AT_MOST_ANTISYMMETRIC_RULE: Rule = (
    "le-anti",
    &[
        HOLDS, C, TLE, S, T, //
        HOLDS, C, TLE, T, S, //
        HOLDS, C, TEQ, CUBE_TWO, S, T, //
    ],
    &[],
);

/// `le-total`: of two points of the directed interval one is at most the other.
pub const AT_MOST_TOTAL_RULE: Rule = (
    "le-total",
    &[
        FORMED, C, //
        HOLDS, C, TOR, TLE, S, T, TLE, T, S, //
    ],
    &[],
);

/// `le-zero`: the first end of the directed interval is at most each of its points.
pub const ZERO_AT_MOST_RULE: Rule = (
    "le-zero",
    &[
        FORMED, C, //
        HOLDS, C, TLE, ZERO, S, //
    ],
    &[],
);

/// `le-one`: each point of the directed interval is at most its last end.
pub const AT_MOST_ONE_RULE: Rule = (
    "le-one",
    &[
        FORMED, C, //
        HOLDS, C, TLE, S, ONE, //
    ],
    &[],
);

/// `zero-one`: the ends of the directed interval are not equal.
pub const ZERO_IS_NOT_ONE_RULE: Rule = (
    "zero-one",
    &[
        HOLDS, C, TEQ, CUBE_TWO, ZERO, ONE, //
        HOLDS, C, TBOT, //
    ],
    &[],
);
