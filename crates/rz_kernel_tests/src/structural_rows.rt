//! Structural rows.

use crate::rows::{Case, answer_to};
use std::test::Fail;

const CASES: &[Case] = &[
    (
        "the tope of an entry, and behind a cube entry",
        &[
            "5 ctx-tope 0 formed, xtope /t 0=start; 1",
            "6 hyp 0 holds, xtope /t 0=start, 0=start; 5",
            "7 ctx-cube 0 formed, xcube xtope /t 0=start c2; 5",
            "8 hyp 1 holds, xcube xtope /t 0=start c2, teq c2 pv:1 p0; 7",
        ],
        false,
    ),
    (
        "the tope of an entry without its shift",
        &[
            "5 ctx-tope 0 formed, xtope /t 0=start; 1",
            "6 ctx-cube 0 formed, xcube xtope /t 0=start c2; 5",
            "7 hyp 1 holds, xcube xtope /t 0=start c2, 0=start; 6",
        ],
        true,
    ),
    (
        "the tope of a cube entry",
        &[
            "5 ctx-tope 0 formed, xtope /t 0=start; 1",
            "6 hyp 1 holds, xtope /t 0=start, 0=start; 5",
        ],
        true,
    ),
    (
        "variables and their types, the second over the first",
        &[
            "5 univ 0 has, nil, U, U; 0",
            "6 ctx-term 0 formed, xterm nil U; 5",
            "7 var 0 has, xterm nil U, v:0, U; 6",
            "8 ctx-term 0 formed, xterm xterm nil U v:0; 7",
            "9 var 0 has, xterm xterm nil U v:0, v:0, v:1; 8",
            "10 var 0 has, xterm xterm nil U v:0, v:1, U; 8",
        ],
        false,
    ),
    (
        "a variable's type without its shift",
        &[
            "5 univ 0 has, nil, U, U; 0",
            "6 ctx-term 0 formed, xterm nil U; 5",
            "7 var 0 has, xterm nil U, v:0, U; 6",
            "8 ctx-term 0 formed, xterm xterm nil U v:0; 7",
            "9 var 0 has, xterm xterm nil U v:0, v:0, v:0; 8",
        ],
        true,
    ),
    (
        "weakening by a term entry, a cube entry and a tope entry, and behind other entries",
        &[
            "5 univ 0 has, nil, U, U; 0",
            "6 ctx-term 0 formed, xterm nil U; 5",
            "7 var 0 has, xterm nil U, v:0, U; 6",
            "8 ctx-term 0 formed, xterm xterm nil U v:0; 7",
            "9 s-weak 0 has, xterm xterm nil U v:0, v:1, U; 7 8",
            "10 univ 0 has, /t, U, U; 1",
            "11 ctx-term 0 formed, xterm /t U; 10",
            "12 s-weak 1 has, xterm /t U, v:0, U; 7 11",
            "13 var 0 has, xterm /t U, v:0, U; 11",
            "14 ctx-term 0 formed, xterm xterm /t U v:0; 13",
            "15 var 0 has, xterm xterm nil U v:0, v:0, v:1; 8",
            "16 s-weak 2 has, xterm xterm /t U v:0, v:0, v:1; 15 14",
            "17 ctx-term 0 formed, xterm nil unit; 3",
            "18 univ 0 has, xterm nil unit, U, U; 17",
            "19 ctx-term 0 formed, xterm xterm nil unit U; 18",
            "20 var 0 has, xterm xterm nil unit U, v:0, U; 19",
            "21 ctx-term 0 formed, xterm xterm xterm nil unit U v:0; 20",
            "22 s-weak 2 has, xterm xterm xterm nil unit U v:0, v:0, v:1; 15 21",
            "23 s-weak 1 formed, xterm xterm nil unit U; 6 19",
        ],
        false,
    ),
    (
        "weakening that doesn't shift",
        &[
            "5 univ 0 has, nil, U, U; 0",
            "6 ctx-term 0 formed, xterm nil U; 5",
            "7 var 0 has, xterm nil U, v:0, U; 6",
            "8 ctx-term 0 formed, xterm xterm nil U v:0; 7",
            "9 s-weak 0 has, xterm xterm nil U v:0, v:0, U; 7 8",
        ],
        true,
    ),
    (
        "a term in the place of a variable, also behind another",
        &[
            "5 univ 0 has, nil, U, U; 0",
            "6 ctx-term 0 formed, xterm nil U; 5",
            "7 var 0 has, xterm nil U, v:0, U; 6",
            "8 ctx-term 0 formed, xterm xterm nil U v:0; 7",
            "9 var 0 has, xterm xterm nil U v:0, v:0, v:1; 8",
            "10 s-term 1 has, xterm nil unit, v:0, unit; 9 3",
            "11 ctx-term 0 formed, xterm nil unit; 3",
            "12 var 0 has, xterm nil unit, v:0, unit; 11",
            "13 s-term 0 has, nil, star, unit; 12 4",
        ],
        false,
    ),
    (
        "a term of another type in the place of a variable",
        &[
            "5 ctx-term 0 formed, xterm nil unit; 3",
            "6 var 0 has, xterm nil unit, v:0, unit; 5",
            "7 s-term 0 has, nil, unit, unit; 6 3",
        ],
        true,
    ),
    (
        "a point in the place of a variable",
        &[
            "5 le-zero 0 holds, /t, start<=0; 1",
            "6 eq-refl 0 holds, nil, teq c2 p0 p0; 0",
            "7 s-cube 0 holds, nil, tle p0 p0; 5 6",
        ],
        false,
    ),
    (
        "a point that only equals another in the place of a variable",
        &[
            "5 ctx-tope 0 formed, xtope /st teq c2 pv:1 pv:0; 2",
            "6 hyp 0 holds, xtope /st teq c2 pv:1 pv:0, teq c2 pv:1 pv:0; 5",
            "7 ctx-cube 0 formed, xcube xtope /st teq c2 pv:1 pv:0 c2; 5",
            "8 le-zero 0 holds, xcube xtope /st teq c2 pv:1 pv:0 c2, start<=0; 7",
            "9 s-cube 0 holds, xtope /st teq c2 pv:1 pv:0, tle p0 pv:1; 8 6",
        ],
        true,
    ),
    (
        "a tope that holds is no entry any more",
        &[
            "5 top 0 holds, nil, ttop; 0",
            "6 ctx-tope 0 formed, xtope nil ttop; 0",
            "7 unit 0 has, xtope nil ttop, unit, U; 6",
            "8 s-cut 0 has, nil, unit, U; 7 5",
        ],
        false,
    ),
    (
        "another tope holds than that of the entry",
        &[
            "5 top 0 holds, nil, ttop; 0",
            "6 ctx-tope 0 formed, xtope nil tle p0 p0; 0",
            "7 unit 0 has, xtope nil tle p0 p0, unit, U; 6",
            "8 s-cut 0 has, nil, unit, U; 7 5",
        ],
        true,
    ),
    (
        "the context of each judgment",
        &[
            "5 s-ctx 0 formed, nil; 3",
            "6 le-zero 0 holds, /st, tle p0 pv:1; 2",
            "7 s-ctx 0 formed, /st; 6",
            "8 s-ctx 0 formed, /st; 7",
            "9 q-refl 0 same, nil, star, star, unit; 4",
            "10 s-ctx 0 formed, nil; 9",
        ],
        false,
    ),
    (
        "a context that is only a part",
        &[
            "5 le-zero 0 holds, /st, tle p0 pv:1; 2",
            "6 s-ctx 0 formed, /t; 5",
        ],
        true,
    ),
    (
        "what a function and a constant rest on, and their own types",
        &[
            "5 ctx-term 0 formed, xterm nil unit; 3",
            "6 univ 0 has, xterm nil unit, U, U; 5",
            "7 pi 0 has, nil, pi unit U, U; 3 6",
            "8 unit 0 has, xterm nil unit, unit, U; 5",
            "9 lam 0 has, nil, lam unit U unit, pi unit U; 7 8",
            "10 s-inv 0 has, nil, pi unit U, U; 9",
            "11 s-inv 1 has, xterm nil unit, unit, U; 9",
            "12 s-own 0 same, nil, pi unit U, pi unit U, U; 9",
            "13 const 0 has, /t, const:pt unit star, unit; 3 4 1",
            "14 s-inv 0 has, nil, unit, U; 13",
            "15 s-inv 1 has, nil, star, unit; 13",
            "16 s-inv 2 formed, /t; 13",
            "17 s-own 0 same, /t, unit, unit, U; 13",
            "18 var 0 has, xterm nil unit, v:0, unit; 5",
            "19 s-own 0 same, xterm nil unit, unit, unit, U; 18",
        ],
        false,
    ),
    (
        "the premise after the last",
        &[
            "5 const 0 has, /t, const:pt unit star, unit; 3 4 1",
            "6 s-inv 3 formed, /t; 5",
        ],
        true,
    ),
    (
        "what a variable rests on",
        &[
            "5 ctx-term 0 formed, xterm nil unit; 3",
            "6 var 0 has, xterm nil unit, v:0, unit; 5",
            "7 s-inv 0 formed, xterm nil unit; 6",
        ],
        true,
    ),
];

#[test]
fn structural_rows(rt: HostRuntime) -> Result<(), Fail> {
    for case in CASES {
        let (answer, wanted) = answer_to(rt.alloc(), case)?;
        assert_eq!(rt; answer, wanted, "{}", case.0);
    }
    Ok(())
}
