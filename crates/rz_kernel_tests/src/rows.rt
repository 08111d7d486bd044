//! Rows and their conditions.

use crate::derivations::{Nodes, read_steps, write_step};
use rz_kernel::{KernelAnswer, kernel};
use std::alloc::Global;
use std::test::Fail;

/// Steps that all cases begin with.
const FIRST_STEPS: &[&str] = &[
    "0 ctx-nil 0 formed, nil",
    "1 ctx-cube 0 formed, /t; 0",
    "2 ctx-cube 0 formed, /st; 1",
    "3 unit 0 has, nil, unit, U; 0",
    "4 star 0 has, nil, star, unit; 0",
];

/// What a case shows, its steps behind the first ones, and whether the last of them doesn't follow.
pub type Case = (&'static str, &'static [&'static str], bool);

const CASES: &[Case] = &[
    (
        "a context of a cube of 64 leaves",
        &["5 ctx-cube 0 formed, xcube nil cube64; 0"],
        false,
    ),
    (
        "a context of a cube of 65 leaves",
        &["5 ctx-cube 0 formed, xcube nil cx cube64 c1; 0"],
        true,
    ),
    (
        "a context of topes over it",
        &[
            "5 ctx-tope 0 formed, xtope /st tand teq cube2 pp pv:1 pv:0 pp pv:1 pv:0 tor 1<=0 0<=1; 2",
            "6 ctx-cube 0 formed, xcube xtope /st tand teq cube2 pp pv:1 pv:0 pp pv:1 pv:0 tor 1<=0 0<=1 c2; 5",
            "7 le-zero 0 holds, xcube xtope /st tand teq cube2 pp pv:1 pv:0 pp pv:1 pv:0 tor 1<=0 0<=1 c2, tle p0 pv:2; 6",
        ],
        false,
    ),
    (
        "a context of an equality at another cube",
        &["5 ctx-tope 0 formed, xtope /st teq c2 pp pv:1 pv:0 pp pv:1 pv:0; 2"],
        true,
    ),
    (
        "a context of a disjunction whose last part isn't over it",
        &["5 ctx-tope 0 formed, xtope /st tor 1<=0 teq cube2 pv:1 pv:0; 2"],
        true,
    ),
    (
        "a context of a conjunction whose first part isn't over it",
        &["5 ctx-tope 0 formed, xtope /st tand teq c2 pv:1 pstar 1<=0; 2"],
        true,
    ),
    (
        "the start is at most each point of the interval",
        &[
            "5 le-zero 0 holds, /st, tle p0 pv:1; 2",
            "6 le-zero 0 holds, /st, tle p0 pl pp pv:1 pv:0; 2",
        ],
        false,
    ),
    (
        "and at most no point of another cube",
        &["5 le-zero 0 holds, /st, tle p0 pstar; 2"],
        true,
    ),
    (
        "and at most no part of what is no pair",
        &["5 le-zero 0 holds, /st, tle p0 pl pv:1; 2"],
        true,
    ),
    (
        "and at most no variable that isn't there",
        &["5 le-zero 0 holds, /st, tle p0 pv:2; 2"],
        true,
    ),
    (
        "and at most no variable of another cube",
        &[
            "5 ctx-cube 0 formed, xcube /t c1; 1",
            "6 le-zero 0 holds, xcube /t c1, start<=0; 5",
        ],
        true,
    ),
    (
        "a number that the row doesn't use",
        &["5 le-zero 1 holds, /st, tle p0 pv:1; 2"],
        true,
    ),
    (
        "a premise that is missing",
        &["5 le-zero 0 holds, /st, tle p0 pv:1"],
        true,
    ),
    (
        "a premise too many",
        &["5 le-zero 0 holds, /st, tle p0 pv:1; 2 2"],
        true,
    ),
    (
        "a premise of another context",
        &["5 le-zero 0 holds, /st, tle p0 pv:1; 1"],
        true,
    ),
    (
        "a judgment of another kind",
        &["5 ctx-cube 0 holds, /st, 1<=0; 2"],
        true,
    ),
    (
        "the order is total",
        &["5 le-total 0 holds, /st, tor 1<=0 0<=1; 2"],
        false,
    ),
    (
        "one letter stands for one tree",
        &["5 le-total 0 holds, /st, tor 1<=0 1<=0; 2"],
        true,
    ),
    (
        "the order is transitive, by two nodes for one point",
        &[
            "5 le-zero 0 holds, /st, tle p0 pv:1; 2",
            "6 le-one 0 holds, /st, tle again p1; 2",
            "7 le-trans 0 holds, /st, tle p0 p1; 5 6",
        ],
        false,
    ),
    (
        "premises in the other order",
        &[
            "5 le-zero 0 holds, /st, tle p0 pv:1; 2",
            "6 le-one 0 holds, /st, tle pv:1 p1; 2",
            "7 le-trans 0 holds, /st, tle p0 p1; 6 5",
        ],
        true,
    ),
    (
        "premises with two points between",
        &[
            "5 le-zero 0 holds, /st, tle p0 pv:1; 2",
            "6 le-one 0 holds, /st, 0<=end; 2",
            "7 le-trans 0 holds, /st, tle p0 p1; 5 6",
        ],
        true,
    ),
    (
        "constants in each context, and what they stand for",
        &[
            "5 const 0 has, nil, const:pt unit star, unit; 3 4 0",
            "6 const 0 has, /st, const:pt unit star, unit; 3 4 2",
            "7 const 0 has, nil, const:pt unit const:pt unit star, unit; 3 5 0",
            "8 q-delta 0 same, nil, const:pt unit const:pt unit star, const:pt unit star, unit; 7",
        ],
        false,
    ),
    (
        "a constant that is its own value",
        &["5 const 0 has, nil, const:pt unit star, unit; 3 3 0"],
        true,
    ),
    (
        "another constant than what it stands for",
        &[
            "5 const 0 has, nil, const:pt unit star, unit; 3 4 0",
            "6 q-delta 0 same, nil, const:pt unit star, const:pt unit const:pt unit star, unit; 5",
        ],
        true,
    ),
    (
        "a function at an argument",
        &[
            "5 ctx-term 0 formed, xterm nil unit; 3",
            "6 star 0 has, xterm nil unit, star, unit; 5",
            "7 q-beta 0 same, nil, app unit unit lam unit unit star star, star, unit; 6 4",
        ],
        false,
    ),
    (
        "an argument of another function",
        &[
            "5 ctx-term 0 formed, xterm nil unit; 3",
            "6 star 0 has, xterm nil unit, star, unit; 5",
            "7 q-beta 0 same, nil, app unit U lam unit unit star star, star, unit; 6 4",
        ],
        true,
    ),
    (
        "a function, and what it does at a variable",
        &[
            "5 ctx-term 0 formed, xterm nil unit; 3",
            "6 univ 0 has, xterm nil unit, U, U; 5",
            "7 pi 0 has, nil, pi unit U, U; 3 6",
            "8 unit 0 has, xterm nil unit, unit, U; 5",
            "9 lam 0 has, nil, lam unit U unit, pi unit U; 7 8",
            "10 q-eta 0 same, nil, lam unit U unit, lam unit U app unit U lam unit U unit v:0, pi unit U; 9",
        ],
        false,
    ),
    (
        "a function, and what it does at another variable",
        &[
            "5 ctx-term 0 formed, xterm nil unit; 3",
            "6 univ 0 has, xterm nil unit, U, U; 5",
            "7 pi 0 has, nil, pi unit U, U; 3 6",
            "8 unit 0 has, xterm nil unit, unit, U; 5",
            "9 lam 0 has, nil, lam unit U unit, pi unit U; 7 8",
            "10 q-eta 0 same, nil, lam unit U unit, lam unit U app unit U lam unit U unit v:1, pi unit U; 9",
        ],
        true,
    ),
    (
        "an extension type, and its value at a point",
        &[
            "5 ctx-tope 0 formed, xtope /t 0=start; 1",
            "6 ctx-tope 0 formed, xtope xtope /t 0=start ttop; 5",
            "7 unit 0 has, xtope /t 0=start, unit, U; 5",
            "8 star 0 has, xtope xtope /t 0=start ttop, star, unit; 6",
            "9 ext 0 has, nil, ext c2 0=start unit ttop star, U; 7 8",
            "10 star 0 has, xtope /t 0=start, star, unit; 5",
            "11 q-refl 0 same, xtope xtope /t 0=start ttop, star, star, unit; 8",
            "12 xlam 0 has, nil, xlam c2 0=start unit ttop star star, ext c2 0=start unit ttop star; 9 10 11",
            "13 eq-refl 0 holds, nil, teq c2 p0 p0; 0",
            "14 q-xbeta 0 same, nil, xapp c2 0=start unit ttop star xlam c2 0=start unit ttop star star p0, star, unit; 12 13",
        ],
        false,
    ),
    (
        "and its value at a point that isn't there",
        &[
            "5 ctx-tope 0 formed, xtope /t 0=start; 1",
            "6 ctx-tope 0 formed, xtope xtope /t 0=start ttop; 5",
            "7 unit 0 has, xtope /t 0=start, unit, U; 5",
            "8 star 0 has, xtope xtope /t 0=start ttop, star, unit; 6",
            "9 ext 0 has, nil, ext c2 0=start unit ttop star, U; 7 8",
            "10 star 0 has, xtope /t 0=start, star, unit; 5",
            "11 q-refl 0 same, xtope xtope /t 0=start ttop, star, star, unit; 8",
            "12 xlam 0 has, nil, xlam c2 0=start unit ttop star star, ext c2 0=start unit ttop star; 9 10 11",
            "13 eq-refl 0 holds, nil, teq c2 p0 p0; 0",
            "14 q-xbeta 0 same, nil, xapp c2 0=start unit ttop star xlam c2 0=start unit ttop star star pv:1, star, unit; 12 13",
        ],
        true,
    ),
];

/// What the kernel says of a case's file, and what it is to say.
pub fn answer_to(alloc: Global, case: &Case) -> Result<(KernelAnswer, KernelAnswer), Fail> {
    let (_, steps, is_bad) = case;
    let mut nodes = Nodes::new(alloc)?;
    let mut list = Vec::new(alloc);
    read_steps(alloc, &mut nodes, &mut list, FIRST_STEPS)?;
    read_steps(alloc, &mut nodes, &mut list, steps)?;
    let mut text = Vec::new(alloc);
    text.extend_from_slice(b"rzk-derivation 1\n")?;
    nodes.write(&mut text)?;
    for words in &list {
        write_step(&mut text, words, None)?;
    }
    text.extend_from_slice(b"end\n")?;
    let last = nodes.len().saturating_add(list.len()).saturating_add(1);
    let wanted = if *is_bad {
        KernelAnswer::BadRow(last as u64)
    } else {
        KernelAnswer::Yes(0)
    };
    Ok((kernel(alloc, &text)?, wanted))
}

#[test]
fn rows_and_their_conditions(rt: HostRuntime) -> Result<(), Fail> {
    for case in CASES {
        let (answer, wanted) = answer_to(rt.alloc(), case)?;
        assert_eq!(rt; answer, wanted, "{}", case.0);
    }
    Ok(())
}
