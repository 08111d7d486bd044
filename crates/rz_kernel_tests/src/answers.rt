use rz_kernel::{KernelAnswer, kernel};
use std::alloc::Global;
use std::test::Fail;

/// A file of derivations, line by line: in a context of two variables of the directed interval the first is at most the
/// second, or the second at most the first.
const STORED: &[&[u8]] = &[
    b"rzk-derivation 1\n",
    b"n c2\n",
    b"n nil\n",
    b"n xcube 1 0\n",
    b"n xcube 2 0\n",
    b"n pv 1\n",
    b"n pv 0\n",
    b"n tle 4 5\n",
    b"n tle 5 4\n",
    b"n tor 6 7\n",
    b"s ctx-nil 0 formed 1\n",
    b"s ctx-cube 0 formed 2 0\n",
    b"s ctx-cube 0 formed 3 1\n",
    b"s le-total 0 holds 3 8 2\n",
    b"c total 3\n",
    b"end\n",
];

/// A file of derivations, line by line: a term by cases, for which its branches are equal under both topes.
const BY_CASES: &[&[u8]] = &[
    b"rzk-derivation 1\n",
    b"n nil\n",
    b"n U\n",
    b"n unit\n",
    b"n ttop\n",
    b"n tor 3 3\n",
    b"n tand 3 3\n",
    b"n xtope 0 3\n",
    b"n xtope 0 5\n",
    b"n rec 1 3 3 1 1\n",
    b"s ctx-nil 0 formed 0\n",
    b"s univ 0 has 0 1 1 0\n",
    b"s top 0 holds 0 3 0\n",
    b"s or-l 0 holds 0 4 2\n",
    b"s ctx-tope 0 formed 6 0\n",
    b"s univ 0 has 6 1 1 4\n",
    b"s unit 0 has 6 2 1 4\n",
    b"s ctx-tope 0 formed 7 0\n",
    b"s univ 0 has 7 1 1 7\n",
    b"s q-refl 0 same 7 1 1 1 8\n",
    b"s rec 0 has 0 8 1 1 3 5 5 9\n",
    b"c r 10\n",
    b"end\n",
];

/// Lines with which the second branch is another type, and so not equal to the first.
const OTHER_BRANCH: &[(usize, &[u8])] = &[
    (10, b"n rec 1 3 3 1 2\n"),
    (21, b"s rec 0 has 0 8 1 1 3 5 6 9\n"),
];

/// A line's number, what stands there, and what is answered.
const CHANGED: &[(usize, &[u8], KernelAnswer)] = &[
    (1, b"rzk-derivation 2\n", KernelAnswer::Malformed(1)),
    (2, b"n c3\n", KernelAnswer::Malformed(2)),
    (3, b"s ctx-nil 0 formed 1\n", KernelAnswer::Malformed(3)),
    (7, b"n pv 4294967296\n", KernelAnswer::Malformed(7)),
    (8, b"n tle 4 0\n", KernelAnswer::Malformed(8)),
    (8, b"n tle 4 8\n", KernelAnswer::Malformed(8)),
    (8, b"n tle 4\n", KernelAnswer::Malformed(8)),
    (8, b"n U\n", KernelAnswer::Malformed(10)),
    (8, b"n xterm 2 0\n", KernelAnswer::Malformed(8)),
    (8, b"n id 4 4 4\n", KernelAnswer::Malformed(8)),
    (8, b"n const a 4 4\n", KernelAnswer::Malformed(8)),
    (9, b"n tle 4 5\n", KernelAnswer::BadRow(14)),
    (11, b"n nil\n", KernelAnswer::Malformed(12)),
    (
        11,
        b"n U\nn const a 9 9\nn post \xce\xbb 10\ns ctx-nil 0 formed 1\n",
        KernelAnswer::Yes(1),
    ),
    (11, b"n U\nn const 9 9\n", KernelAnswer::Malformed(12)),
    (11, b"n U\nn const a\tb 9 9\n", KernelAnswer::Malformed(12)),
    (11, b"n U\nn const \xff 9 9\n", KernelAnswer::Malformed(12)),
    (11, b"n U\nn post\n", KernelAnswer::Malformed(12)),
    (11, b"n U\nn U a\n", KernelAnswer::Malformed(12)),
    (11, b"n cx 0 0 0 0 0 0 0 0\n", KernelAnswer::Malformed(11)),
    (
        11,
        b"n U\ns ctx-nil 0 has 1 9 9\n",
        KernelAnswer::BadRow(12),
    ),
    (
        11,
        b"n U\ns ctx-nil 0 same 1 9 9 9\n",
        KernelAnswer::BadRow(12),
    ),
    (
        11,
        b"n U\ns ctx-nil 0 same 1 9 9\n",
        KernelAnswer::Malformed(12),
    ),
    (11, b"s ctx-nil 0 formed\n", KernelAnswer::Malformed(11)),
    (11, b"s ctx-nil 0 formed 0\n", KernelAnswer::Malformed(11)),
    (14, b"s le-total 0 holds 3 8 1\n", KernelAnswer::BadRow(14)),
    (14, b"s le-total 1 holds 3 8 2\n", KernelAnswer::BadRow(14)),
    (14, b"s le-total 0 holds 3 6 2\n", KernelAnswer::BadRow(14)),
    (14, b"s le-total 0 holds 3 8\n", KernelAnswer::BadRow(14)),
    (
        14,
        b"s le-tota 0 holds 3 8 2\n",
        KernelAnswer::Malformed(14),
    ),
    (14, b"s univ 0 formed 3\n", KernelAnswer::BadRow(14)),
    (14, b"s top 0 has 3 8 2\n", KernelAnswer::Malformed(14)),
    (
        14,
        b"s le-total 18446744073709551616 holds 3 8 2\n",
        KernelAnswer::Malformed(14),
    ),
    (
        14,
        b"s le-total 4294967296 holds 3 8 2\n",
        KernelAnswer::Malformed(14),
    ),
    (
        14,
        b"s le-total 4294967295 holds 3 8 2\n",
        KernelAnswer::BadRow(14),
    ),
    (9, b"n tle 5 4\r\n", KernelAnswer::Malformed(9)),
    (9, b"n tle 5  4\n", KernelAnswer::Malformed(9)),
    (9, b"n tle 5 4 \n", KernelAnswer::Malformed(9)),
    (9, b"n tle 5 +4\n", KernelAnswer::Malformed(9)),
    (
        15,
        b"c total 18446744073709551619\n",
        KernelAnswer::Malformed(15),
    ),
    (15, b"c a\tb 3\n", KernelAnswer::Malformed(15)),
    (15, b"c a\xc2\xa0b 3\n", KernelAnswer::Yes(1)),
    (15, b"c \x00 3\n", KernelAnswer::Yes(1)),
    (15, b"c total 03\n", KernelAnswer::Malformed(15)),
    (15, b"c \xff 3\n", KernelAnswer::Malformed(15)),
    (15, b"", KernelAnswer::Yes(0)),
    (16, b"", KernelAnswer::Malformed(16)),
    (16, b"end\n\n", KernelAnswer::Malformed(17)),
    (16, b"c again 0\nend\n", KernelAnswer::Yes(2)),
    (2, b"n c2 0\n", KernelAnswer::Malformed(2)),
    (
        14,
        b"s le-total 0 holds 3 4 2\n",
        KernelAnswer::Malformed(14),
    ),
    (
        14,
        b"s le-total 0 holds 3 99 2\n",
        KernelAnswer::Malformed(14),
    ),
    (15, b"c total 4\n", KernelAnswer::Malformed(15)),
    (16, b"n c1\nend\n", KernelAnswer::Malformed(16)),
    (
        16,
        b"s ctx-nil 0 formed 1\nend\n",
        KernelAnswer::Malformed(16),
    ),
];

/// A file with other texts in the place of the lines of these numbers, counted from 1.
fn with_lines(alloc: Global, lines: &[&[u8]], changes: &[(usize, &[u8])]) -> Result<Vec<u8>, Fail> {
    let mut bytes = Vec::new(alloc);
    for (i, line) in lines.iter().enumerate() {
        let change = changes.iter().find(|change| change.0 == i + 1);
        bytes.extend_from_slice(change.map_or(*line, |change| change.1))?;
    }
    Ok(bytes)
}

#[test]
fn answers_the_stored_file(rt: HostRuntime) -> Result<(), Fail> {
    let alloc = rt.alloc();
    assert_eq!(rt; kernel(alloc, b"")?, KernelAnswer::Malformed(1));
    let stored = with_lines(alloc, STORED, &[])?;
    assert_eq!(rt; kernel(alloc, &stored)?, KernelAnswer::Yes(1));
    Ok(())
}

#[test]
fn branches_agree_under_both_topes(rt: HostRuntime) -> Result<(), Fail> {
    let alloc = rt.alloc();
    let agree = with_lines(alloc, BY_CASES, &[])?;
    assert_eq!(rt; kernel(alloc, &agree)?, KernelAnswer::Yes(1));
    let differ = with_lines(alloc, BY_CASES, OTHER_BRANCH)?;
    assert_eq!(rt; kernel(alloc, &differ)?, KernelAnswer::BadRow(21));
    Ok(())
}

#[test]
fn finds_the_first_bad_line(rt: HostRuntime) -> Result<(), Fail> {
    let alloc = rt.alloc();
    for (number, text, want) in CHANGED {
        let bytes = with_lines(alloc, STORED, &[(*number, text)])?;
        assert_eq!(rt; kernel(alloc, &bytes)?, *want);
    }
    // A bad step in a text that breaks off behind it.
    let mut front = Vec::new(alloc);
    add_lines(&mut front, &STORED[..13])?;
    front.extend_from_slice(b"s le-total 0 holds 3 6 2\n")?;
    assert_eq!(rt; kernel(alloc, &front)?, KernelAnswer::BadRow(14));
    Ok(())
}

/// Adds lines at the end of a text.
pub fn add_lines(text: &mut Vec<u8>, lines: &[&[u8]]) -> Result<(), Fail> {
    for line in lines {
        text.extend_from_slice(line)?;
    }
    Ok(())
}

/// A file whose nodes double: `first`, then a thousand nodes of the word, each with the one before it twice, then the
/// lines that are given. The first node is 0, the last of the thousand is 1000.
fn doubled(alloc: Global, first: &[u8], word: &str, last: &[&[u8]]) -> Result<Vec<u8>, Fail> {
    let mut bytes = Vec::new(alloc);
    bytes.extend_from_slice(b"rzk-derivation 1\n")?;
    bytes.extend_from_slice(first)?;
    for k in 0..1000 {
        let line = format!(in alloc; "n {word} {k} {k}\n")?;
        bytes.extend_from_slice(line.as_bytes())?;
    }
    add_lines(&mut bytes, last)?;
    bytes.extend_from_slice(b"end\n")?;
    Ok(bytes)
}

#[test]
fn trees_of_two_to_the_thousandth_nodes(rt: HostRuntime) -> Result<(), Fail> {
    let alloc = rt.alloc();
    let tope = doubled(
        alloc,
        b"n ttop\n",
        "tand",
        &[
            b"n nil\n",
            b"n xtope 1001 1000\n",
            b"s ctx-nil 0 formed 1001\n",
            b"s ctx-tope 0 formed 1002 0\n",
        ],
    )?;
    assert_eq!(rt; kernel(alloc, &tope)?, KernelAnswer::Yes(0));
    let cube = doubled(
        alloc,
        b"n c2\n",
        "cx",
        &[
            b"n nil\n",
            b"n xcube 1001 1000\n",
            b"s ctx-nil 0 formed 1001\n",
            b"s ctx-cube 0 formed 1002 0\n",
        ],
    )?;
    assert_eq!(rt; kernel(alloc, &cube)?, KernelAnswer::BadRow(1006));
    let point = doubled(
        alloc,
        b"n p0\n",
        "pp",
        &[
            b"n nil\n",
            b"n c2\n",
            b"n teq 1002 1000 1000\n",
            b"n xtope 1001 1003\n",
            b"s ctx-nil 0 formed 1001\n",
            b"s ctx-tope 0 formed 1004 0\n",
        ],
    )?;
    assert_eq!(rt; kernel(alloc, &point)?, KernelAnswer::BadRow(1008));
    Ok(())
}

#[test]
fn three_thousand_steps(rt: HostRuntime) -> Result<(), Fail> {
    let alloc = rt.alloc();
    let mut bytes = Vec::new(alloc);
    bytes.extend_from_slice(b"rzk-derivation 1\nn ttop\nn nil\n")?;
    for k in 1..3_000 {
        let line = format!(in alloc; "n xtope {k} 0\n")?;
        bytes.extend_from_slice(line.as_bytes())?;
    }
    bytes.extend_from_slice(b"s ctx-nil 0 formed 1\n")?;
    for k in 1..3_000u64 {
        let line = format!(in alloc; "s ctx-tope 0 formed {} {}\n", k + 1, k - 1)?;
        bytes.extend_from_slice(line.as_bytes())?;
    }
    bytes.extend_from_slice(b"end\n")?;
    assert_eq!(rt; kernel(alloc, &bytes)?, KernelAnswer::Yes(0));
    Ok(())
}
