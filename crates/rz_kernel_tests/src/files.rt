use rz_drv::{DrvFault, Item, Part, Reader, decode, encode};
use rz_rules::{Bytes, Items, Judgment, Kids, Kind, Line, Name, Node, Numbers, Row};
use std::alloc::Global;
use std::process::Abort;
use std::test::Fail;

/// A file of derivations, line by line: in a context of two variables of the directed interval the first is at most the
/// second, or the second at most the first.
const STORED: &[&[u8]] = &[
    b"rzk-derivation 1\n",
    b"n c2\n",
    b"n nil\n",
    b"n xcube 1 0\n",
    b"n xcube 2 0\n",
    b"n pv 1\n",
    b"n pv 0\n",
    b"n tle 4 5\n",
    b"n tle 5 4\n",
    b"n tor 6 7\n",
    b"s ctx-nil 0 formed 1\n",
    b"s ctx-cube 0 formed 2 0\n",
    b"s ctx-cube 0 formed 3 1\n",
    b"s le-total 0 holds 3 8 2\n",
    b"c total 3\n",
    b"end\n",
];

/// A line's number in the stored file, what stands there, and the first bad line, or 0 where there is none.
const CHANGED: &[(usize, &[u8], u64)] = &[
    (0, b"", 0),
    (1, b"rzk-derivation 2\n", 1),
    (1, b"rzk-derivation 1\r\n", 1),
    (1, b"rzk-derivation  1\n", 1),
    (1, b"", 1),
    // Words.
    (2, b"n c3\n", 2),
    (2, b"n c2 0\n", 2),
    (2, b"n c2 \n", 2),
    (2, b"n  c2\n", 2),
    (2, b" n c2\n", 2),
    (2, b"N c2\n", 2),
    (2, b"\n", 2),
    (9, b"n tle 5 4\r\n", 9),
    (9, b"n\ttle 5 4\n", 9),
    (14, b"s le-tota 0 holds 3 8 2\n", 14),
    (14, b"s le-total 0 hold 3 8 2\n", 14),
    // Numbers.
    (7, b"n pv 00\n", 7),
    (7, b"n pv +0\n", 7),
    (7, b"n pv -0\n", 7),
    (7, b"n pv 0x0\n", 7),
    (7, b"n pv 4294967295\n", 0),
    (7, b"n pv 4294967296\n", 7),
    (7, b"n pv 18446744073709551616\n", 7),
    (7, b"n pv 18446744073709551615\n", 7),
    (7, b"n pv\n", 7),
    (7, b"n pv 0 0\n", 7),
    (9, b"n tle 5 18446744073709551620\n", 9),
    (9, b"n tle 5 04\n", 9),
    (14, b"s le-total 4294967295 holds 3 8 2\n", 0),
    (14, b"s le-total 4294967296 holds 3 8 2\n", 14),
    (14, b"s le-total 18446744073709551616 holds 3 8 2\n", 14),
    (14, b"s le-total 0 holds 3 8 18446744073709551618\n", 14),
    (15, b"c total 03\n", 15),
    (15, b"c total 18446744073709551619\n", 15),
    // Kids: how many there are, that they stand before, their sorts.
    (8, b"n tle 4\n", 8),
    (8, b"n tle 4 5 5\n", 8),
    (8, b"n tle 4 6\n", 8),
    (8, b"n tle 4 99\n", 8),
    (8, b"n tle 4 0\n", 8),
    (8, b"n xterm 2 0\n", 8),
    (9, b"n cx 0 0 0 0 0 0 0 0\n", 9),
    (9, b"n cx 0 0\n", 10),
    (9, b"n ttop\n", 0),
    // Names.
    (
        11,
        b"n U\nn const a 9 9\nn post \xce\xbb 10\ns ctx-nil 0 formed 1\n",
        0,
    ),
    (11, b"n U\nn const 9 9\n", 12),
    (11, b"n U\nn const a 9\n", 12),
    (11, b"n U\nn const  9 9\n", 12),
    (11, b"n U\nn const a\tb 9 9\n", 12),
    (11, b"n U\nn const a\rb 9 9\n", 12),
    (11, b"n U\nn const \xff 9 9\n", 12),
    (
        11,
        b"n U\nn const a\xc2\xa0b 9 9\ns ctx-nil 0 formed 1\n",
        0,
    ),
    (11, b"n U\nn post\n", 12),
    (11, b"n U\nn U a\n", 12),
    (15, b"c a\tb 3\n", 15),
    (15, b"c a\xc2\xa0b 3\n", 0),
    (15, b"c \x00 3\n", 0),
    (15, b"c \xff 3\n", 15),
    (15, b"c  3\n", 15),
    (15, b"c 3\n", 15),
    (15, b"c total 3 3\n", 15),
    // Steps: their nodes and their premises. A step that doesn't follow is in the grammar.
    (11, b"s ctx-nil 0 formed\n", 11),
    (11, b"s ctx-nil 0 formed 0\n", 11),
    (11, b"s ctx-nil 0 formed 1 0\n", 11),
    (11, b"s ctx-nil formed 1\n", 11),
    (11, b"s univ 7 formed 3\n", 0),
    (14, b"s top 0 has 3 8 2\n", 14),
    (14, b"s le-total 0 holds 3 4 2\n", 14),
    (14, b"s le-total 0 holds 3 99 2\n", 14),
    (14, b"s le-total 0 holds 3 8\n", 0),
    (14, b"s le-total 0 holds 3 8 2 2 2 1 0 0 0 0\n", 0),
    (14, b"s le-total 0 holds 3 8 3\n", 14),
    // The order.
    (3, b"s ctx-nil 0 formed 1\n", 3),
    (11, b"n nil\ns ctx-nil 0 formed 1\nn nil\n", 13),
    (11, b"c early 0\n", 11),
    (15, b"c total 4\n", 15),
    (15, b"", 0),
    (16, b"c again 0\nend\n", 0),
    (16, b"n c1\nend\n", 16),
    (16, b"s ctx-nil 0 formed 1\nend\n", 16),
    // The end.
    (16, b"", 16),
    (16, b"end", 16),
    (16, b"end\r\n", 16),
    (16, b"end \n", 16),
    (16, b"end\nend\n", 17),
    (16, b"end\n\n", 17),
    (16, b"end\nx", 17),
    (3, b"end\n", 4),
];

/// Lines of the stored file, one after the other.
fn joined(alloc: Global, lines: &[&[u8]]) -> Result<Vec<u8>, Fail> {
    let mut bytes = Vec::new(alloc);
    for line in lines {
        bytes.extend_from_slice(line)?;
    }
    Ok(bytes)
}

/// The stored file with another text in the place of the line of this number, counted from 1.
fn with_line(alloc: Global, number: usize, text: &[u8]) -> Result<Vec<u8>, Fail> {
    let mut bytes = Vec::new(alloc);
    for (i, line) in STORED.iter().enumerate() {
        let taken = if i + 1 == number { text } else { *line };
        bytes.extend_from_slice(taken)?;
    }
    Ok(bytes)
}

/// Asks that bytes are a spelling, or that this line is the first bad one. A part is spelled as it was read.
fn expect(rt: &impl Abort, alloc: Global, bytes: &[u8], bad: u64) -> Result<(), Fail> {
    match decode(alloc, bytes) {
        Ok(part) => {
            assert_eq!(rt; bad, 0);
            assert_eq!(rt; encode(alloc, &part)?.as_slice(), bytes);
        }
        Err(fault) => assert_eq!(rt; fault, DrvFault::Malformed(bad)),
    }
    Ok(())
}

#[test]
fn finds_the_first_bad_line(rt: HostRuntime) -> Result<(), Fail> {
    let alloc = rt.alloc();
    for (number, text, bad) in CHANGED {
        let bytes = with_line(alloc, *number, text)?;
        expect(&rt, alloc, &bytes, *bad)?;
    }
    Ok(())
}

#[test]
fn breaks_off_at_each_line(rt: HostRuntime) -> Result<(), Fail> {
    let alloc = rt.alloc();
    for count in 0..STORED.len() {
        let front = joined(alloc, &STORED[..count])?;
        expect(&rt, alloc, &front, count as u64 + 1)?;
    }
    Ok(())
}

/// A part with a node, a step and a claim.
fn small_part(alloc: Global) -> Result<Part, Fail> {
    let mut part = Part {
        nodes: Items::new(alloc),
        lines: Items::new(alloc),
        claims: Items::new(alloc),
    };
    part.nodes.push(Node {
        kind: Kind::EmptyContext,
        number: 0,
        name: Name::new(alloc),
        kids: Kids::new(),
    })?;
    part.lines.push(Line {
        row: Row::ContextNil,
        number: 0,
        says: Judgment::Formed { c: 0 },
        from: Numbers::new(alloc),
    })?;
    part.claims.push((Name::from_text(alloc, "one")?, 0))?;
    Ok(part)
}

#[test]
fn writes_and_reads_a_part(rt: HostRuntime) -> Result<(), Fail> {
    let alloc = rt.alloc();
    let bytes = encode(alloc, &small_part(alloc)?)?;
    let want = b"rzk-derivation 1\nn nil\ns ctx-nil 0 formed 0\nc one 0\nend\n";
    assert_eq!(rt; bytes.as_slice(), want.as_slice());
    let part = decode(alloc, bytes.as_slice())?;
    assert_eq!(rt;
        (part.nodes.len(), part.lines.len(), part.claims.len()),
        (1, 1, 1)
    );
    Ok(())
}

#[test]
fn counts_the_lines_it_reads(rt: HostRuntime) -> Result<(), Fail> {
    let alloc = rt.alloc();
    let bytes = joined(alloc, STORED)?;
    let mut reader = Reader::open(alloc, &bytes)?;
    assert_eq!(rt; reader.line(), 1);
    assert!(rt; matches!(reader.next(alloc)?, Some(Item::Node(_))));
    assert_eq!(rt; reader.line(), 2);
    Ok(())
}
