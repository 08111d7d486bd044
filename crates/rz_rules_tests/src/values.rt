//! Plain values and their copies.

ghost use Rattle.std.specs.Prelude.{◌≡◌, ◌<◌};

use rz_rules::{
    Bytes, Items, Judgment, JudgmentKind, Kids, Kind, Line, Name, Node, Numbers, OutOfMemory, Row,
    Sort, Steps, Worded, is_name,
};
use std::marker::Brand;
use std::sync::ledger::{Blank, Ledger};
use std::test::Fail;

#[test]
fn lists_and_their_copies(rt: HostRuntime) -> Result<(), Fail> {
    let alloc = rt.alloc();
    let mut numbers = Numbers::new(alloc);
    numbers.push(7)?;
    numbers.extend_from_slice(&[9, 4])?;
    let again = Numbers::from_vec(numbers.copy()?.into_vec());
    assert!(rt; again.as_slice() == [7, 9, 4].as_slice());
    assert_eq!(rt;
        (again.len(), again.get(1), again.get(3)),
        (3, Some(9), None)
    );

    let mut items: Items<Bytes> = Items::new(alloc);
    items.push(Bytes::from_slice(alloc, b"one")?)?;
    let same = Items::from_vec(items.copy()?.into_vec());
    assert_eq!(rt; (same.len(), same.as_slice().len()), (1, 1));
    assert!(rt;
        same.get(0)
            .is_some_and(|bytes| bytes.as_slice() == b"one".as_slice())
    );
    assert!(rt; same.get(1).is_none());
    Ok(())
}

#[test]
fn names_and_their_copies(rt: HostRuntime) -> Result<(), Fail> {
    let alloc = rt.alloc();
    let mut name = Name::from_text(alloc, "a")?;
    name.push('λ')?;
    let same = name.copy()?;
    assert!(rt; name == same);
    assert_eq!(rt; same.as_str(), "aλ");
    assert_eq!(rt; (same.len(), same.get(0), same.get(3)), (3, Some(97), None));
    assert_eq!(rt; Name::new(alloc).len(), 0);
    Ok(())
}

/// Kinds, numbers and names, and whether a node may have them.
const LABELS: [(Kind, u64, &str, bool); 8] = [
    (Kind::AtMost, 0, "", true),
    (Kind::AtMost, 1, "", false),
    (Kind::AtMost, 0, "k", false),
    (Kind::TermVariable, 4294967295, "", true),
    (Kind::TermVariable, 4294967296, "", false),
    (Kind::Constant, 0, "k", true),
    (Kind::Constant, 0, "", false),
    (Kind::Postulate, 1, "k", false),
];

#[test]
fn nodes_and_their_labels(rt: HostRuntime) -> Result<(), Fail> {
    for (place, (kind, number, name, wanted)) in LABELS.iter().enumerate() {
        let node = Node {
            kind: *kind,
            number: *number,
            name: Name::from_text(rt.alloc(), name)?,
            kids: Kids::from_slice(&[4, 5]),
        };
        assert_eq!(rt; node.is_labelled(), *wanted, "row {place}");
        let same = node.copy()?;
        assert!(rt; node == same);
    }
    let mut kids = Kids::new();
    kids.push(4);
    let mut more = kids.copy()?;
    more.push(6);
    assert!(rt; more.as_slice() == [4, 6].as_slice());
    assert_eq!(rt; (more.len(), more.get(1), kids.get(1)), (2, Some(6), None));
    Ok(())
}

/// Judgments in the context 3, with what they say, their parts, and the sorts of these.
const JUDGMENTS: &[(&str, Judgment, &[u64], &[Sort])] = &[
    ("formed", Judgment::Formed { c: 3 }, &[], &[]),
    (
        "holds",
        Judgment::Holds { c: 3, phi: 8 },
        &[8],
        &[Sort::Tope],
    ),
    (
        "has",
        Judgment::Has { c: 3, a: 8, of: 6 },
        &[8, 6],
        &[Sort::Term, Sort::Term],
    ),
    (
        "same",
        Judgment::Same {
            c: 3,
            a: 8,
            b: 7,
            of: 6,
        },
        &[8, 7, 6],
        &[Sort::Term, Sort::Term, Sort::Term],
    ),
];

#[test]
fn judgments_and_lines(rt: HostRuntime) -> Result<(), Fail> {
    for (word, says, parts, sorts) in JUDGMENTS {
        let kind = says.kind();
        assert_eq!(rt; (kind.word(), says.context()), (*word, 3));
        assert!(rt; JudgmentKind::of_word(word.as_bytes()) == Some(kind));
        assert!(rt; kind.parts() == *sorts);
        assert!(rt; says.parts().as_slice() == *parts);
        assert!(rt; Judgment::of(kind, 3, parts) == Some(*says));
        assert!(rt; Judgment::of(kind, 3, &[1, 2, 3, 4]).is_none());
    }
    let line = Line {
        row: Row::AtMostTotal,
        number: 9,
        says: Judgment::Holds { c: 3, phi: 8 },
        from: Numbers::from_slice(rt.alloc(), &[2])?,
    };
    let again = line.copy()?;
    assert!(rt; again.says == line.says && again.row == line.row && again.number == 9);
    assert!(rt; again.from.as_slice() == [2].as_slice());
    Ok(())
}

/// Bytes, and whether they are a name.
const NAMES: [(&[u8], bool); 9] = [
    (b"total", true),
    (b"\xe2\x84\x95-plus'", true),
    (b"", false),
    (b"a b", false),
    (b"\ta", false),
    (b"a\n", false),
    (b"a\r", false),
    (b"\xff", false),
    (b"a\xe2\x84", false),
];

#[test]
fn names_are_text_without_white_space(rt: HostRuntime) {
    for (place, (bytes, wanted)) in NAMES.iter().enumerate() {
        assert_eq!(rt; is_name(bytes), *wanted, "row {place}");
    }
}

#[test]
fn want_of_memory_has_a_text(rt: HostRuntime) -> Result<(), Fail> {
    let text = format!(in rt.alloc(); "{}", OutOfMemory)?;
    assert_eq!(rt; text.as_str(), "out of memory");
    Ok(())
}

/// Counts two steps.
fn two_steps<L: Ledger>(blank: Blank)
    requires name { blank.name ≡ L.name }
    requires parts { blank.parts ≡ L.parts }
    requires some { 0 < blank.parts }
{
    let mut steps = Steps::<L>::new(blank);
    steps.tick();
    steps.tick();
}

#[test]
fn steps_are_counted() {
    two_steps::<Brand>(Blank::new(1));
}
