use crate::tables::{cases_file, moved_file, order_file, used_cases_file};
use rz_kernel::{KernelAnswer, kernel};
use rz_rules::Bytes;
use std::alloc::Global;
use std::process::Abort;
use std::test::Fail;

/// Of two points of the directed interval one is at most the other.
const ORDER_FILE: &[&str] = &[
    "rzk-derivation 1",
    "n c2",
    "n nil",
    "n xcube 1 0",
    "n xcube 2 0",
    "n pv 1",
    "n pv 0",
    "n tle 4 5",
    "n tle 5 4",
    "n tor 6 7",
    "s ctx-nil 0 formed 1",
    "s ctx-cube 0 formed 2 0",
    "s ctx-cube 0 formed 3 1",
    "s le-total 0 holds 3 8 2",
    "c total 3",
    "end",
];

/// A term by cases, with a step that it has no use for.
const CASES_FILE: &[&str] = &[
    "rzk-derivation 1",
    "n nil",
    "n U",
    "n unit",
    "n ttop",
    "n tor 3 3",
    "n tand 3 3",
    "n xtope 0 3",
    "n xtope 0 5",
    "n rec 1 3 3 1 1",
    "s ctx-nil 0 formed 0",
    "s univ 0 has 0 1 1 0",
    "s top 0 holds 0 3 0",
    "s or-l 0 holds 0 4 2",
    "s ctx-tope 0 formed 6 0",
    "s univ 0 has 6 1 1 4",
    "s unit 0 has 6 2 1 4",
    "s ctx-tope 0 formed 7 0",
    "s univ 0 has 7 1 1 7",
    "s q-refl 0 same 7 1 1 1 8",
    "s rec 0 has 0 8 1 1 3 5 5 9",
    "c r 10",
    "c unit 6",
    "end",
];

/// The same without that step.
const USED_CASES_FILE: &[&str] = &[
    "rzk-derivation 1",
    "n nil",
    "n U",
    "n ttop",
    "n tor 2 2",
    "n tand 2 2",
    "n xtope 0 2",
    "n xtope 0 4",
    "n rec 1 2 2 1 1",
    "s ctx-nil 0 formed 0",
    "s univ 0 has 0 1 1 0",
    "s top 0 holds 0 2 0",
    "s or-l 0 holds 0 3 2",
    "s ctx-tope 0 formed 5 0",
    "s univ 0 has 5 1 1 4",
    "s ctx-tope 0 formed 6 0",
    "s univ 0 has 6 1 1 6",
    "s q-refl 0 same 6 1 1 1 7",
    "s rec 0 has 0 7 1 1 3 5 5 8",
    "c r 9",
    "end",
];

/// What is said moves to contexts with one entry more.
const MOVED_FILE: &[&str] = &[
    "rzk-derivation 1",
    "n nil",
    "n U",
    "n ttop",
    "n xtope 0 2",
    "n c2",
    "n xcube 0 4",
    "n pv 0",
    "n p0",
    "n tle 7 6",
    "n xcube 5 4",
    "n c1",
    "n xcube 0 10",
    "n xcube 11 4",
    "n pv 1",
    "n tle 7 13",
    "s ctx-nil 0 formed 0",
    "s univ 0 has 0 1 1 0",
    "s ctx-tope 0 formed 3 0",
    "s ctx-cube 0 formed 5 0",
    "s le-zero 0 holds 5 8 3",
    "s ctx-cube 0 formed 9 3",
    "s ctx-cube 0 formed 11 0",
    "s ctx-cube 0 formed 12 6",
    "s s-weak 0 has 3 1 1 1 2",
    "s s-weak 0 holds 9 14 4 5",
    "s s-weak 1 holds 12 8 4 7",
    "c tope 8",
    "c behind 9",
    "c before 10",
    "end",
];

/// These lines, each with a line feed.
fn text(alloc: Global, lines: &[&str]) -> Result<Bytes, Fail> {
    let mut bytes = Bytes::new(alloc);
    for line in lines {
        bytes.extend_from_slice(line.as_bytes())?;
        bytes.push(b'\n')?;
    }
    Ok(bytes)
}

#[test]
fn rows_make_the_order_of_two_points(rt: HostRuntime) -> Result<(), Fail> {
    let alloc = rt.alloc();
    let wanted = text(alloc, ORDER_FILE)?;
    match order_file(alloc)? {
        Some(file) => {
            assert_eq!(rt; file.as_slice(), wanted.as_slice());
            assert_eq!(rt; kernel(alloc, file.as_slice())?, KernelAnswer::Yes(1));
        }
        None => assert!(rt; false, "no file"),
    }
    Ok(())
}

#[test]
fn rows_make_a_term_by_cases(rt: HostRuntime) -> Result<(), Fail> {
    let alloc = rt.alloc();
    let wanted = text(alloc, CASES_FILE)?;
    match cases_file(alloc)? {
        Some(file) => {
            assert_eq!(rt; file.as_slice(), wanted.as_slice());
            assert_eq!(rt; kernel(alloc, file.as_slice())?, KernelAnswer::Yes(2));
        }
        None => assert!(rt; false, "no file"),
    }
    Ok(())
}

#[test]
fn what_no_claim_needs_is_left_out(rt: HostRuntime) -> Result<(), Fail> {
    let alloc = rt.alloc();
    let wanted = text(alloc, USED_CASES_FILE)?;
    match used_cases_file(alloc)? {
        Some(file) => {
            assert_eq!(rt; file.as_slice(), wanted.as_slice());
            assert_eq!(rt; kernel(alloc, file.as_slice())?, KernelAnswer::Yes(1));
        }
        None => assert!(rt; false, "no file"),
    }
    Ok(())
}

#[test]
fn judgments_move_to_contexts_with_one_entry_more(rt: HostRuntime) -> Result<(), Fail> {
    let alloc = rt.alloc();
    let wanted = text(alloc, MOVED_FILE)?;
    match moved_file(alloc)? {
        Some(file) => {
            assert_eq!(rt; file.as_slice(), wanted.as_slice());
            assert_eq!(rt; kernel(alloc, file.as_slice())?, KernelAnswer::Yes(3));
        }
        None => assert!(rt; false, "no file"),
    }
    Ok(())
}
