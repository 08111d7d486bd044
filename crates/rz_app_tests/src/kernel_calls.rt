ghost use Rattle.std.specs.Prelude.{◌≡◌, ◌<◌};

use rz_app::rzk;
use rz_io::{Files, GoodFiles, GoodSink, MemoryFiles, MemorySink, Sink};
use rz_rules::{Bytes, Name, Numbers, OutOfMemory, Steps};
use std::alloc::{AllocError, Global};
use std::marker::Brand;
use std::sync::ledger::{Blank, Ledger};
use std::test::Fail;

/// A file of derivations with one claim.
const TOTAL: &str = "rzk-derivation 1
n c2
n nil
n xcube 1 0
n xcube 2 0
n pv 1
n pv 0
n tle 4 5
n tle 5 4
n tor 6 7
s ctx-nil 0 formed 1
s ctx-cube 0 formed 2 0
s ctx-cube 0 formed 3 1
s le-total 0 holds 3 8 2
c total 3
end
";

const USAGE: &str =
    "usage: rzk check|json|derive FILE.. | kernel FILE | tope SEQUENT | script FILE | sample N\n";

/// The file with another line at this place, counted from 1.
fn with_line(alloc: Global, number: usize, line: &str) -> Result<String, AllocError> {
    let mut text = String::new(alloc);
    for (place, old) in TOTAL.lines().enumerate() {
        text.push_str(if place + 1 == number { line } else { old })?;
        text.push('\n')?;
    }
    Ok(text)
}

/// The status of a call whose steps nobody counts.
pub fn call<F: Files, S: Sink>(
    alloc: Global,
    words: &[&str],
    files: &mut F,
    out: &mut S,
) -> Result<u8, OutOfMemory> {
    let mut owned = Vec::new(alloc);
    for word in words {
        owned.push(String::from_str(alloc, word)?)?;
    }
    Ok(counted::<F, S, Brand>(alloc, owned.as_slice(), files, out, Blank::new(1)))
}

/// The status of a call on a new count of steps.
fn counted<F: Files, S: Sink, L: Ledger>(
    alloc: Global,
    words: &[String],
    files: &mut F,
    out: &mut S,
    blank: Blank,
) -> u8
    requires name { blank.name ≡ L.name }
    requires parts { blank.parts ≡ L.parts }
    requires some { 0 < blank.parts }
{
    let mut steps = Steps::<L>::new(blank);
    rzk(alloc, words, files, out, &mut steps)
}

/// A list of one file.
fn one_file(alloc: Global, name: &str, bytes: &[u8]) -> Result<Vec<(Name, Bytes)>, OutOfMemory> {
    let mut files = Vec::new(alloc);
    let name = Name::from_text(alloc, name)?;
    let bytes = Bytes::from_slice(alloc, bytes)?;
    files.push((name, bytes))?;
    Ok(files)
}

/// Whether a call that answered this status, and whose sink took these bytes, ended as it should.
/// Where memory ran out, and nothing was taken or a front of the text, that is an error.
pub fn ended(status: u8, taken: &Bytes, wanted: u8, text: &[u8]) -> Result<bool, OutOfMemory> {
    let taken = taken.as_slice();
    let broken_off = taken.len() < text.len() && text.starts_with(taken);
    if status == 5 && (taken.is_empty() || broken_off) {
        return Err(OutOfMemory);
    }
    Ok(status == wanted && taken == text)
}

/// Whether these words, over a file `total.drv` and devices that never fail, answer so.
fn answers(
    alloc: Global,
    words: &[&str],
    file: &[u8],
    text: &str,
    status: u8,
) -> Result<bool, OutOfMemory> {
    let mut files = GoodFiles::new(one_file(alloc, "total.drv", file)?);
    let mut out = GoodSink::new(alloc);
    let answer = call(alloc, words, &mut files, &mut out)?;
    ended(answer, out.taken(), status, text.as_bytes())
}

/// Whether the kernel's answer on a file is this line, with status 1.
fn refuses(alloc: Global, file: &[u8], line: &str) -> Result<bool, OutOfMemory> {
    answers(alloc, &["kernel", "total.drv"], file, line, 1)
}

#[test]
fn words_that_are_no_command(rt: HostRuntime) -> Result<(), Fail> {
    let alloc = rt.alloc();
    let rows: [&[&str]; 11] = [
        &[],
        &["check", "-x"],
        &["kernel"],
        &["kernel", ""],
        &["kernel", "-x"],
        &["kernel", "total.drv", "total.drv"],
        &["Kernel", "total.drv"],
        &["kernels", "total.drv"],
        &["total.drv", "kernel"],
        &["tope"],
        &["tope", "| |- TOP", "| |- TOP"],
    ];
    for (place, words) in rows.iter().enumerate() {
        assert!(rt;
            answers(alloc, words, TOTAL.as_bytes(), USAGE, 2)?,
            "row {place}"
        );
    }
    Ok(())
}

#[test]
fn a_file_of_derivations(rt: HostRuntime) -> Result<(), Fail> {
    let kernel = ["kernel", "total.drv"].as_slice();
    assert!(rt; answers(rt.alloc(), kernel, TOTAL.as_bytes(), "yes 1\n", 0)?);
    Ok(())
}

#[test]
fn a_step_that_does_not_follow(rt: HostRuntime) -> Result<(), Fail> {
    let alloc = rt.alloc();
    let text = with_line(alloc, 14, "s le-total 0 holds 3 8 1")?;
    assert!(rt; refuses(alloc, text.as_bytes(), "badrow 14\n")?);
    Ok(())
}

#[test]
fn lines_that_are_malformed(rt: HostRuntime) -> Result<(), Fail> {
    let alloc = rt.alloc();
    let rows = [
        (15, "c total 03", "malformed 15\n"),
        (8, "n tle 4 0", "malformed 8\n"),
        (16, "end\n", "malformed 17\n"),
    ];
    for (number, line, answer) in rows {
        let text = with_line(alloc, number, line)?;
        assert!(rt; refuses(alloc, text.as_bytes(), answer)?, "line {number}");
    }
    // A name that isn't UTF-8.
    assert!(rt; refuses(alloc, b"rzk-derivation 1\nc \xff 0\nend\n", "malformed 2\n")?);
    Ok(())
}

#[test]
fn fronts_of_a_file(rt: HostRuntime) -> Result<(), Fail> {
    let alloc = rt.alloc();
    let bytes = TOTAL.as_bytes();
    let mut line: u64 = 1;
    for (length, byte) in bytes.iter().enumerate() {
        let answer = format!(in alloc; "malformed {line}\n")?;
        assert!(rt;
            refuses(alloc, &bytes[..length], answer.as_str())?,
            "{length} bytes"
        );
        if *byte == b'\n' {
            line = line.saturating_add(1);
        }
    }
    Ok(())
}

/// Whether the kernel's command on a name, over a file `total.drv`, a sink that takes a byte at a
/// time, and the calls of these numbers that fail, ends with this status and these bytes taken.
fn ends(
    alloc: Global,
    name: &str,
    read_fails: &[u64],
    write_fails: &[u64],
    status: u8,
    taken: &[u8],
) -> Result<bool, OutOfMemory> {
    let stored = one_file(alloc, "total.drv", TOTAL.as_bytes())?;
    let mut files = MemoryFiles::new(stored, Numbers::from_slice(alloc, read_fails)?);
    let mut out = MemorySink::new(alloc, 1, Numbers::from_slice(alloc, write_fails)?);
    let answer = call(alloc, &["kernel", name], &mut files, &mut out)?;
    ended(answer, out.taken(), status, taken)
}

#[test]
fn a_missing_file(rt: HostRuntime) -> Result<(), Fail> {
    let alloc = rt.alloc();
    assert!(rt; ends(alloc, "z.rzk", &[], &[], 3, b"cannot read z.rzk\n")?);
    assert!(rt;
        ends(
            alloc,
            "two\nlines",
            &[],
            &[],
            3,
            b"cannot read two\nlines\n"
        )?
    );
    Ok(())
}

#[test]
fn a_read_that_fails(rt: HostRuntime) -> Result<(), Fail> {
    let alloc = rt.alloc();
    assert!(rt; ends(alloc, "total.drv", &[0], &[], 3, b"cannot read total.drv\n")?);
    assert!(rt; ends(alloc, "z.rzk", &[0], &[], 3, b"cannot read z.rzk\n")?);
    Ok(())
}

#[test]
fn an_answer_that_is_written_byte_by_byte(rt: HostRuntime) -> Result<(), Fail> {
    assert!(rt; ends(rt.alloc(), "total.drv", &[], &[6], 0, b"yes 1\n")?);
    Ok(())
}

#[test]
fn an_answer_that_cannot_be_written(rt: HostRuntime) -> Result<(), Fail> {
    let alloc = rt.alloc();
    let text = b"yes 1\n".as_slice();
    // The longest run comes first, so that a refused allocation meets it.
    for call in [5u64, 0, 1, 2, 3, 4] {
        let front = &text[..call as usize];
        assert!(rt;
            ends(alloc, "total.drv", &[], &[call], 4, front)?,
            "call {call}"
        );
    }
    Ok(())
}

#[test]
fn a_refusal_that_cannot_be_written(rt: HostRuntime) -> Result<(), Fail> {
    let alloc = rt.alloc();
    assert!(rt; ends(alloc, "z.rzk", &[], &[7], 4, b"cannot ")?);
    assert!(rt; ends(alloc, "z.rzk", &[], &[0], 4, b"")?);
    Ok(())
}
