use crate::kernel_calls::{call, ended};
use rz_io::{GoodFiles, GoodSink, MemorySink, Sink};
use rz_rules::{Bytes, Name, Numbers, OutOfMemory};
use std::alloc::{AllocError, Global};
use std::process::Abort;
use std::test::Fail;

const USAGE: &str =
    "usage: rzk check|json|derive FILE.. | kernel FILE | tope SEQUENT | script FILE | sample N\n";

/// What is wanted of a sequent.
#[derive(Clone, Copy)]
enum Want {
    /// A derivation file that the kernel accepts, with one claim.
    Yes,
    /// This text, with status 1.
    No(&'static str),
    /// Any ranks, with status 1.
    Refuted,
    /// Nothing is said, since so many coordinates occur.
    Silent(u64),
    /// The text is no sequent.
    Usage,
}

const CHAIN: &str =
    "a b c d e f g h : 2 | a <= b, b <= c, c <= d, d <= e, e <= f, f <= g, g <= h |- a <= h";

const BACKWARDS: &str =
    "a b c d e f g h : 2 | a <= b, b <= c, c <= d, d <= e, e <= f, f <= g, g <= h |- h <= a";

const CYCLE: &str =
    "a b c d e f g h : 2 | a <= b, b <= c, c <= d, d <= e, e <= f, f <= g, g <= h, h <= a |- d === h /\\ f === a";

const CYCLE_AS_GOAL: &str =
    "a b c d e f g h : 2 | |- a <= b \\/ b <= c \\/ c <= d \\/ d <= e \\/ e <= f \\/ f <= g \\/ g <= h \\/ h <= a";

const FALLING: &str =
    "a b c d e f g h : 2 | |- a <= b \\/ b <= c \\/ c <= d \\/ d <= e \\/ e <= f \\/ f <= g \\/ g <= h";

const NINE: &str =
    "a b c d e f g h i : 2 | a <= b, b <= c, c <= d, d <= e, e <= f, f <= g, g <= h, h <= i |- a <= i";

const NINE_AS_GOAL: &str =
    "a b c d e f g h i : 2 | |- a <= b \\/ c <= d \\/ e <= f \\/ g <= h \\/ i <= a";

const EIGHT_PARTS: &str =
    "p q r s : 2 × 2 | first p <= second p, second p <= first q, first q <= second q, second q <= first r, first r <= second r, second r <= first s, first s <= second s |- first p <= second s";

const NINE_PARTS: &str = "t : 2, p q r s : 2 × 2 | p === q, r === s |- t <= first s";

/// Sequents that hold.
const HOLD: &[&str] = &[
    "t s : 2 | t <= s, s <= t |- t === s",
    "| 0_2 === 1_2 |- BOT",
    CHAIN,
    CYCLE,
    CYCLE_AS_GOAL,
    EIGHT_PARTS,
    "| |- TOP",
    "| |- 0_2 <= 1_2",
    "t : 2 | |- 0_2 <= t /\\ t <= 1_2",
    "t s : 2 | |- t <= s \\/ s <= t",
    "r s t : 2 | r <= s, s <= t |- r <= t",
    "t : 2 | 1_2 <= t |- t === 1_2",
    "t : 2 | BOT |- t === 1_2",
    "t : 2 | t === 0_2, t === 1_2 |- BOT",
    "t : 2 | t === 0_2 /\\ t === 1_2 |- BOT",
    "s t : 2 | t <= s \\/ s <= 0_2 |- t <= s \\/ s === 0_2",
    "s t : 2 | t <= s \\/ s === 1_2 |- t <= s",
    "t : 2 | t === 0_2 \\/ t === 1_2 |- t <= 0_2 \\/ 1_2 <= t",
    "s t : 2 | s === 0_2 \\/ s === 1_2, t === 0_2 \\/ t === 1_2 |- s === t \\/ s === 0_2 \\/ t === 0_2",
    "t : 2 | t <= 0_2 |- t === 0_2 /\\ (BOT \\/ TOP)",
    "r s t : 2 | |- r <= s \\/ s <= t \\/ t <= r",
    "p : 2 × 2 | |- first (second p , 1_2) <= 1_2",
    "p : 2 * 2 | |- p === (first p , second p)",
    "p q : 2 × 2 | p === q |- first p <= first q",
    "p q : 2 × 2 | first p === first q, second p === second q |- p === q",
    "p : 2 × (2 × 2) | first p <= first (second p), first (second p) <= second (second p) |- first p <= second (second p)",
    "x y : 1 | |- x === y",
    "p : 1 × 2 | p === (*_1 , 0_2) |- second p === 0_2",
    "p q : 1 × 1 | |- p === q",
    "p : (2 × 1) × 2 | |- 0_2 <= first (first p)",
    "t : 2, t' : 2 | t <= t' |- 0_2 <= t'",
    "a : 2, b : 2 × 2 | a === first b, first b === second b |- b === (a , a)",
    "t s : 2 | t === s |- s === t",
    "t s r : 2 | t === s, s === r |- (t , s) === (r , r)",
    "t s : 2 | t ≤ s ∧ s ≤ t ⊢ t ≡ s ∨ ⊥",
    "{- two\nlines -} t : 2 -- to the end\n | t ≡ 0₂ ⊢ t ≤ 1₂",
    "t : 2, s : 2, p : 2 × 2 | p === (t , s), second p === 0_2 |- s <= t",
    "t : 2, s : 2 | s <= t |- t === 1_2 \\/ s <= t",
    "t : 2 × 2 | π₁ t <= π₂ t |- first t <= second t",
    "||- TOP",
    " -- a comment\n| |- TOP",
];

/// Other sequents, and what is no sequent.
const OTHERS: &[(&str, Want)] = &[
    // The ranks of these are the only ones.
    (
        "t : 2 | |- t === 0_2 \\/ t === 1_2",
        Want::No("no\nt 1/2\n"),
    ),
    ("| |- BOT", Want::No("no\n")),
    ("x : 1 | x === *_1 |- 1_2 <= 0_2", Want::No("no\n")),
    ("t : 2 | t === 1_2 |- t === 0_2", Want::No("no\nt 2/2\n")),
    (
        "a b : 2 | b === 1_2, a === 0_2 |- BOT",
        Want::No("no\nb 3/3\na 0/3\n"),
    ),
    (
        "a b : 2 × 2 | b === (1_2 , 0_2) |- BOT",
        Want::No("no\nb.l 3/3\nb.r 0/3\n"),
    ),
    (
        "a : 2, p : (2 × 1) × 2 | second p === 1_2, first (first p) === 0_2 |- BOT",
        Want::No("no\np.r 3/3\np.l.l 0/3\n"),
    ),
    ("t s : 2 | |- t <= s", Want::Refuted),
    ("t s : 2 | t <= s |- s <= t", Want::Refuted),
    ("t s : 2 | t <= s |- t === s", Want::Refuted),
    ("r s t : 2 | r <= s, r <= t |- s <= t", Want::Refuted),
    (
        "r s t : 2 | |- r === s \\/ s === t \\/ t === r",
        Want::Refuted,
    ),
    (
        "p q : 2 × 2 | first p === first q |- p === q",
        Want::Refuted,
    ),
    (
        "a : 2, p : (2 × 1) × 2 | second p === 1_2 |- first (first p) === 1_2",
        Want::Refuted,
    ),
    (BACKWARDS, Want::Refuted),
    (NINE, Want::Silent(9)),
    (NINE_AS_GOAL, Want::Silent(9)),
    (NINE_PARTS, Want::Silent(9)),
    // The tokens or the grammar.
    ("t : 2 | t <= |- TOP", Want::Usage),
    ("|- TOP", Want::Usage),
    ("t : 2 |- TOP", Want::Usage),
    (" ", Want::Usage),
    ("", Want::Usage),
    ("-- x", Want::Usage),
    ("-", Want::Usage),
    ("t : 2 | |-", Want::Usage),
    ("t : 2 | TOP, |- TOP", Want::Usage),
    (", t : 2 | |- TOP", Want::Usage),
    ("t : 2, | |- TOP", Want::Usage),
    ("t : 2 | |- TOP ;", Want::Usage),
    ("t : 2 | |- t === t === t", Want::Usage),
    ("t : 2 | |- ? === t", Want::Usage),
    ("t : 2 | |- TOP {-", Want::Usage),
    ("_ : 2 | |- TOP", Want::Usage),
    ("#lang rzk-1", Want::Usage),
    // The names.
    ("t t : 2 | |- TOP", Want::Usage),
    ("t : 2, s t : 2 | |- TOP", Want::Usage),
    ("t : 2 | |- s === t", Want::Usage),
    ("t : t | |- TOP", Want::Usage),
    ("t : 2, s : t | |- TOP", Want::Usage),
    // The cubes and the topes.
    ("t : U | |- TOP", Want::Usage),
    ("t : TOP | |- TOP", Want::Usage),
    ("t : 2 | t |- TOP", Want::Usage),
    ("t : 2 | |- t", Want::Usage),
    ("t : 2 | |- U", Want::Usage),
    ("t : 2 | |- \\ s -> TOP", Want::Usage),
    ("| |- 2", Want::Usage),
    ("| |- CUBE", Want::Usage),
    ("t : 2 | |- (t , t)", Want::Usage),
    ("t : 2 | |- t <= TOP", Want::Usage),
    ("t : 2 | |- t <= 2", Want::Usage),
    ("t : 2 | |- t as 2 <= t", Want::Usage),
    ("| |- *_1 <= *_1", Want::Usage),
    ("t : 2 × 2 | |- t <= t", Want::Usage),
    ("t : 2 × 2, s : 2 | |- t === s", Want::Usage),
    ("t : 2 | |- first t === 0_2", Want::Usage),
];

/// What the command `tope` writes on a sequent, and its status.
fn tope(alloc: Global, sequent: &str) -> Result<(u8, Bytes), OutOfMemory> {
    let mut files = GoodFiles::new(Vec::new(alloc));
    let mut out = GoodSink::new(alloc);
    let status = call(alloc, &["tope", sequent], &mut files, &mut out)?;
    if status == 5 {
        return Err(OutOfMemory);
    }
    let taken = Bytes::from_slice(alloc, out.taken().as_slice())?;
    Ok((status, taken))
}

/// Whether the kernel accepts this file, with one claim.
fn accepts(alloc: Global, file: &Bytes) -> Result<bool, OutOfMemory> {
    let name = Name::from_text(alloc, "tope.drv")?;
    let mut stored = Vec::new(alloc);
    stored.push((name, Bytes::from_slice(alloc, file.as_slice())?))?;
    let mut files = GoodFiles::new(stored);
    let mut out = GoodSink::new(alloc);
    let status = call(alloc, &["kernel", "tope.drv"], &mut files, &mut out)?;
    ended(status, out.taken(), 0, b"yes 1\n")
}

/// Whether a sequent is answered as it should be.
fn is_answered(alloc: Global, sequent: &str, want: Want) -> Result<bool, OutOfMemory> {
    let (status, text) = tope(alloc, sequent)?;
    let text_is = |wanted: &str| text.as_slice() == wanted.as_bytes();
    match want {
        Want::Yes => Ok(status == 0 && accepts(alloc, &text)?),
        Want::No(wanted) => Ok(status == 1 && text_is(wanted)),
        Want::Refuted => Ok(status == 1 && text.as_slice().starts_with(b"no\n")),
        Want::Silent(count) => {
            let wanted = format!(in alloc; "silent {count}\n")?;
            Ok(status == 7 && text_is(wanted.as_str()))
        }
        Want::Usage => Ok(status == 2 && text_is(USAGE)),
    }
}

#[test]
fn sequents_that_hold(rt: HostRuntime) -> Result<(), Fail> {
    for sequent in HOLD {
        assert!(rt; is_answered(rt.alloc(), sequent, Want::Yes)?, "{sequent}");
    }
    Ok(())
}

#[test]
fn other_sequents(rt: HostRuntime) -> Result<(), Fail> {
    for (sequent, want) in OTHERS {
        assert!(rt; is_answered(rt.alloc(), sequent, *want)?, "{sequent}");
    }
    Ok(())
}

/// A rank of a line `NAME RANK/9`; `None` where the line has another form.
fn rank_of(line: &str, name: &str) -> Option<u64> {
    let (named, ranked) = line.split_once(' ')?;
    let (rank, greatest) = ranked.split_once('/')?;
    if named != name || greatest != "9" {
        return None;
    }
    rank.parse::<u64>().ok()
}

#[test]
fn ranks_that_fall(rt: HostRuntime) -> Result<(), Fail> {
    let (status, text) = tope(rt.alloc(), FALLING)?;
    assert_eq!(rt; status, 1);
    let text = std::str::from_utf8(text.as_slice()).unwrap_or("");
    let mut lines = text.lines();
    assert_eq!(rt; lines.next(), Some("no"));
    let mut last = 10;
    for name in ["a", "b", "c", "d", "e", "f", "g", "h"] {
        let rank = lines.next().and_then(|line| rank_of(line, name));
        assert!(rt; rank.is_some_and(|rank| rank < last), "{name}");
        last = rank.unwrap_or(0);
    }
    assert_eq!(rt; lines.next(), None);
    Ok(())
}

/// A text, so many times.
fn repeated(alloc: Global, text: &str, count: usize) -> Result<String, AllocError> {
    let mut whole = String::new(alloc);
    for _ in 0..count {
        whole.push_str(text)?;
    }
    Ok(whole)
}

#[test]
fn sequents_at_their_bounds(rt: HostRuntime) -> Result<(), Fail> {
    let alloc = rt.alloc();
    // So many leaves, brackets and conjunctions.
    for (count, within) in [(64, true), (65, false)] {
        let factors = repeated(alloc, " × 2", count - 1)?;
        let sequent = format!(in alloc; "t : 2{factors} | |- TOP")?;
        let want = if within { Want::Yes } else { Want::Usage };
        assert!(rt;
            is_answered(alloc, sequent.as_str(), want)?,
            "{count} leaves"
        );
    }
    let factors = repeated(alloc, " × 2", 63)?;
    let sequent = format!(in alloc; "t : 2{factors} | |- t === t")?;
    assert!(rt;
        is_answered(alloc, sequent.as_str(), Want::Silent(64))?,
        "64 coordinates"
    );
    let factors = repeated(alloc, " × 1", 63)?;
    let wide = format!(in alloc; "t : 1{factors} | |- (t , *_1) === (t , *_1)")?;
    assert!(rt;
        is_answered(alloc, wide.as_str(), Want::Usage)?,
        "a wide pair"
    );
    for (count, within) in [(200, true), (201, false)] {
        let open = repeated(alloc, "(", count)?;
        let close = repeated(alloc, ")", count)?;
        let sequent = format!(in alloc; "| |- {open}TOP{close}")?;
        let want = if within { Want::Yes } else { Want::Usage };
        assert!(rt;
            is_answered(alloc, sequent.as_str(), want)?,
            "{count} brackets"
        );
        let topes = repeated(alloc, "TOP /\\ ", count)?;
        let sequent = format!(in alloc; "| |- {topes}TOP")?;
        assert!(rt;
            is_answered(alloc, sequent.as_str(), want)?,
            "{count} conjunctions"
        );
    }
    Ok(())
}

#[test]
fn a_no_that_cannot_be_written(rt: HostRuntime) -> Result<(), Fail> {
    let alloc = rt.alloc();
    let mut files = GoodFiles::new(Vec::new(alloc));
    let mut out = MemorySink::new(alloc, 1, Numbers::from_slice(alloc, &[2])?);
    let status = call(alloc, &["tope", "| |- BOT"], &mut files, &mut out)?;
    assert!(rt; ended(status, out.taken(), 4, b"no")?);
    Ok(())
}
