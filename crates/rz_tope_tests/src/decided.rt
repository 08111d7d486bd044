use crate::sequents::{ask, file_of_step, truth_of};
use rz_kernel::{KernelAnswer, kernel};
use rz_log::{Entailed, World};
use std::alloc::Global;
use std::process::Abort;
use std::test::Fail;

/// What is wanted of a sequent.
#[derive(Clone, Copy, Debug, PartialEq, Eq)]
enum Want {
    Yes,
    No,
    Silent(u64),
}

/// Sequents: the entries of a context, the outermost first, a tope, and what is wanted.
const SEQUENTS: &[(&[&str], &str, Want)] = &[
    // Without hypotheses.
    (&[], "ttop", Want::Yes),
    (&[], "tbot", Want::No),
    (&[], "tle p0 p1", Want::Yes),
    (&[], "tle p1 p0", Want::No),
    (&["c2"], "tand tle p0 pv 0 tle pv 0 p1", Want::Yes),
    (&["c2"], "tor teq c2 pv 0 p0 teq c2 pv 0 p1", Want::No),
    (&["c2", "c2"], "tor tle pv 0 pv 1 tle pv 1 pv 0", Want::Yes),
    (&["c2", "c2"], "tle pv 0 pv 1", Want::No),
    // The order is antisymmetric and transitive.
    (
        &["c2", "c2", "tle pv 1 pv 0", "tle pv 0 pv 1"],
        "teq c2 pv 1 pv 0",
        Want::Yes,
    ),
    (&["c2", "c2", "tle pv 1 pv 0"], "teq c2 pv 1 pv 0", Want::No),
    (
        &["c2", "c2", "c2", "tle pv 2 pv 1", "tle pv 1 pv 0"],
        "tle pv 2 pv 0",
        Want::Yes,
    ),
    (
        &["c2", "c2", "c2", "tle pv 2 pv 1", "tle pv 2 pv 0"],
        "tle pv 1 pv 0",
        Want::No,
    ),
    // Hypotheses that contradict each other.
    (&["teq c2 p0 p1"], "tbot", Want::Yes),
    (&["c2", "tle p1 p0"], "teq c2 pv 0 p0", Want::Yes),
    (&["c2", "tbot"], "teq c2 pv 0 p1", Want::Yes),
    (
        &["c2", "teq c2 pv 0 p0", "teq c2 pv 0 p1"],
        "tbot",
        Want::Yes,
    ),
    // Disjunctions among the hypotheses.
    (
        &["c2", "c2", "tor tle pv 0 pv 1 tle pv 1 p0"],
        "tor tle pv 0 pv 1 teq c2 pv 1 p0",
        Want::Yes,
    ),
    (
        &["c2", "c2", "tor tle pv 0 pv 1 teq c2 pv 1 p1"],
        "tle pv 0 pv 1",
        Want::Yes,
    ),
    (
        &["c2", "c2", "tor tle pv 0 pv 1 tle pv 1 pv 0"],
        "tle pv 0 pv 1",
        Want::No,
    ),
    (
        &["c2", "tor teq c2 pv 0 p0 teq c2 pv 0 p1"],
        "tor tle pv 0 p0 tle p1 pv 0",
        Want::Yes,
    ),
    (
        &[
            "c2",
            "c2",
            "tor teq c2 pv 0 p0 teq c2 pv 0 p1",
            "tor teq c2 pv 1 p0 teq c2 pv 1 p1",
        ],
        "tor teq c2 pv 0 pv 1 tor teq c2 pv 0 p0 teq c2 pv 1 p0",
        Want::Yes,
    ),
    // Conjunctions and disjunctions as goals.
    (
        &["c2", "tle pv 0 p0"],
        "tand teq c2 pv 0 p0 tor tbot ttop",
        Want::Yes,
    ),
    (
        &["c2", "c2"],
        "tor tand tle pv 0 pv 1 tle pv 1 pv 0 tor tle pv 0 pv 1 tle pv 1 pv 0",
        Want::Yes,
    ),
    (
        &["c2", "c2", "c2"],
        "tor tle pv 0 pv 1 tor tle pv 1 pv 2 tle pv 2 pv 0",
        Want::Yes,
    ),
    (
        &["c2", "c2", "c2"],
        "tor teq c2 pv 0 pv 1 tor teq c2 pv 1 pv 2 teq c2 pv 2 pv 0",
        Want::No,
    ),
    // Products, projections and pairs.
    (&["cx c2 c2"], "tle pl pp pr pv 0 p1 pr pv 0", Want::Yes),
    (
        &["cx c2 c2"],
        "teq cx c2 c2 pv 0 pp pl pv 0 pr pv 0",
        Want::Yes,
    ),
    (&["cx c2 c2"], "teq c2 pl pv 0 pr pv 0", Want::No),
    (
        &["cx c2 c2", "cx c2 c2", "teq cx c2 c2 pv 0 pv 1"],
        "tle pl pv 0 pl pv 1",
        Want::Yes,
    ),
    (
        &[
            "cx c2 c2",
            "cx c2 c2",
            "teq c2 pl pv 0 pl pv 1",
            "teq c2 pr pv 0 pr pv 1",
        ],
        "teq cx c2 c2 pv 0 pv 1",
        Want::Yes,
    ),
    (
        &["cx c2 c2", "cx c2 c2", "teq c2 pl pv 0 pl pv 1"],
        "teq cx c2 c2 pv 0 pv 1",
        Want::No,
    ),
    (
        &[
            "cx c2 cx c2 c2",
            "tle pl pv 0 pl pr pv 0",
            "tle pl pr pv 0 pr pr pv 0",
        ],
        "tle pl pv 0 pr pr pv 0",
        Want::Yes,
    ),
    // The cube with one point.
    (&["c1", "c1"], "teq c1 pv 0 pv 1", Want::Yes),
    (
        &["cx c1 c2", "teq cx c1 c2 pv 0 pp pstar p0"],
        "teq c2 pr pv 0 p0",
        Want::Yes,
    ),
    (
        &["cx c1 c1", "cx c1 c1"],
        "teq cx c1 c1 pv 0 pv 1",
        Want::Yes,
    ),
    // A hypothesis that stands before another cube.
    (
        &["c2", "teq c2 pv 0 p1", "c2", "tle pv 1 pv 0"],
        "teq c2 pv 0 p1",
        Want::Yes,
    ),
    (
        &["tle p0 p1", "c2", "c2", "tle pv 0 pv 1"],
        "teq c2 pv 0 p1",
        Want::No,
    ),
    // A chain of eight names, and of nine; a cycle.
    (
        &[
            "c2",
            "c2",
            "c2",
            "c2",
            "c2",
            "c2",
            "c2",
            "c2",
            "tle pv 7 pv 6",
            "tle pv 6 pv 5",
            "tle pv 5 pv 4",
            "tle pv 4 pv 3",
            "tle pv 3 pv 2",
            "tle pv 2 pv 1",
            "tle pv 1 pv 0",
        ],
        "tle pv 7 pv 0",
        Want::Yes,
    ),
    (
        &[
            "c2",
            "c2",
            "c2",
            "c2",
            "c2",
            "c2",
            "c2",
            "c2",
            "tle pv 7 pv 6",
            "tle pv 6 pv 5",
            "tle pv 5 pv 4",
            "tle pv 4 pv 3",
            "tle pv 3 pv 2",
            "tle pv 2 pv 1",
            "tle pv 1 pv 0",
        ],
        "tle pv 0 pv 7",
        Want::No,
    ),
    (
        &[
            "c2",
            "c2",
            "c2",
            "c2",
            "c2",
            "c2",
            "c2",
            "c2",
            "tle pv 7 pv 6",
            "tle pv 6 pv 5",
            "tle pv 5 pv 4",
            "tle pv 4 pv 3",
            "tle pv 3 pv 2",
            "tle pv 2 pv 1",
            "tle pv 1 pv 0",
            "tle pv 0 pv 7",
        ],
        "tand teq c2 pv 7 pv 3 teq c2 pv 0 pv 5",
        Want::Yes,
    ),
    (
        &[
            "c2",
            "c2",
            "c2",
            "c2",
            "c2",
            "c2",
            "c2",
            "c2",
            "c2",
            "tle pv 8 pv 7",
            "tle pv 7 pv 6",
            "tle pv 6 pv 5",
            "tle pv 5 pv 4",
            "tle pv 4 pv 3",
            "tle pv 3 pv 2",
            "tle pv 2 pv 1",
            "tle pv 1 pv 0",
        ],
        "tle pv 8 pv 0",
        Want::Silent(9),
    ),
    (
        &["c2", "c2", "c2", "c2", "c2", "c2", "c2", "c2"],
        "tor tle pv 7 pv 6 tor tle pv 6 pv 5 tor tle pv 5 pv 4 tor tle pv 4 pv 3 tor tle pv 3 pv 2 tor tle pv 2 pv 1 tor tle pv 1 pv 0 tle pv 0 pv 7",
        Want::Yes,
    ),
    (
        &["c2", "c2", "c2", "c2", "c2", "c2", "c2", "c2"],
        "tor tle pv 7 pv 6 tor tle pv 6 pv 5 tor tle pv 5 pv 4 tor tle pv 4 pv 3 tor tle pv 3 pv 2 tor tle pv 2 pv 1 tle pv 1 pv 0",
        Want::No,
    ),
    // Eight coordinates, and nine.
    (
        &[
            "cx c2 c2",
            "cx c2 c2",
            "cx c2 c2",
            "cx c2 c2",
            "tle pl pv 0 pr pv 0",
            "tle pr pv 0 pl pv 1",
            "tle pl pv 1 pr pv 1",
            "tle pr pv 1 pl pv 2",
            "tle pl pv 2 pr pv 2",
            "tle pr pv 2 pl pv 3",
            "tle pl pv 3 pr pv 3",
        ],
        "tle pl pv 0 pr pv 3",
        Want::Yes,
    ),
    (
        &["c2", "c2", "c2", "c2", "c2", "c2", "c2", "c2"],
        "tor tle pv 0 pv 1 tor tle pv 1 pv 2 tor tle pv 2 pv 3 tor tle pv 3 pv 4 tor tle pv 4 pv 5 tor tle pv 5 pv 6 tor tle pv 6 pv 7 tle pv 7 pv 0",
        Want::Yes,
    ),
    (
        &["c2", "cx c2 c2", "cx c2 c2", "cx c2 c2", "cx c2 c2"],
        "tor tle pv 4 pl pv 0 tor tle pr pv 0 pl pv 1 tor tle pr pv 1 pl pv 2 tor tle pr pv 2 pl pv 3 tle pr pv 3 pv 4",
        Want::Silent(9),
    ),
];

/// Asks for a sequent. For yes the kernel accepts the derivation; for no the ranks make the
/// hypotheses true and not the tope.
fn check(
    rt: &impl Abort,
    alloc: Global,
    entries: &[&str],
    tope: &str,
    want: Want,
) -> Result<(), Fail> {
    let mut w = World::new(alloc);
    let Some((question, entailed)) = ask(alloc, &mut w, entries, tope)? else {
        assert!(rt; false, "no sequent");
        return Ok(());
    };
    match entailed {
        Entailed::Yes(step) => {
            assert_eq!(rt; want, Want::Yes);
            match file_of_step(alloc, w, step)? {
                Some(file) => {
                    assert_eq!(rt; kernel(alloc, file.as_slice())?, KernelAnswer::Yes(1));
                }
                None => assert!(rt; false, "no file"),
            }
        }
        Entailed::No(ranks) => {
            assert_eq!(rt; want, Want::No);
            for text in entries {
                let truth = truth_of(alloc, &mut w, question.context, text, &ranks)?;
                assert!(rt; truth != Some(false));
            }
            let truth = truth_of(alloc, &mut w, question.context, tope, &ranks)?;
            assert_eq!(rt; truth, Some(false));
        }
        Entailed::Silent(count) => assert_eq!(rt; want, Want::Silent(count)),
    }
    Ok(())
}

#[test]
fn sequents_are_decided(rt: HostRuntime) -> Result<(), Fail> {
    for (entries, tope, want) in SEQUENTS {
        check(&rt, rt.alloc(), entries, tope, *want)?;
    }
    Ok(())
}
