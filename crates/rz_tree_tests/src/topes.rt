//! Topes by hand.

use crate::helpers::{read_tree, text_of};
use rz_pool::Pool;
use rz_rules::Ranks;
use rz_tope::{occurring, truth};
use std::alloc::Global;
use std::process::Abort;
use std::test::Fail;

/// Contexts, topes, and the coordinates that occur.
const OCCURRING: &[(&str, &str, &str)] = &[
    ("xcube xcube nil c2 c2", "tle pv 1 pv 0", "v1 v0"),
    ("nil", "tand ttop tor tbot tle p0 p1", ""),
    ("xcube nil c1", "teq c1 pv 0 pstar", ""),
    (
        "xcube nil cx c2 c2",
        "teq cx c2 c2 pv 0 pp p0 pl pv 0",
        "v0l v0r",
    ),
    ("xcube nil cx c2 c2", "tle pr pv 0 pl pv 0", "v0r v0l"),
    ("xcube nil c2", "tor tle pv 0 p1 tle p0 pv 0", "v0"),
    (
        "xtope xcube xcube nil c2 c2 tle pv 0 pv 1",
        "tle pv 1 pv 0",
        "v0 v1",
    ),
    (
        "xcube xtope xcube xcube nil c2 c2 tle pv 0 pv 1 c2",
        "tle pv 0 pv 2",
        "v1 v2 v0",
    ),
    (
        "xtope xcube xterm xtope xcube xtope xcube nil c2 tle pv 0 p1 c2 tle pv 0 pv 1 U cx c2 c2 tle pl pv 0 pv 1",
        "tle pr pv 0 p0",
        "v2 v1 v0l v0r",
    ),
];

/// Contexts, topes, ranks of the coordinates in the order in which they occur, and the answer.
const TRUTHS: &[(&str, &str, &[u64], bool)] = &[
    ("xcube xcube nil c2 c2", "tle pv 1 pv 0", &[1, 2], true),
    ("xcube xcube nil c2 c2", "tle pv 1 pv 0", &[2, 1], false),
    ("xcube xcube nil c2 c2", "tle pv 1 pv 0", &[1, 1], true),
    ("nil", "ttop", &[], true),
    ("nil", "tbot", &[], false),
    ("nil", "tle p0 p1", &[], true),
    ("nil", "tle p1 p0", &[], false),
    ("nil", "tand ttop tbot", &[], false),
    ("nil", "tor ttop tbot", &[], true),
    ("nil", "teq c1 pstar pstar", &[], true),
    ("nil", "teq c2 p0 p1", &[], false),
    ("xcube nil c2", "tle p1 pv 0", &[1], false),
    ("xcube nil c2", "tle p1 pv 0", &[2], true),
    ("xcube nil c2", "teq c2 p0 pv 0", &[0], true),
    (
        "xcube nil cx c2 c2",
        "teq cx c2 c2 pv 0 pp p0 p1",
        &[0, 3],
        true,
    ),
    (
        "xcube nil cx c2 c2",
        "teq cx c2 c2 pv 0 pp p0 p1",
        &[0, 2],
        false,
    ),
    (
        "xcube nil cx c2 c2",
        "tle pl pr pp p0 pv 0 pl pv 0",
        &[1],
        true,
    ),
];

/// Asks what occurs in a tope over a context, and compares it with this.
fn check_occurring(
    rt: &impl Abort,
    alloc: Global,
    context: &str,
    tope: &str,
    want: &str,
) -> Result<(), Fail> {
    let mut pool = Pool::new(alloc);
    let context = read_tree(alloc, &mut pool, context)?;
    let tope = read_tree(alloc, &mut pool, tope)?;
    assert!(rt; context < pool.len());
    assert!(rt; tope < pool.len());
    let list = occurring(alloc, &mut pool, context, tope)?;
    assert_eq!(rt; text_of(alloc, list.as_slice())?.as_str(), want);
    Ok(())
}

#[test]
fn coordinates_occur(rt: HostRuntime) -> Result<(), Fail> {
    for (context, tope, want) in OCCURRING {
        check_occurring(&rt, rt.alloc(), context, tope, want)?;
    }
    Ok(())
}

/// Asks whether a tope is true at these ranks, and compares the answer with this.
fn check_truth(
    rt: &impl Abort,
    alloc: Global,
    context: &str,
    tope: &str,
    numbers: &[u64],
    want: bool,
) -> Result<(), Fail> {
    let mut pool = Pool::new(alloc);
    let context = read_tree(alloc, &mut pool, context)?;
    let tope = read_tree(alloc, &mut pool, tope)?;
    assert!(rt; context < pool.len());
    assert!(rt; tope < pool.len());
    let list = occurring(alloc, &mut pool, context, tope)?;
    let mut ranks = Ranks::new(alloc);
    for (coordinate, rank) in list.into_vec().into_iter().zip(numbers) {
        ranks.push((coordinate, *rank))?;
    }
    assert_eq!(rt; truth(alloc, &mut pool, context, tope, &ranks)?, want);
    Ok(())
}

#[test]
fn topes_are_true_at_ranks(rt: HostRuntime) -> Result<(), Fail> {
    for (context, tope, ranks, want) in TRUTHS {
        check_truth(&rt, rt.alloc(), context, tope, ranks, *want)?;
    }
    Ok(())
}
