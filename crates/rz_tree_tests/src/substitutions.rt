//! Substitutions by hand.

use crate::helpers::{pair_of, read_tree, tower};
use rz_pool::{Counts, Pool};
use rz_rules::{Kind, Sort, Space};
use rz_subst::laws::{
    closed_trees_stay, put_after_shift, puts_commute, shift_and_put_commute, shifts_commute,
    weakening_adds_up,
};
use rz_subst::{put_point, put_term, shift_points, shift_terms};
use std::alloc::Global;
use std::process::Abort;
use std::test::Fail;

/// Bodies, and what each is with `v 5` in it.
const TERM_IN: &[(&str, &str)] = &[
    ("v 0", "v 5"),
    ("v 1", "v 0"),
    ("v 2", "v 1"),
    ("U", "U"),
    ("unit", "unit"),
    ("star", "star"),
    ("const U v 0", "const U v 0"),
    ("post v 0", "post v 0"),
    (
        "pi refl v 0 v 1 refl v 0 v 1",
        "pi refl v 5 v 0 refl v 0 v 6",
    ),
    (
        "lam refl v 0 v 1 refl v 0 v 1 refl v 0 v 1",
        "lam refl v 5 v 0 refl v 0 v 6 refl v 0 v 6",
    ),
    (
        "app refl v 0 v 1 refl v 0 v 1 v 0 v 1",
        "app refl v 5 v 0 refl v 0 v 6 v 5 v 0",
    ),
    (
        "sig refl v 0 v 1 refl v 0 v 1",
        "sig refl v 5 v 0 refl v 0 v 6",
    ),
    (
        "pair refl v 0 v 1 refl v 0 v 1 v 0 v 1",
        "pair refl v 5 v 0 refl v 0 v 6 v 5 v 0",
    ),
    (
        "fst refl v 0 v 1 refl v 0 v 1 v 0",
        "fst refl v 5 v 0 refl v 0 v 6 v 5",
    ),
    (
        "snd refl v 0 v 1 refl v 0 v 1 v 1",
        "snd refl v 5 v 0 refl v 0 v 6 v 0",
    ),
    ("id v 0 v 1 v 2", "id v 5 v 0 v 1"),
    ("refl v 1 v 0", "refl v 0 v 5"),
    ("J v 0 v 1 v 2 v 3 v 0 v 1", "J v 5 v 0 v 1 v 2 v 5 v 0"),
    (
        "ext c2 ttop refl v 0 v 1 tbot refl v 0 v 1",
        "ext c2 ttop refl v 5 v 0 tbot refl v 5 v 0",
    ),
    (
        "xlam c2 ttop refl v 0 v 1 tbot refl v 0 v 1 refl v 0 v 1",
        "xlam c2 ttop refl v 5 v 0 tbot refl v 5 v 0 refl v 5 v 0",
    ),
    (
        "xapp c2 ttop refl v 0 v 1 tbot refl v 0 v 1 v 0 p1",
        "xapp c2 ttop refl v 5 v 0 tbot refl v 5 v 0 v 5 p1",
    ),
    ("rec v 0 tbot ttop v 1 v 2", "rec v 5 tbot ttop v 0 v 1"),
    ("abort v 0", "abort v 5"),
    ("pi U v 2", "pi U v 1"),
    (
        "pi id v 0 v 1 v 2 id v 0 v 1 v 2",
        "pi id v 5 v 0 v 1 id v 0 v 6 v 1",
    ),
    ("pi U pi U id v 0 v 1 v 2", "pi U pi U id v 0 v 1 v 7"),
    (
        "lam U ext c1 ttop v 0 ttop v 1 pi U v 2",
        "lam U ext c1 ttop v 0 ttop v 6 pi U v 7",
    ),
    ("xterm xtope nil ttop v 0", "xterm xtope nil ttop v 5"),
    ("pv 0", "pv 0"),
];

/// Bodies, and what each is with `pv 5` in it.
const POINT_IN: &[(&str, &str)] = &[
    ("pv 0", "pv 5"),
    ("pv 1", "pv 0"),
    ("pstar", "pstar"),
    ("p0", "p0"),
    ("p1", "p1"),
    ("pp pv 0 pv 1", "pp pv 5 pv 0"),
    ("pl pv 0", "pl pv 5"),
    ("pr pv 1", "pr pv 0"),
    ("c1", "c1"),
    ("c2", "c2"),
    ("cx c1 c2", "cx c1 c2"),
    ("ttop", "ttop"),
    ("tbot", "tbot"),
    ("tand tle pv 0 pv 1 ttop", "tand tle pv 5 pv 0 ttop"),
    ("tor tbot tle pv 0 pv 1", "tor tbot tle pv 5 pv 0"),
    ("teq cx c1 c2 pv 0 pv 2", "teq cx c1 c2 pv 5 pv 1"),
    ("tle pv 0 pv 1", "tle pv 5 pv 0"),
    (
        "const U rec U tle pv 0 pv 1 ttop U U",
        "const U rec U tle pv 0 pv 1 ttop U U",
    ),
    (
        "post rec U tle pv 0 pv 1 ttop U U",
        "post rec U tle pv 0 pv 1 ttop U U",
    ),
    (
        "pi rec U tle pv 0 pv 1 ttop U U rec U tle pv 0 pv 1 ttop U U",
        "pi rec U tle pv 5 pv 0 ttop U U rec U tle pv 5 pv 0 ttop U U",
    ),
    (
        "lam U rec U tle pv 0 pv 1 ttop U U rec U tle pv 0 pv 1 ttop U U",
        "lam U rec U tle pv 5 pv 0 ttop U U rec U tle pv 5 pv 0 ttop U U",
    ),
    (
        "ext c2 tle pv 0 pv 1 rec U tle pv 0 pv 1 ttop U U tle pv 0 pv 1 rec U tle pv 0 pv 1 ttop U U",
        "ext c2 tle pv 0 pv 6 rec U tle pv 0 pv 6 ttop U U tle pv 0 pv 6 rec U tle pv 0 pv 6 ttop U U",
    ),
    (
        "xlam c2 tle pv 0 pv 1 rec U tle pv 0 pv 1 ttop U U tle pv 0 pv 1 rec U tle pv 0 pv 1 ttop U U rec U tle pv 0 pv 1 ttop U U",
        "xlam c2 tle pv 0 pv 6 rec U tle pv 0 pv 6 ttop U U tle pv 0 pv 6 rec U tle pv 0 pv 6 ttop U U rec U tle pv 0 pv 6 ttop U U",
    ),
    (
        "xapp c2 tle pv 0 pv 1 rec U tle pv 0 pv 1 ttop U U tle pv 0 pv 1 rec U tle pv 0 pv 1 ttop U U rec U tle pv 0 pv 1 ttop U U pp pv 0 pv 1",
        "xapp c2 tle pv 0 pv 6 rec U tle pv 0 pv 6 ttop U U tle pv 0 pv 6 rec U tle pv 0 pv 6 ttop U U rec U tle pv 5 pv 0 ttop U U pp pv 5 pv 0",
    ),
    (
        "rec U tle pv 0 pv 1 tle pv 0 pv 1 v 0 v 1",
        "rec U tle pv 5 pv 0 tle pv 5 pv 0 v 0 v 1",
    ),
    (
        "ext c1 tle pv 2 pv 0 U ttop U",
        "ext c1 tle pv 1 pv 0 U ttop U",
    ),
    (
        "ext c1 ttop ext c1 tle pv 1 pv 2 U tle pv 0 pv 3 U ttop U",
        "ext c1 ttop ext c1 tle pv 1 pv 7 U tle pv 0 pv 2 U ttop U",
    ),
    ("nil", "nil"),
    ("xcube nil c2", "xcube nil c2"),
    (
        "xtope xcube nil c2 tle pv 0 pv 1",
        "xtope xcube nil c2 tle pv 5 pv 0",
    ),
    (
        "xterm nil rec U tle pv 0 pv 1 ttop U U",
        "xterm nil rec U tle pv 5 pv 0 ttop U U",
    ),
    ("v 0", "v 0"),
];

/// Bodies, and what each is with a term in it that has variables of both spaces.
const RAISED_IN: &[(&str, &str)] = &[
    ("v 0", "rec v 5 tle pv 5 p1 ttop U U"),
    ("pi U v 1", "pi U rec v 6 tle pv 5 p1 ttop U U"),
    (
        "ext c1 ttop v 0 ttop v 1",
        "ext c1 ttop rec v 5 tle pv 6 p1 ttop U U ttop v 0",
    ),
    (
        "lam U ext c1 ttop v 1 ttop v 0 v 1",
        "lam U ext c1 ttop rec v 6 tle pv 6 p1 ttop U U ttop v 0 rec v 6 tle pv 5 p1 ttop U U",
    ),
    (
        "pi ext c1 ttop v 0 ttop U ext c1 ttop v 1 ttop U",
        "pi ext c1 ttop rec v 5 tle pv 6 p1 ttop U U ttop U ext c1 ttop rec v 6 tle pv 6 p1 ttop U U ttop U",
    ),
];

/// Trees, and what each is where its term variables from 1 on rise by 2.
const TERMS_UP: &[(&str, &str)] = &[
    ("v 0", "v 0"),
    ("v 1", "v 3"),
    ("v 2", "v 4"),
    ("U", "U"),
    ("unit", "unit"),
    ("star", "star"),
    ("const U v 0", "const U v 0"),
    ("post v 0", "post v 0"),
    (
        "pi refl v 0 v 1 refl v 0 v 1",
        "pi refl v 0 v 3 refl v 0 v 1",
    ),
    (
        "lam refl v 0 v 1 refl v 0 v 1 refl v 0 v 1",
        "lam refl v 0 v 3 refl v 0 v 1 refl v 0 v 1",
    ),
    (
        "app refl v 0 v 1 refl v 0 v 1 v 0 v 1",
        "app refl v 0 v 3 refl v 0 v 1 v 0 v 3",
    ),
    (
        "sig refl v 0 v 1 refl v 0 v 1",
        "sig refl v 0 v 3 refl v 0 v 1",
    ),
    (
        "pair refl v 0 v 1 refl v 0 v 1 v 0 v 1",
        "pair refl v 0 v 3 refl v 0 v 1 v 0 v 3",
    ),
    (
        "fst refl v 0 v 1 refl v 0 v 1 v 0",
        "fst refl v 0 v 3 refl v 0 v 1 v 0",
    ),
    (
        "snd refl v 0 v 1 refl v 0 v 1 v 1",
        "snd refl v 0 v 3 refl v 0 v 1 v 3",
    ),
    ("id v 0 v 1 v 2", "id v 0 v 3 v 4"),
    ("refl v 1 v 0", "refl v 3 v 0"),
    ("J v 0 v 1 v 2 v 3 v 0 v 1", "J v 0 v 3 v 4 v 5 v 0 v 3"),
    (
        "ext c2 ttop refl v 0 v 1 tbot refl v 0 v 1",
        "ext c2 ttop refl v 0 v 3 tbot refl v 0 v 3",
    ),
    (
        "xlam c2 ttop refl v 0 v 1 tbot refl v 0 v 1 refl v 0 v 1",
        "xlam c2 ttop refl v 0 v 3 tbot refl v 0 v 3 refl v 0 v 3",
    ),
    (
        "xapp c2 ttop refl v 0 v 1 tbot refl v 0 v 1 v 0 p1",
        "xapp c2 ttop refl v 0 v 3 tbot refl v 0 v 3 v 0 p1",
    ),
    ("rec v 0 tbot ttop v 1 v 2", "rec v 0 tbot ttop v 3 v 4"),
    ("abort v 0", "abort v 0"),
    ("pi U v 2", "pi U v 4"),
    (
        "pi id v 0 v 1 v 2 id v 0 v 1 v 2",
        "pi id v 0 v 3 v 4 id v 0 v 1 v 4",
    ),
    ("pi U pi U id v 0 v 1 v 2", "pi U pi U id v 0 v 1 v 2"),
    (
        "lam U ext c1 ttop v 0 ttop v 1 pi U v 2",
        "lam U ext c1 ttop v 0 ttop v 1 pi U v 2",
    ),
    ("xterm xtope nil ttop v 0", "xterm xtope nil ttop v 0"),
    ("pv 0", "pv 0"),
];

/// Trees, and what each is where its cube variables from 1 on rise by 2.
const POINTS_UP: &[(&str, &str)] = &[
    ("pv 0", "pv 0"),
    ("pv 1", "pv 3"),
    ("pstar", "pstar"),
    ("p0", "p0"),
    ("p1", "p1"),
    ("pp pv 0 pv 1", "pp pv 0 pv 3"),
    ("pl pv 0", "pl pv 0"),
    ("pr pv 1", "pr pv 3"),
    ("c1", "c1"),
    ("c2", "c2"),
    ("cx c1 c2", "cx c1 c2"),
    ("ttop", "ttop"),
    ("tbot", "tbot"),
    ("tand tle pv 0 pv 1 ttop", "tand tle pv 0 pv 3 ttop"),
    ("tor tbot tle pv 0 pv 1", "tor tbot tle pv 0 pv 3"),
    ("teq cx c1 c2 pv 0 pv 2", "teq cx c1 c2 pv 0 pv 4"),
    ("tle pv 0 pv 1", "tle pv 0 pv 3"),
    (
        "const U rec U tle pv 0 pv 1 ttop U U",
        "const U rec U tle pv 0 pv 1 ttop U U",
    ),
    (
        "post rec U tle pv 0 pv 1 ttop U U",
        "post rec U tle pv 0 pv 1 ttop U U",
    ),
    (
        "pi rec U tle pv 0 pv 1 ttop U U rec U tle pv 0 pv 1 ttop U U",
        "pi rec U tle pv 0 pv 3 ttop U U rec U tle pv 0 pv 3 ttop U U",
    ),
    (
        "lam U rec U tle pv 0 pv 1 ttop U U rec U tle pv 0 pv 1 ttop U U",
        "lam U rec U tle pv 0 pv 3 ttop U U rec U tle pv 0 pv 3 ttop U U",
    ),
    (
        "ext c2 tle pv 0 pv 1 rec U tle pv 0 pv 1 ttop U U tle pv 0 pv 1 rec U tle pv 0 pv 1 ttop U U",
        "ext c2 tle pv 0 pv 1 rec U tle pv 0 pv 1 ttop U U tle pv 0 pv 1 rec U tle pv 0 pv 1 ttop U U",
    ),
    (
        "xlam c2 tle pv 0 pv 1 rec U tle pv 0 pv 1 ttop U U tle pv 0 pv 1 rec U tle pv 0 pv 1 ttop U U rec U tle pv 0 pv 1 ttop U U",
        "xlam c2 tle pv 0 pv 1 rec U tle pv 0 pv 1 ttop U U tle pv 0 pv 1 rec U tle pv 0 pv 1 ttop U U rec U tle pv 0 pv 1 ttop U U",
    ),
    (
        "xapp c2 tle pv 0 pv 1 rec U tle pv 0 pv 1 ttop U U tle pv 0 pv 1 rec U tle pv 0 pv 1 ttop U U rec U tle pv 0 pv 1 ttop U U pp pv 0 pv 1",
        "xapp c2 tle pv 0 pv 1 rec U tle pv 0 pv 1 ttop U U tle pv 0 pv 1 rec U tle pv 0 pv 1 ttop U U rec U tle pv 0 pv 3 ttop U U pp pv 0 pv 3",
    ),
    (
        "rec U tle pv 0 pv 1 tle pv 0 pv 1 v 0 v 1",
        "rec U tle pv 0 pv 3 tle pv 0 pv 3 v 0 v 1",
    ),
    (
        "ext c1 tle pv 2 pv 0 U ttop U",
        "ext c1 tle pv 4 pv 0 U ttop U",
    ),
    (
        "ext c1 ttop ext c1 tle pv 1 pv 2 U tle pv 0 pv 3 U ttop U",
        "ext c1 ttop ext c1 tle pv 1 pv 2 U tle pv 0 pv 5 U ttop U",
    ),
    ("nil", "nil"),
    ("xcube nil c2", "xcube nil c2"),
    (
        "xtope xcube nil c2 tle pv 0 pv 1",
        "xtope xcube nil c2 tle pv 0 pv 3",
    ),
    (
        "xterm nil rec U tle pv 0 pv 1 ttop U U",
        "xterm nil rec U tle pv 0 pv 3 ttop U U",
    ),
    ("v 0", "v 0"),
];

/// Puts a value into a body, by the general call and by that for the space.
fn put(
    rt: &impl Abort,
    alloc: Global,
    pool: &mut Pool,
    space: Space,
    body: u64,
    value: u64,
) -> Result<u64, Fail> {
    assert!(rt; body < pool.len());
    assert!(rt; value < pool.len());
    let sort = pool.node(value).kind.form().sort;
    match space {
        Space::Points => {
            assert!(rt; sort == Sort::Point);
            let new = rz_subst::put(alloc, pool, space, Counts::NONE, body, value)?;
            assert!(rt; new.is_some());
            assert_eq!(rt; Some(put_point(alloc, pool, body, value)?), new);
            Ok(new.ok_or("none")?)
        }
        Space::Terms => {
            assert!(rt; sort == Sort::Term);
            let new = rz_subst::put(alloc, pool, space, Counts::NONE, body, value)?;
            assert!(rt; new.is_some());
            assert_eq!(rt; Some(put_term(alloc, pool, body, value)?), new);
            Ok(new.ok_or("none")?)
        }
    }
}

/// Shifts a tree from an index on, by the general call and by that for the space.
fn shift(
    rt: &impl Abort,
    alloc: Global,
    pool: &mut Pool,
    space: Space,
    id: u64,
    from: u64,
    by: u64,
) -> Result<u64, Fail> {
    assert!(rt; id < pool.len());
    let new = rz_subst::shift(alloc, pool, space, id, from, by)?;
    assert!(rt; new.is_some());
    let again = match space {
        Space::Points => shift_points(alloc, pool, id, from, by)?,
        Space::Terms => shift_terms(alloc, pool, id, from, by)?,
    };
    assert_eq!(rt; Some(again), new);
    Ok(again)
}

/// Trees that are shifted by so many from 0 on, and whether each index stays below the limit.
const LIMITS: &[(&str, u64, bool)] = &[
    ("v 4294967294", 1, true),
    ("v 4294967295", 0, true),
    ("v 4294967295", 1, false),
    ("v 0", 18446744073709551615, false),
    ("pi U v 0", 18446744073709551615, true),
    ("pi U v 1", 18446744073709551615, false),
];

#[test]
fn large_indices(rt: HostRuntime) -> Result<(), Fail> {
    let alloc = rt.alloc();
    let mut pool = Pool::new(alloc);
    for (tree, by, fits) in LIMITS {
        let id = read_tree(alloc, &mut pool, tree)?;
        assert!(rt; id < pool.len());
        let new = rz_subst::shift(alloc, &mut pool, Space::Terms, id, 0, *by)?;
        assert_eq!(rt; new.is_some(), *fits, "{tree}");
    }
    Ok(())
}

fn check_put(
    rt: &impl Abort,
    alloc: Global,
    space: Space,
    value: &str,
    rows: &[(&str, &str)],
) -> Result<(), Fail> {
    for (body, want) in rows {
        let mut pool = Pool::new(alloc);
        let value = read_tree(alloc, &mut pool, value)?;
        let id = read_tree(alloc, &mut pool, body)?;
        let new = put(rt, alloc, &mut pool, space, id, value)?;
        assert_eq!(rt; new, read_tree(alloc, &mut pool, want)?, "{body}");
    }
    Ok(())
}

fn check_shift(
    rt: &impl Abort,
    alloc: Global,
    space: Space,
    from: u64,
    by: u64,
    rows: &[(&str, &str)],
) -> Result<(), Fail> {
    for (tree, want) in rows {
        let mut pool = Pool::new(alloc);
        let id = read_tree(alloc, &mut pool, tree)?;
        let new = shift(rt, alloc, &mut pool, space, id, from, by)?;
        assert_eq!(rt; new, read_tree(alloc, &mut pool, want)?, "{tree}");
    }
    Ok(())
}

#[test]
fn few_rows(rt: HostRuntime) -> Result<(), Fail> {
    let alloc = rt.alloc();
    check_put(
        &rt,
        alloc,
        Space::Points,
        "p0",
        &[("tle pv 0 pv 1", "tle p0 pv 0")],
    )?;
    check_put(&rt, alloc, Space::Terms, "U", &[("v 1", "v 0")])?;
    check_shift(&rt, alloc, Space::Points, 1, 2, &[("pv 1", "pv 3")])?;
    check_shift(&rt, alloc, Space::Terms, 1, 2, &[("v 0", "v 0")])
}

#[test]
fn all_kinds(rt: HostRuntime) -> Result<(), Fail> {
    let alloc = rt.alloc();
    check_put(&rt, alloc, Space::Terms, "v 5", TERM_IN)?;
    check_put(&rt, alloc, Space::Points, "pv 5", POINT_IN)?;
    check_put(
        &rt,
        alloc,
        Space::Terms,
        "rec v 5 tle pv 5 p1 ttop U U",
        RAISED_IN,
    )?;
    check_shift(&rt, alloc, Space::Terms, 1, 2, TERMS_UP)?;
    check_shift(&rt, alloc, Space::Points, 1, 2, POINTS_UP)
}

#[test]
fn laws() {
    put_after_shift();
    shifts_commute();
    shift_and_put_commute();
    puts_commute();
    closed_trees_stay();
    weakening_adds_up();
}

/// A tower of function types over `v 3199`, but for the one place of the foot that is under all
/// 3,200 binders, where `U` stands.
fn tower_but_for_a_foot(rt: &impl Abort, alloc: Global, pool: &mut Pool) -> Result<u64, Fail> {
    let mut tower = read_tree(alloc, pool, "v 3199")?;
    let mut id = read_tree(alloc, pool, "U")?;
    for _ in 0..3200 {
        id = pair_of(rt, alloc, pool, Kind::Pi, tower, id)?;
        tower = pair_of(rt, alloc, pool, Kind::Pi, tower, tower)?;
    }
    Ok(id)
}

#[test]
fn large_trees(rt: HostRuntime) -> Result<(), Fail> {
    let alloc = rt.alloc();
    let mut pool = Pool::new(alloc);
    let value = read_tree(alloc, &mut pool, "U")?;
    let body = tower(&rt, alloc, &mut pool, Kind::Reflexivity, "v 0", 1000)?;
    let want = tower(&rt, alloc, &mut pool, Kind::Reflexivity, "U", 1000)?;
    assert_eq!(rt;
        put(&rt, alloc, &mut pool, Space::Terms, body, value)?,
        want
    );

    let body = tower(&rt, alloc, &mut pool, Kind::Pi, "v 200", 100)?;
    let new = shift(&rt, alloc, &mut pool, Space::Terms, body, 0, 3)?;
    let want = tower(&rt, alloc, &mut pool, Kind::Pi, "v 203", 100)?;
    assert_eq!(rt; new, want);

    let body = tower(&rt, alloc, &mut pool, Kind::Pi, "v 3200", 3200)?;
    let want = tower_but_for_a_foot(&rt, alloc, &mut pool)?;
    let new = put(&rt, alloc, &mut pool, Space::Terms, body, value)?;
    assert_eq!(rt; new, want);

    let value = read_tree(alloc, &mut pool, "p0")?;
    let foot = "rec U tle pv 0 p1 ttop U U";
    let body = tower(&rt, alloc, &mut pool, Kind::Pi, foot, 3200)?;
    let foot = "rec U tle p0 p1 ttop U U";
    let want = tower(&rt, alloc, &mut pool, Kind::Pi, foot, 3200)?;
    let new = put(&rt, alloc, &mut pool, Space::Points, body, value)?;
    assert_eq!(rt; new, want);
    Ok(())
}
