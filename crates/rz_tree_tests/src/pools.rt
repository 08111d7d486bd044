//! Pools by hand.

use rz_pool::{HashKey, Pool};
use rz_rules::{Kids, Kind, Name, Node, Space};
use std::alloc::Global;
use std::process::Abort;
use std::test::Fail;

/// A node as a row of a table: its kind, its number, its name and its kids.
type Row = (Kind, u64, &'static str, &'static [u64]);

/// The nodes of the worked rows, with their ids.
const WORKED: &[(Row, u64)] = &[
    ((Kind::CubeTwo, 0, "", &[]), 0),
    ((Kind::Zero, 0, "", &[]), 1),
    ((Kind::Zero, 0, "", &[]), 1),
    ((Kind::One, 0, "", &[]), 2),
    ((Kind::AtMost, 0, "", &[1, 2]), 3),
];

/// Nodes of which numbers tell two apart, with their ids.
const NUMBERED: &[(Row, u64)] = &[
    ((Kind::CubeTwo, 0, "", &[]), 0),
    ((Kind::PointVariable, 0, "", &[]), 1),
    ((Kind::PointVariable, 1, "", &[]), 2),
    ((Kind::AtMost, 0, "", &[1, 2]), 3),
    ((Kind::EmptyContext, 0, "", &[]), 4),
    ((Kind::Universe, 0, "", &[]), 5),
];

/// Nodes that are refused after those.
const REFUSED: &[Row] = &[
    (Kind::CubeTwo, 1, "", &[]),
    (Kind::PointVariable, 1 << 32, "", &[]),
    (Kind::AtMost, 0, "", &[1]),
    (Kind::AtMost, 0, "", &[1, 3]),
    (Kind::AtMost, 0, "", &[1, 6]),
    (Kind::CubeEntry, 0, "", &[0, 4]),
    (Kind::Universe, 0, "a", &[]),
    (Kind::PointVariable, 0, "a", &[]),
    (Kind::Postulate, 0, "", &[5]),
    (Kind::Constant, 0, "", &[5, 5]),
    (Kind::Postulate, 0, "a b", &[5]),
    (Kind::Postulate, 0, "a\n", &[5]),
    (Kind::Postulate, 1, "a", &[5]),
];

/// Nodes of which names tell some apart, with their ids.
const NAMED: &[(Row, u64)] = &[
    ((Kind::Universe, 0, "", &[]), 0),
    ((Kind::Postulate, 0, "a", &[0]), 1),
    ((Kind::Postulate, 0, "b", &[0]), 2),
    ((Kind::Postulate, 0, "a", &[0]), 1),
    ((Kind::Constant, 0, "a", &[0, 0]), 3),
    ((Kind::Postulate, 0, "Σ-a", &[0]), 4),
];

/// Nodes of which some have free term variables, with their ids.
const OPEN: &[(Row, u64)] = &[
    ((Kind::TermVariable, 3, "", &[]), 0),
    ((Kind::TermVariable, 0, "", &[]), 1),
    ((Kind::Universe, 0, "", &[]), 2),
    ((Kind::Pi, 0, "", &[0, 0]), 3),
    ((Kind::Pi, 0, "", &[2, 1]), 4),
    ((Kind::Pi, 0, "", &[2, 0]), 5),
    ((Kind::Constant, 0, "a", &[0, 0]), 6),
];

/// For each of these ids the least index from which its tree has no free term variable, and an
/// index below which it has none.
const SPANS: &[(u64, u64)] = &[(4, 3), (1, 0), (0, 0), (4, 2), (0, 0), (3, 2), (0, 0)];

/// The node of a row.
fn node(rt: &impl Abort, alloc: Global, row: Row) -> Result<Node, Fail> {
    let (kind, number, name, kids) = row;
    assert!(rt; kids.len() <= 7);
    Ok(Node {
        kind,
        number,
        name: Name::from_text(alloc, name)?,
        kids: Kids::from_slice(kids),
    })
}

/// Makes a node that is accepted.
fn add(rt: &impl Abort, pool: &mut Pool, node: Node) -> Result<u64, Fail> {
    assert!(rt; pool.accepts(&node));
    Ok(pool.make(node)?)
}

/// Makes the nodes of rows, which get these ids.
fn add_all(
    rt: &impl Abort,
    alloc: Global,
    pool: &mut Pool,
    rows: &[(Row, u64)],
) -> Result<(), Fail> {
    for (row, want) in rows {
        let node = node(rt, alloc, *row)?;
        assert_eq!(rt; add(rt, pool, node)?, *want, "{row:?}");
    }
    Ok(())
}

/// A tree of more than 2^1000 nodes, over a tope.
fn wide_tope(rt: &impl Abort, alloc: Global, pool: &mut Pool, tope: u64) -> Result<u64, Fail> {
    let mut wide = tope;
    for _ in 0..1000 {
        let node = Node {
            kind: Kind::Disjunction,
            number: 0,
            name: Name::new(alloc),
            kids: Kids::from_slice(&[wide, wide]),
        };
        wide = add(rt, pool, node)?;
    }
    Ok(wide)
}

/// A copy of a tree, by its id in the other pool.
fn copy(rt: &impl Abort, from: &Pool, id: u64, to: &mut Pool) -> Result<u64, Fail> {
    assert!(rt; id < from.len());
    Ok(from.copy_to(id, to)?)
}

/// The two kids of a node of this kind.
fn two_kids(rt: &impl Abort, pool: &Pool, id: u64, kind: Kind) -> (u64, u64) {
    assert!(rt; id < pool.len());
    let node = pool.node(id);
    assert_eq!(rt; node.kind, kind);
    let kids = node.kids.as_slice();
    assert_eq!(rt; kids.len(), 2);
    (kids[0], kids[1])
}

/// That the node of an id is this one.
fn assert_node(rt: &impl Abort, alloc: Global, pool: &Pool, id: u64, row: Row) -> Result<(), Fail> {
    assert!(rt; id < pool.len());
    let want = node(rt, alloc, row)?;
    assert!(rt; *pool.node(id) == want, "{row:?}");
    Ok(())
}

/// A node more, and then back to those before it.
fn go_back(rt: &impl Abort, alloc: Global, pool: &mut Pool) -> Result<(), Fail> {
    let mark = pool.mark();
    assert_eq!(rt; mark, 4);
    let top = node(rt, alloc, (Kind::Top, 0, "", &[]))?;
    assert_eq!(rt; add(rt, pool, top)?, 4);
    assert!(rt; mark <= pool.len());
    pool.release(mark);
    assert_eq!(rt; pool.len(), 4);
    Ok(())
}

/// The tree `tle p0 p1` in an empty pool, and a large one.
fn copy_both(rt: &impl Abort, alloc: Global, pool: &mut Pool) -> Result<(), Fail> {
    let mut other = Pool::new(alloc);
    let small = copy(rt, pool, 3, &mut other)?;
    assert_eq!(rt; other.len(), 3);
    let (low, high) = two_kids(rt, &other, small, Kind::AtMost);
    assert_node(rt, alloc, &other, low, (Kind::Zero, 0, "", &[]))?;
    assert_node(rt, alloc, &other, high, (Kind::One, 0, "", &[]))?;

    let wide = wide_tope(rt, alloc, pool, 3)?;
    let large = copy(rt, pool, wide, &mut other)?;
    assert_eq!(rt; copy(rt, pool, wide, &mut other)?, large);
    assert_eq!(rt; other.len(), 1003);
    Ok(())
}

#[test]
fn rows(rt: HostRuntime) -> Result<(), Fail> {
    let alloc = rt.alloc();
    let mut pool = Pool::new(alloc);
    add_all(&rt, alloc, &mut pool, WORKED)?;
    go_back(&rt, alloc, &mut pool)?;
    pool.reserve(2)?;
    for kind in [Kind::Top, Kind::Bottom] {
        let node = node(&rt, alloc, (kind, 0, "", &[]))?;
        add(&rt, &mut pool, node)?;
    }
    copy_both(&rt, alloc, &mut pool)
}

#[test]
fn refused_nodes(rt: HostRuntime) -> Result<(), Fail> {
    let alloc = rt.alloc();
    let mut pool = Pool::new(alloc);
    add_all(&rt, alloc, &mut pool, NUMBERED)?;
    for row in REFUSED {
        assert!(rt; !pool.accepts(&node(&rt, alloc, *row)?), "{row:?}");
    }
    Ok(())
}

#[test]
fn names_tell_nodes_apart(rt: HostRuntime) -> Result<(), Fail> {
    let alloc = rt.alloc();
    let mut pool = Pool::new(alloc);
    add_all(&rt, alloc, &mut pool, NAMED)?;
    assert_eq!(rt; pool.len(), 5);
    assert!(rt; pool.are_same(1, 1) && !pool.are_same(1, 2));
    Ok(())
}

#[test]
fn free_variables(rt: HostRuntime) -> Result<(), Fail> {
    let alloc = rt.alloc();
    let key = HashKey {
        first: 1,
        second: 2,
    };
    let mut pool = Pool::keyed(alloc, key);
    add_all(&rt, alloc, &mut pool, OPEN)?;
    assert_eq!(rt; pool.hash_key().second, 2);
    let mut id = 0;
    for (bound, least) in SPANS {
        assert!(rt; id < pool.len());
        assert_eq!(rt; pool.free_bound(Space::Terms, id), *bound);
        assert_eq!(rt; pool.free_least(Space::Terms, id), *least);
        assert_eq!(rt; pool.free_bound(Space::Points, id), 0);
        id += 1;
    }
    Ok(())
}
