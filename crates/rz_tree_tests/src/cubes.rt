//! Cubes and points by hand.

use crate::helpers::{pair_of, read_tree, text_of, tower};
use rz_cube::{CubeFault, coordinates, cube_of, leaves};
use rz_pool::Pool;
use rz_rules::Kind;
use std::alloc::Global;
use std::process::Abort;
use std::test::Fail;

/// Contexts, points, and the cube of each with its coordinates. An empty cube says that there is
/// none.
const POINTS: &[(&str, &str, &str, &str)] = &[
    ("nil", "p0", "c2", "0"),
    ("nil", "p1", "c2", "1"),
    ("nil", "pstar", "c1", ""),
    ("xcube nil c2", "pp p0 pv 0", "cx c2 c2", "0 v0"),
    ("xcube nil c1", "pv 0", "c1", ""),
    ("xcube xcube nil c1 c2", "pv 1", "c1", ""),
    ("xcube xcube nil c2 c1", "pp pv 1 pv 0", "cx c2 c1", "v1"),
    (
        "xcube nil cx cx c2 c1 c2",
        "pv 0",
        "cx cx c2 c1 c2",
        "v0ll v0r",
    ),
    (
        "xcube nil cx cx c2 c2 cx c2 c2",
        "pv 0",
        "cx cx c2 c2 cx c2 c2",
        "v0ll v0lr v0rl v0rr",
    ),
    ("xcube nil cx cx c2 c1 c2", "pl pv 0", "cx c2 c1", "v0ll"),
    ("xcube nil cx cx c2 c1 c2", "pr pv 0", "c2", "v0r"),
    ("xcube nil cx cx c2 c1 c2", "pl pl pv 0", "c2", "v0ll"),
    ("xcube nil cx cx c2 c1 c2", "pr pl pv 0", "c1", ""),
    ("xcube nil cx c2 cx c2 c2", "pl pr pv 0", "c2", "v0rl"),
    ("xcube nil cx c2 cx c2 c2", "pr pr pv 0", "c2", "v0rr"),
    ("nil", "pl pp p0 p1", "c2", "0"),
    ("nil", "pr pp p0 p1", "c2", "1"),
    ("nil", "pr pp pstar pp p0 p1", "cx c2 c2", "0 1"),
    (
        "xcube xtope xterm xcube nil c2 U ttop cx c2 c2",
        "pp pv 1 pp pr pv 0 pl pv 0",
        "cx c2 cx c2 c2",
        "v1 v0r v0l",
    ),
    ("xcube nil c2", "pv 1", "", ""),
    ("nil", "pv 0", "", ""),
    ("xterm nil U", "pv 0", "", ""),
    ("nil", "pl p0", "", ""),
    ("nil", "pr pstar", "", ""),
    ("xcube nil c2", "pl pv 0", "", ""),
    ("xcube nil cx c2 c2", "pl pl pv 0", "", ""),
    ("nil", "pp p0 pl p1", "", ""),
    ("nil", "pp pr p0 p1", "", ""),
    ("nil", "pl pl pp p0 p1", "", ""),
];

/// Asks for a point's cube and coordinates, and compares them with these.
fn check_point(
    rt: &impl Abort,
    alloc: Global,
    context: &str,
    point: &str,
    cube: &str,
    list: &str,
) -> Result<(), Fail> {
    let mut pool = Pool::new(alloc);
    let context = read_tree(alloc, &mut pool, context)?;
    let point = read_tree(alloc, &mut pool, point)?;
    assert!(rt; context < pool.len());
    assert!(rt; point < pool.len());
    let before = pool.len();
    let told = coordinates(alloc, &mut pool, context, point);
    assert_eq!(rt; pool.len(), before);
    let found = cube_of(alloc, &mut pool, context, point);
    if cube.is_empty() {
        assert_eq!(rt; found, Err(CubeFault::BadPoint));
        assert_eq!(rt; told.err(), Some(CubeFault::BadPoint));
        return Ok(());
    }
    assert_eq!(rt; found?, read_tree(alloc, &mut pool, cube)?);
    assert_eq!(rt; text_of(alloc, told?.as_slice())?.as_str(), list);
    Ok(())
}

#[test]
fn points_have_their_coordinates(rt: HostRuntime) -> Result<(), Fail> {
    for (context, point, cube, list) in POINTS {
        check_point(&rt, rt.alloc(), context, point, cube, list)?;
    }
    Ok(())
}

/// Levels of products of `c2` with itself, and the answer to how many leaves there are.
const TOWERS: &[(u64, Result<u64, CubeFault>)] = &[
    (0, Ok(1)),
    (6, Ok(64)),
    (7, Err(CubeFault::WideCube)),
    (1000, Err(CubeFault::WideCube)),
];

#[test]
fn cubes_have_their_leaves(rt: HostRuntime) -> Result<(), Fail> {
    let alloc = rt.alloc();
    let mut pool = Pool::new(alloc);
    for (levels, want) in TOWERS {
        let cube = tower(&rt, alloc, &mut pool, Kind::Product, "c2", *levels)?;
        assert!(rt; cube < pool.len());
        assert_eq!(rt; leaves(alloc, &pool, cube), *want);
    }
    let first = read_tree(alloc, &mut pool, "c2")?;
    let second = tower(&rt, alloc, &mut pool, Kind::Product, "c1", 6)?;
    let cube = pair_of(&rt, alloc, &mut pool, Kind::Product, first, second)?;
    assert!(rt; cube < pool.len());
    assert_eq!(rt; leaves(alloc, &pool, cube), Err(CubeFault::WideCube));
    Ok(())
}

#[test]
fn shared_points_cost_what_they_have(rt: HostRuntime) -> Result<(), Fail> {
    let alloc = rt.alloc();
    let mut pool = Pool::new(alloc);
    let context = read_tree(alloc, &mut pool, "nil")?;
    let point = tower(&rt, alloc, &mut pool, Kind::PointPair, "pstar", 1000)?;
    assert!(rt; context < pool.len());
    assert!(rt; point < pool.len());
    let list = coordinates(alloc, &mut pool, context, point)?;
    assert_eq!(rt; list.len(), 0);
    assert!(rt; context < pool.len());
    assert!(rt; point < pool.len());
    let cube = cube_of(alloc, &mut pool, context, point)?;
    assert_eq!(rt;
        cube,
        tower(&rt, alloc, &mut pool, Kind::Product, "c1", 1000)?
    );
    Ok(())
}

#[test]
fn faults_have_a_text(rt: HostRuntime) -> Result<(), Fail> {
    let alloc = rt.alloc();
    let texts = [
        (CubeFault::WideCube, "the cube has more than 64 leaves"),
        (CubeFault::BadPoint, "no point over the context"),
        (CubeFault::OutOfMemory, "out of memory"),
    ];
    for (fault, text) in texts {
        assert_eq!(rt; format!(in alloc; "{fault}")?.as_str(), text);
    }
    Ok(())
}
