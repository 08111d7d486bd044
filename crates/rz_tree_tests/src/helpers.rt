//! Trees by text, large trees, and coordinates as texts.

use rz_pool::Pool;
use rz_rules::{Coord, Kids, Kind, Name, Node};
use std::alloc::Global;
use std::process::Abort;
use std::test::Fail;

/// The id of the tree that a text spells.
pub fn read_tree(alloc: Global, pool: &mut Pool, text: &str) -> Result<u64, Fail> {
    Ok(crate::read(alloc, pool, text)?.ok_or("no tree")?)
}

/// A tree of a kind, of two kids.
pub fn pair_of(
    rt: &impl Abort,
    alloc: Global,
    pool: &mut Pool,
    kind: Kind,
    first: u64,
    second: u64,
) -> Result<u64, Fail> {
    let node = Node {
        kind,
        number: 0,
        name: Name::new(alloc),
        kids: Kids::from_slice(&[first, second]),
    };
    assert!(rt; pool.accepts(&node));
    Ok(pool.make(node)?)
}

/// A tree of this tree and itself, and so on: its leaves are at least 2 to the number of levels.
pub fn tower(
    rt: &impl Abort,
    alloc: Global,
    pool: &mut Pool,
    kind: Kind,
    foot: &str,
    levels: u64,
) -> Result<u64, Fail> {
    let mut id = read_tree(alloc, pool, foot)?;
    for _ in 0..levels {
        id = pair_of(rt, alloc, pool, kind, id, id)?;
    }
    Ok(id)
}

/// Coordinates with a space between each two: `0` and `1` are the ends, `v2lr` is variable 2 at the
/// path `lr`.
pub fn text_of(alloc: Global, list: &[Coord]) -> Result<String, Fail> {
    let mut text = String::new(alloc);
    for coordinate in list {
        if !text.is_empty() {
            text.push(' ')?;
        }
        match coordinate {
            Coord::Zero => text.push('0')?,
            Coord::One => text.push('1')?,
            Coord::Of { variable, path } => {
                text.push_str(format!(in alloc; "v{variable}{}", path.as_str())?.as_str())?;
            }
        }
    }
    Ok(text)
}
