//! Nodes, lines and claims with other numbers: in the place of each id and of each step stands its place in a list.

ghost use Rattle.std.specs.Prelude.{◌≡◌, ◌≤◌, ◌<◌, Some, length, slice_get, All, Contains, IfOk};
ghost use Rattle.rz_rules.specs.Judgment.{ids_of};
ghost use Rattle.rz_log.specs.Reachable.{IsRising};
ghost use Rattle.rz_export.specs.Moves.{AreClosed, AreMovedClaims, AreMovedLines, AreMovedNodes, ArePlaces, IsMovedJudgment, IsMovedLine, IsMovedNode, NameAmong, RestAmong};

use crate::claims::Claimed;
use rz_log::Log;
use rz_pool::Pool;
use rz_rules::{Items, Judgment, Kids, Line, Name, Node, Numbers, OutOfMemory};
use std::alloc::Global;

/// The place at which a number stands in a list.
fn place(list: &[u64], number: u64) -> u64
    requires rising { IsRising list.now }
    requires there { Contains list.now number }
    ensures { slice_get list.now result ≡ Some number }
{
    match list.binary_search(&number) {
        Ok(place) => place as u64,
        Err(_) => unreachable!(),
    }
}

/// The places of kids.
fn moved_kids(kids: &[u64], ids: &[u64]) -> Kids
    requires few { length kids.now ≤ 7 }
    requires rising { IsRising ids.now }
    requires there { All (Contains ids.now) kids.now }
    ensures { ArePlaces ids.now kids.now result }
{
    let mut moved = Kids::new();
    for kid in kids {
        moved.push(place(ids, *kid));
    }
    moved
}

/// The places of premises.
fn moved_premises(alloc: Global, from: &[u64], steps: &[u64]) -> Result<Numbers, OutOfMemory>
    requires rising { IsRising steps.now }
    requires there { All (Contains steps.now) from.now }
    ensures { IfOk result (ArePlaces steps.now from.now) }
{
    let mut moved = Numbers::new(alloc);
    for premise in from {
        moved.push(place(steps, *premise))?;
    }
    Ok(moved)
}

/// A node with the places of its kids.
fn moved_node(node: &Node, ids: &[u64]) -> Result<Node, OutOfMemory>
    requires rising { IsRising ids.now }
    requires there { All (Contains ids.now) node.now.kids }
    ensures { IfOk result (IsMovedNode ids.now node.now) }
{
    Ok(Node {
        kind: node.kind,
        number: node.number,
        name: node.name.copy()?,
        kids: moved_kids(node.kids.as_slice(), ids),
    })
}

/// A judgment with the places of its ids.
fn moved_judgment(says: Judgment, ids: &[u64]) -> Judgment
    requires rising { IsRising ids.now }
    requires there { All (Contains ids.now) (ids_of says) }
    ensures { IsMovedJudgment ids.now says result }
{
    match says {
        Judgment::Formed { c } => Judgment::Formed { c: place(ids, c) },
        Judgment::Holds { c, phi } => Judgment::Holds {
            c: place(ids, c),
            phi: place(ids, phi),
        },
        Judgment::Has { c, a, of } => Judgment::Has {
            c: place(ids, c),
            a: place(ids, a),
            of: place(ids, of),
        },
        Judgment::Same { c, a, b, of } => Judgment::Same {
            c: place(ids, c),
            a: place(ids, a),
            b: place(ids, b),
            of: place(ids, of),
        },
    }
}

/// A line with the places of its ids and its premises.
fn moved_line(alloc: Global, line: &Line, ids: &[u64], steps: &[u64]) -> Result<Line, OutOfMemory>
    requires ids { IsRising ids.now }
    requires steps { IsRising steps.now }
    requires named { All (Contains ids.now) (ids_of line.now.says) }
    requires premises { All (Contains steps.now) line.now.from }
    ensures { IfOk result (IsMovedLine ids.now steps.now line.now) }
{
    Ok(Line {
        row: line.row,
        number: line.number,
        says: moved_judgment(line.says, ids),
        from: moved_premises(alloc, line.from.as_slice(), steps)?,
    })
}

/// The nodes of these ids, in their order.
pub fn moved_nodes(alloc: Global, pool: &Pool, ids: &[u64]) -> Result<Items<Node>, OutOfMemory>
    requires rising { IsRising ids.now }
    requires live { All (λ id. id < length pool.now.nodes) ids.now }
    requires closed { AreClosed pool.now.nodes ids.now }
    ensures { IfOk result (AreMovedNodes pool.now.nodes ids.now) }
{
    let mut nodes = Items::new(alloc);
    for id in ids {
        nodes.push(moved_node(pool.node(*id), ids)?)?;
    }
    Ok(nodes)
}

/// The lines of these steps, in their order.
pub fn moved_lines(
    alloc: Global,
    log: &Log,
    ids: &[u64],
    steps: &[u64],
) -> Result<Items<Line>, OutOfMemory>
    requires ids { IsRising ids.now }
    requires steps { IsRising steps.now }
    requires live { All (λ step. step < length log.now) steps.now }
    requires named { NameAmong log.now steps.now ids.now }
    requires premises { RestAmong log.now steps.now }
    ensures { IfOk result (AreMovedLines log.now ids.now steps.now) }
{
    let mut lines = Items::new(alloc);
    for step in steps {
        lines.push(moved_line(alloc, log.line(*step), ids, steps)?)?;
    }
    Ok(lines)
}

/// The claims, with the places of their steps.
pub fn moved_claims(
    alloc: Global,
    claims: &[Claimed],
    steps: &[u64],
) -> Result<Items<(Name, u64)>, OutOfMemory>
    requires rising { IsRising steps.now }
    requires there { All (λ claim. Contains steps.now claim.step) claims.now }
    ensures { IfOk result (AreMovedClaims steps.now claims.now) }
{
    let mut moved = Items::new(alloc);
    for claim in claims {
        moved.push((claim.name.copy()?, place(steps, claim.step)))?;
    }
    Ok(moved)
}
