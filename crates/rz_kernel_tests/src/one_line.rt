//! Whether one line follows from others, by the call that asks that alone.

ghost use Rattle.std.specs.Prelude.{◌≡◌, ◌<◌, length};
ghost use Rattle.rz_rules.specs.Tree.{sort_of, tree_of};
ghost use Rattle.rz_kernel_rows.specs.Line.{IsJudgmentOver};

use rz_kernel_rows::follows;
use rz_pool::Pool;
use rz_rules::{Judgment, Line, Numbers, Row, Sort};
use rz_tree_tests::read;
use std::alloc::Global;
use std::process::Abort;
use std::test::Fail;

/// Asserts that a node is there and of a sort.
fn assert_sort(rt: &impl Abort, pool: &Pool, id: u64, wanted: Sort)
    ensures there { id < length pool.now.nodes }
    ensures sort { sort_of (tree_of pool.now.nodes id) ≡ wanted }
{
    assert!(rt; id < pool.len());
    let sort = pool.node(id).kind.form().sort;
    assert!(rt; sort == wanted);
}

/// That a context is formed.
fn formed(rt: &impl Abort, pool: &Pool, c: u64) -> Judgment
    ensures { IsJudgmentOver pool.now.nodes result }
{
    assert_sort(rt, pool, c, Sort::Context);
    Judgment::Formed { c }
}

/// That a tope holds in a context.
fn holds(rt: &impl Abort, pool: &Pool, c: u64, phi: u64) -> Judgment
    ensures { IsJudgmentOver pool.now.nodes result }
{
    assert_sort(rt, pool, c, Sort::Context);
    assert_sort(rt, pool, phi, Sort::Tope);
    Judgment::Holds { c, phi }
}

/// Whether a tope holds in a context by `le-zero`, from the line that the context is formed.
///
/// The pool has its old nodes again at the end, though the cube of a pair is made on the way.
fn holds_by_zero(rt: &impl Abort, alloc: Global, context: &str, tope: &str) -> Result<bool, Fail> {
    let mut pool = Pool::new(alloc);
    let c = read(alloc, &mut pool, context)?.ok_or("no context")?;
    let phi = read(alloc, &mut pool, tope)?.ok_or("no tope")?;
    let earlier = Line {
        row: Row::ContextNil,
        number: 0,
        says: formed(rt, &pool, c),
        from: Numbers::new(alloc),
    };
    let line = Line {
        row: Row::ZeroAtMost,
        number: 0,
        says: holds(rt, &pool, c, phi),
        from: Numbers::from_slice(alloc, &[0])?,
    };
    let before = pool.len();
    let answer = follows(alloc, &mut pool, &[earlier], &line)?;
    assert_eq!(rt; pool.len(), before);
    Ok(answer)
}

/// Contexts, topes, and whether they hold by `le-zero`.
const CASES: &[(&str, &str, bool)] = &[
    ("xcube nil c2", "tle p0 pv 0", true),
    ("xcube nil c2", "tle p0 pl pp pv 0 p1", true),
    ("xcube nil c2", "tle p0 pl pv 0", false),
    ("xcube nil c2", "tle p0 pv 1", false),
    ("xcube nil c2", "tle pv 0 p1", false),
    ("xcube nil c1", "tle p0 pv 0", false),
];

#[test]
fn one_line_follows_or_not(rt: HostRuntime) -> Result<(), Fail> {
    for (context, tope, wanted) in CASES {
        let answer = holds_by_zero(&rt, rt.alloc(), context, tope)?;
        assert_eq!(rt; answer, *wanted, "{tope} in {context}");
    }
    Ok(())
}
