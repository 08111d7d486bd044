use rz_drv::encode;
use rz_export::export;
use rz_export::laws::one_part;
use rz_log::laws::{derivation, growth, scoping, statements};
use rz_log::{Log, World};
use rz_rules::{Judgment, Numbers};
use std::test::Fail;

/// What a world without lines answers and gives. Worlds with lines are made by rows, in `files` and
/// `decided`.
#[test]
fn world_without_lines(rt: HostRuntime) -> Result<(), Fail> {
    let alloc = rt.alloc();
    let mut w = World::new(alloc);
    assert_eq!(rt; w.log.len(), 0);
    assert_eq!(rt; w.log.find(Judgment::Formed { c: 0 }), None);
    let mark = w.mark();
    assert_eq!(rt; (mark.nodes, mark.lines), (0, 0));
    w.release(mark);
    let part = export(alloc, &w, &[])?;
    let bytes = encode(alloc, &part)?;
    assert_eq!(rt; bytes.as_slice(), b"rzk-derivation 1\nend\n".as_slice());

    let mut log = Log::new(alloc);
    assert_eq!(rt; log.mark(), 0);
    log.release(0);
    let roots = Numbers::new(alloc);
    let steps = log.reachable(alloc, &roots)?;
    assert_eq!(rt; steps.len(), 0);
    derivation();
    statements();
    scoping();
    growth();
    Ok(())
}
