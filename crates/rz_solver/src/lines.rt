//! Lines that say that topes hold.

ghost use Rattle.std.specs.Prelude.{◌≡◌, ◌<◌, length, IfOk, IfSome};
ghost use Rattle.rz_rules.specs.declared.kinds.Sort.TheVariants.{Context};
ghost use Rattle.rz_rules.specs.Derivation.{Follows};
ghost use Rattle.rz_rules.specs.Structural.{holds};
ghost use Rattle.rz_rules.specs.Tree.{IsTree, Tree, tree_of};
ghost use Rattle.rz_tope_proof.specs.Claim.{IsClaim, tope_of};
ghost use Rattle.rz_log.specs.World.{Grows, IsSound, Says, statements_in};

use crate::topes::tope;
use rz_log::World;
use rz_rules::{Judgment, Line, Numbers, OutOfMemory, Row};
use rz_tope_proof::Claim;
use std::alloc::Global;

/// A step that says that a tope holds in a context, by a row from these steps.
pub(crate) fn add_holds(
    alloc: Global,
    w: &mut World,
    row: Row,
    context: u64,
    phi: u64,
    from: &[u64],
) -> Result<u64, OutOfMemory>
    requires sound { IsSound w.old }
    requires context { context < length w.old.pool.nodes }
    requires phi { phi < length w.old.pool.nodes }
    requires follows { Follows (statements_in w.old)
        (record {
          row = row;
          number = 0;
          says = holds (tree_of w.old.pool.nodes context) (tree_of w.old.pool.nodes phi);
          from = from.now;
        }) }
    ensures says { IfOk result (λ step. Says w.new step
        (holds (tree_of w.old.pool.nodes context) (tree_of w.old.pool.nodes phi))) }
    ensures grows { Grows w.old w.new }
{
    let line = Line {
        row,
        number: 0,
        says: Judgment::Holds { c: context, phi },
        from: Numbers::from_slice(alloc, from)?,
    };
    let step = w.add(line)?;
    Ok(step)
}

/// The step that says that a claim's tope holds in a context, where there is one, and the tope.
pub(crate) fn find_claim(
    alloc: Global,
    w: &mut World,
    context: u64,
    claim: Claim,
) -> Result<(u64, Option<u64>), OutOfMemory>
    requires sound { IsSound w.old }
    requires claim { (base : Tree) × IsTree Context base × IsClaim w.old.pool.nodes base claim }
    requires context { context < length w.old.pool.nodes }
    ensures live { IfOk result (λ found. found.0 < length w.new.pool.nodes) }
    ensures tope { IfOk result (λ found. tree_of w.new.pool.nodes found.0
        ≡ tope_of w.old.pool.nodes claim) }
    ensures says { IfOk result (λ found. IfSome found.1 (λ step. Says w.new step
        (holds (tree_of w.old.pool.nodes context) (tope_of w.old.pool.nodes claim)))) }
    ensures grows { Grows w.old w.new }
{
    let phi = tope(alloc, &mut w.pool, claim)?;
    let step = w.log.find(Judgment::Holds { c: context, phi });
    Ok((phi, step))
}
