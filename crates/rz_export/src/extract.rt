//! The part of a derivation that claims rest on.

ghost use Rattle.std.specs.Prelude.{◌<◌, length, All, IfOk};
ghost use Rattle.rz_rules.specs.File.{IsFile};
ghost use Rattle.rz_rules.specs.Name.{IsName};
ghost use Rattle.rz_drv.specs.Part.{spelling};
ghost use Rattle.rz_pool.specs.Pool.{ShareTrees};
ghost use Rattle.rz_log.specs.World.{IsSound};
ghost use Rattle.rz_export.specs.Claims.{claims_in, steps_claimed};
ghost use Rattle.rz_export.specs.Extract.{IsPartOf};
ghost use Rattle.rz_export.specs.Needs.{HasNoVainLine, HasNoVainNode, HasTheSupport};

use crate::claims::{Claimed, supporting_steps};
use crate::moves::{moved_claims, moved_lines, moved_nodes};
use crate::needs::needed_ids;
use rz_drv::Part;
use rz_log::World;
use rz_rules::OutOfMemory;
use std::alloc::Global;

/// The derivation of what these steps say, under these names, with the lines on which the steps rest, and with the nodes that
/// those lines name and their parts. Lines and nodes keep their order, and are numbered anew. No world and claims have another
/// such part (`laws::one_part`).
///
/// It visits those lines and nodes alone, whatever the sizes of the log and of the pool.
pub fn export(alloc: Global, w: &World, claims: &[Claimed]) -> Result<Part, OutOfMemory>
    requires sound { IsSound w.now }
    requires names { All (λ claim. IsName claim.name) claims.now }
    requires steps { All (λ claim. claim.step < length w.now.log) claims.now }
    ensures file { IfOk result (λ part. IsFile (spelling part) (claims_in w.now claims.now)) }
    ensures part { IfOk result (IsPartOf w.now claims.now) }
    ensures lines { IfOk result HasNoVainLine }
    ensures nodes { IfOk result HasNoVainNode }
    ensures support { IfOk result (HasTheSupport w.now (steps_claimed claims.now)) }
    // No two nodes stand for one tree.
    ensures shared { IfOk result (λ part. ShareTrees part.nodes) }
{
    let support = supporting_steps(alloc, &w.log, claims)?;
    let steps = support.as_slice();
    let needed = needed_ids(alloc, w, steps)?;
    let ids = needed.as_slice();
    let nodes = moved_nodes(alloc, &w.pool, ids)?;
    let lines = moved_lines(alloc, &w.log, ids, steps)?;
    let claims = moved_claims(alloc, claims, steps)?;
    Ok(Part {
        nodes,
        lines,
        claims,
    })
}
