//! The topes of claims as nodes.

ghost use Rattle.std.specs.Prelude.{◌≡◌, ◌<◌, [], length, IfOk};
ghost use Rattle.rz_rules.specs.declared.kinds.Sort.TheVariants.{Context};
ghost use Rattle.rz_rules.specs.Tree.{HasForm, IsTree, Tree, tree_of, tree_over, trees_in};
ghost use Rattle.rz_pool.specs.Pool.{Grows, IsPool};
ghost use Rattle.rz_tope_proof.specs.Claim.{IsClaim, tope_of};

use rz_pool::Pool;
use rz_rules::{Kids, Kind, Name, Node, OutOfMemory};
use rz_tope_proof::Claim;
use std::alloc::Global;

/// The id of a node without number and name.
pub(crate) fn make(
    alloc: Global,
    pool: &mut Pool,
    kind: Kind,
    kids: &[u64],
) -> Result<u64, OutOfMemory>
    requires { HasForm (trees_in pool.old.nodes) (length pool.old.nodes)
        (record { kind = kind; number = 0; name = []; kids = kids.now }) }
    ensures live { IfOk result (λ id. id < length pool.new.nodes) }
    ensures tree { IfOk result (λ id. tree_of pool.new.nodes id
        ≡ tree_over (trees_in pool.old.nodes)
        (record { kind = kind; number = 0; name = []; kids = kids.now })) }
    ensures grows { Grows pool.old.nodes pool.new.nodes }
    ensures pool { IsPool pool.new.nodes }
{
    let node = Node {
        kind,
        number: 0,
        name: Name::new(alloc),
        kids: Kids::from_slice(kids),
    };
    let id = pool.make(node)?;
    Ok(id)
}

/// The id of the tope that a claim says.
pub(crate) fn tope(alloc: Global, pool: &mut Pool, claim: Claim) -> Result<u64, OutOfMemory>
    requires { (context : Tree) × IsTree Context context × IsClaim pool.old.nodes context claim }
    ensures live { IfOk result (λ id. id < length pool.new.nodes) }
    ensures tree { IfOk result (λ id. tree_of pool.new.nodes id ≡ tope_of pool.old.nodes claim) }
    ensures grows { Grows pool.old.nodes pool.new.nodes }
    ensures pool { IsPool pool.new.nodes }
{
    let _ = pool.len();
    match claim {
        Claim::Tope(id) => Ok(id),
        Claim::Bottom => make(alloc, pool, Kind::Bottom, &[]),
        Claim::AtMost(first, second) => make(alloc, pool, Kind::AtMost, &[first, second]),
        Claim::Either(first, second) => {
            let up = make(alloc, pool, Kind::AtMost, &[first, second])?;
            let down = make(alloc, pool, Kind::AtMost, &[second, first])?;
            let either = make(alloc, pool, Kind::Disjunction, &[up, down])?;
            Ok(either)
        }
        Claim::Equal(cube, first, second) => {
            make(alloc, pool, Kind::EqualPoints, &[cube, first, second])
        }
    }
}
