//! The normal forms of pairs of points.

ghost use Rattle.std.specs.Prelude.{◌≡◌, IfOk, OnOk};
ghost use Rattle.rz_rules.specs.Tree.{tree_of};
ghost use Rattle.rz_tope_proof.specs.Proving.{Extends};
ghost use Rattle.rz_tope_normal.specs.Norm.{IsNorm, IsPairOf};

use crate::equations::close;
use crate::norms::Norm;
use crate::steps::by_two;
use rz_pool::Pool;
use rz_rules::{OutOfMemory, Row};
use rz_tope_proof::{Claim, Proof};

/// A point that is the pair of two others. All but the norms are ids of the pool.
#[derive(Clone, Copy)]
pub(crate) struct PairOf {
    /// Its cube.
    pub cube: u64,
    /// The point.
    pub point: u64,
    /// The cubes of the two.
    pub cubes: (u64, u64),
    /// The two.
    pub points: (u64, u64),
    /// What is known of them.
    pub norms: (Norm, Norm),
    /// The pair of their normal forms.
    pub form: u64,
}

/// The normal form of a pair.
pub(crate) fn pair_norm(
    pool: &Pool,
    context: u64,
    proof: &mut Proof,
    pair: PairOf,
) -> Result<Norm, OutOfMemory>
    requires pair { IsPairOf pool.now.nodes (tree_of pool.now.nodes context) proof.old pair }
    ensures norm { IfOk result (λ norm. IsNorm pool.now.nodes (tree_of pool.now.nodes context)
        proof.new pair.point norm (tree_of pool.now.nodes pair.cube)) }
    ensures extends { OnOk result (Extends proof.old proof.new) }
{
    let PairOf {
        cube,
        point,
        form,
        ..
    } = pair;
    if form == point {
        return Ok(Norm {
            form,
            equation: None,
        });
    }
    let (one, other) = pair.norms;
    let of = (pair.cubes.0, pair.points.0, one.form);
    let first = close(pool, context, proof, of, one.equation)?;
    let of = (pair.cubes.1, pair.points.1, other.form);
    let second = close(pool, context, proof, of, other.equation)?;
    let claim = Claim::Equal(cube, point, form);
    let step = by_two(pool, context, proof, Row::EqualPair, first, second, claim)?;
    Ok(Norm {
        form,
        equation: Some(step),
    })
}
