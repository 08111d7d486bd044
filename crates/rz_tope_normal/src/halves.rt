//! The normal forms of the parts of points.

ghost use Rattle.std.specs.Prelude.{◌≡◌, ◌<◌, length, IfOk, IfSome, IfNone, OnOk};
ghost use Rattle.rz_rules.specs.Tree.{tree_of};
ghost use Rattle.rz_tope_proof.specs.Proving.{Extends};
ghost use Rattle.rz_tope_normal.specs.Normal.{IsNoPair};
ghost use Rattle.rz_tope_normal.specs.Norm.{IsLeftHalf, IsNorm, IsPairAt, IsRightHalf};

use crate::equations::{carry, chain};
use crate::norms::Norm;
use crate::steps::by_axiom;
use rz_pool::{Pool, two_kids};
use rz_rules::{Kind, OutOfMemory, Row};
use rz_tope_proof::{Claim, Proof};

/// A point that is a part of another one. All but the norm are ids of the pool.
#[derive(Clone, Copy)]
pub(crate) struct Half {
    /// Its cube.
    pub cube: u64,
    /// The point.
    pub point: u64,
    /// The point that it is a part of.
    pub whole: u64,
    /// What is known of that one.
    pub norm: Norm,
    /// The same part of that one's normal form.
    pub middle: u64,
}

/// The two points of a pair; `None` where the point is no pair.
fn pair_at(pool: &Pool, point: u64) -> Option<(u64, u64)>
    requires { point < length pool.now.nodes }
    ensures parts { IfSome result (IsPairAt pool.now.nodes point) }
    ensures none { IfNone result (IsNoPair (tree_of pool.now.nodes point)) }
{
    let node = pool.node(point);
    match node.kind {
        Kind::PointPair => Some(two_kids(&node.kids)),
        _ => None,
    }
}

/// The normal form of a left part.
pub(crate) fn left_norm(
    pool: &Pool,
    context: u64,
    proof: &mut Proof,
    half: Half,
) -> Result<Norm, OutOfMemory>
    requires half { IsLeftHalf pool.now.nodes (tree_of pool.now.nodes context) proof.old half }
    ensures norm { IfOk result (λ norm. IsNorm pool.now.nodes (tree_of pool.now.nodes context)
        proof.new half.point norm (tree_of pool.now.nodes half.cube)) }
    ensures extends { OnOk result (Extends proof.old proof.new) }
{
    let _ = pool.len();
    let Half { cube, point, .. } = half;
    let of = (cube, point, half.middle);
    let moved = carry(pool, context, proof, Row::EqualLeft, of, half.norm.equation)?;
    match pair_at(pool, half.norm.form) {
        Some((form, _)) => {
            let claim = Claim::Equal(cube, half.middle, form);
            let taken = by_axiom(pool, context, proof, Row::EqualFirst, claim)?;
            let of = (cube, point, form);
            let equation = chain(pool, context, proof, of, half.middle, moved, Some(taken))?;
            Ok(Norm { form, equation })
        }
        None => Ok(Norm {
            form: half.middle,
            equation: moved,
        }),
    }
}

/// The normal form of a right part.
pub(crate) fn right_norm(
    pool: &Pool,
    context: u64,
    proof: &mut Proof,
    half: Half,
) -> Result<Norm, OutOfMemory>
    requires half { IsRightHalf pool.now.nodes (tree_of pool.now.nodes context) proof.old half }
    ensures norm { IfOk result (λ norm. IsNorm pool.now.nodes (tree_of pool.now.nodes context)
        proof.new half.point norm (tree_of pool.now.nodes half.cube)) }
    ensures extends { OnOk result (Extends proof.old proof.new) }
{
    let _ = pool.len();
    let Half { cube, point, .. } = half;
    let of = (cube, point, half.middle);
    let moved = carry(
        pool,
        context,
        proof,
        Row::EqualRight,
        of,
        half.norm.equation,
    )?;
    match pair_at(pool, half.norm.form) {
        Some((_, form)) => {
            let claim = Claim::Equal(cube, half.middle, form);
            let taken = by_axiom(pool, context, proof, Row::EqualSecond, claim)?;
            let of = (cube, point, form);
            let equation = chain(pool, context, proof, of, half.middle, moved, Some(taken))?;
            Ok(Norm { form, equation })
        }
        None => Ok(Norm {
            form: half.middle,
            equation: moved,
        }),
    }
}
