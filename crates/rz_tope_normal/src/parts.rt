//! The parts of points.

ghost use Rattle.std.specs.Prelude.{◌≡◌, ℕ, ◌<◌, List, [], length, IfOk, OnOk};
ghost use Rattle.rz_rules.specs.declared.coordinates.Coord.{Coord};
ghost use Rattle.rz_rules.specs.Tree.{Tree, At, And, Nil, tree_of};
ghost use Rattle.rz_pool.specs.Pool.{Grows};
ghost use Rattle.rz_tope_normal.specs.Later.{Later};
ghost use Rattle.rz_tope_normal.specs.Norm.{AreNorms, IsKnown, IsSetting};
ghost use Rattle.rz_tope_normal.specs.Equation.{ArePartsAt, IsHalved, IsProductAt};

use crate::equations::Pair;
use crate::norms::Norms;
use crate::settings::Setting;
use rz_pool::Pool;
use rz_rules::{Kids, Kind, OutOfMemory};
use rz_tope_proof::Proof;
use std::alloc::Global;

/// The parts of a point of a product, ids of the pool.
#[derive(Clone, Copy)]
pub(crate) struct Parts {
    pub left: u64,
    pub right: u64,
    /// The pair of the two.
    pub pair: u64,
}

/// The equations between the parts of two points of a product.
#[derive(Clone, Copy)]
pub(crate) struct Halves {
    /// Between the left parts.
    pub left: Pair,
    /// Between the right parts.
    pub right: Pair,
    /// The pairs of the parts of the first point, and of the second.
    pub pairs: (u64, u64),
}

/// A part of a known point on one side, of which is learned too.
fn learn_part(
    alloc: Global,
    pool: &mut Pool,
    setting: &Setting,
    proof: &mut Proof,
    norms: &mut Norms,
    side: Kind,
    point: u64,
) -> Result<u64, OutOfMemory>
    requires there { point < length pool.old.nodes }
    requires setting { (context : Tree) × (list : List Coord)
        × IsSetting pool.old.nodes context list setting.now }
    requires norms { AreNorms pool.old.nodes (tree_of pool.old.nodes setting.now.context)
        setting.now.entries.items proof.old norms.old }
    requires known { IsKnown norms.old point }
    ensures within { IfOk result (λ id. id < length pool.new.nodes) }
    ensures tree { IfOk result (λ id. tree_of pool.new.nodes id
        ≡ At side 0 [] (And (tree_of pool.old.nodes point) Nil)) }
    ensures known { IfOk result (IsKnown norms.new) }
    ensures kept { OnOk result ((q : ℕ) → IsKnown norms.old q → IsKnown norms.new q) }
    ensures norms { OnOk result (AreNorms pool.new.nodes
        (tree_of pool.old.nodes setting.now.context) setting.now.entries.items
        proof.new norms.new) }
    ensures later { OnOk result (Later pool.old.nodes proof.old pool.new.nodes proof.new) }
    ensures grows { Grows pool.old.nodes pool.new.nodes }
{
    let kids = Kids::from_slice(&[point]);
    let part = pool.make_unnamed(side, 0, kids)?;
    let _ = pool.len();
    norms.learn(alloc, pool, setting, proof, part)?;
    Ok(part)
}

/// The parts of a known point, of which is learned too.
fn learn_parts(
    alloc: Global,
    pool: &mut Pool,
    setting: &Setting,
    proof: &mut Proof,
    norms: &mut Norms,
    point: u64,
) -> Result<Parts, OutOfMemory>
    requires there { point < length pool.old.nodes }
    requires setting { (context : Tree) × (list : List Coord)
        × IsSetting pool.old.nodes context list setting.now }
    requires norms { AreNorms pool.old.nodes (tree_of pool.old.nodes setting.now.context)
        setting.now.entries.items proof.old norms.old }
    requires known { IsKnown norms.old point }
    ensures parts { IfOk result (ArePartsAt pool.new.nodes norms.new point) }
    ensures kept { OnOk result ((q : ℕ) → IsKnown norms.old q → IsKnown norms.new q) }
    ensures norms { OnOk result (AreNorms pool.new.nodes
        (tree_of pool.old.nodes setting.now.context) setting.now.entries.items
        proof.new norms.new) }
    ensures later { OnOk result (Later pool.old.nodes proof.old pool.new.nodes proof.new) }
    ensures grows { Grows pool.old.nodes pool.new.nodes }
{
    let left = learn_part(alloc, pool, setting, proof, norms, Kind::PointLeft, point)?;
    let right = learn_part(alloc, pool, setting, proof, norms, Kind::PointRight, point)?;
    let kids = Kids::from_slice(&[left, right]);
    let pair = pool.make_unnamed(Kind::PointPair, 0, kids)?;
    Ok(Parts { left, right, pair })
}

/// The equations between the parts of two known points of a product of these cubes.
pub(crate) fn halve(
    alloc: Global,
    pool: &mut Pool,
    setting: &Setting,
    proof: &mut Proof,
    norms: &mut Norms,
    of: Pair,
    cubes: (u64, u64),
) -> Result<Halves, OutOfMemory>
    requires setting { (context : Tree) × (list : List Coord)
        × IsSetting pool.old.nodes context list setting.now }
    requires norms { AreNorms pool.old.nodes (tree_of pool.old.nodes setting.now.context)
        setting.now.entries.items proof.old norms.old }
    requires cube { IsProductAt pool.old.nodes of.0 cubes }
    requires first { (of.1 < length pool.old.nodes) × IsKnown norms.old of.1 }
    requires second { (of.2 < length pool.old.nodes) × IsKnown norms.old of.2 }
    ensures halves { IfOk result (IsHalved pool.new.nodes norms.new of) }
    ensures kept { OnOk result ((q : ℕ) → IsKnown norms.old q → IsKnown norms.new q) }
    ensures norms { OnOk result (AreNorms pool.new.nodes
        (tree_of pool.old.nodes setting.now.context) setting.now.entries.items
        proof.new norms.new) }
    ensures later { OnOk result (Later pool.old.nodes proof.old pool.new.nodes proof.new) }
    ensures grows { Grows pool.old.nodes pool.new.nodes }
{
    let first = learn_parts(alloc, pool, setting, proof, norms, of.1)?;
    let second = learn_parts(alloc, pool, setting, proof, norms, of.2)?;
    Ok(Halves {
        left: (cubes.0, first.left, second.left),
        right: (cubes.1, first.right, second.right),
        pairs: (first.pair, second.pair),
    })
}
