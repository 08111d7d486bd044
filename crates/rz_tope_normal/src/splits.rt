//! Equations between points of a product, split into those between their parts.

ghost use Rattle.std.specs.Prelude.{◌≡◌, ℕ, ◌<◌, ◌≤◌, ◌+◌, List, length, Some, IfOk, OnOk, slice_get};
ghost use Rattle.rz_rules.specs.declared.coordinates.Coord.{Coord};
ghost use Rattle.rz_rules.specs.declared.kinds.Sort.TheVariants.{Cube};
ghost use Rattle.rz_rules.specs.Tree.{Tree, sort_of, tree_of};
ghost use Rattle.rz_pool.specs.Pool.{Grows};
ghost use Rattle.rz_tope_normal.specs.Later.{Later};
ghost use Rattle.rz_tope_normal.specs.Norm.{AreNorms, IsKnown, IsSetting};
ghost use Rattle.rz_tope_normal.specs.Equation.{AreSplits, IsEquation, IsShaped};

use crate::equations::Pair;
use crate::norms::Norms;
use crate::parts::halve;
use crate::settings::Setting;
use rz_pool::{Pool, two_kids};
use rz_rules::{Kind, OutOfMemory};
use rz_tope_proof::Proof;
use std::alloc::Global;

/// How an equation between points of a cube is read.
#[derive(Clone, Copy)]
pub(crate) enum Shape {
    /// The two are one.
    Same,
    /// The cube has one point.
    OnePoint,
    /// The cube is the directed interval.
    Interval,
    /// The cube is the product of two, ids of the pool.
    Product((u64, u64)),
}

/// How an equation is read, where those between the parts of its points stand in a list.
#[derive(Clone, Copy)]
pub(crate) enum Split {
    /// The two points are one.
    Same,
    /// The cube has one point.
    OnePoint,
    /// The cube is the directed interval.
    Interval,
    /// The equation of the left parts stands at this place, that of the right parts behind it. The
    /// others are the pairs of the parts of the first point, and of the second.
    Halved(usize, (u64, u64)),
}

/// The shape of an equation.
fn shape_of(pool: &Pool, of: Pair) -> Shape
    requires live { of.0 < length pool.now.nodes }
    requires cube { sort_of (tree_of pool.now.nodes of.0) ≡ Cube }
    ensures { IsShaped pool.now.nodes of result }
{
    if of.1 == of.2 {
        return Shape::Same;
    }
    let node = pool.node(of.0);
    match node.kind {
        Kind::CubeOne => Shape::OnePoint,
        Kind::CubeTwo => Shape::Interval,
        Kind::Product => Shape::Product(two_kids(&node.kids)),
        _ => unreachable!(),
    }
}

/// Equations, and how the first of them are read.
#[derive(Drop)]
pub(crate) struct Splits {
    /// All equations; those between parts stand behind those of their points.
    pub all: Vec<Pair>,
    /// How each is read, as far as is known.
    pub done: Vec<Split>,
}

impl Splits {
    ghost use Rattle.rz_tope_normal.specs.Equation.{AreSplits};

    /// Splits the next equation.
    fn split_next(
        &mut self,
        alloc: Global,
        pool: &mut Pool,
        setting: &Setting,
        proof: &mut Proof,
        norms: &mut Norms,
    ) -> Result<(), OutOfMemory>
        requires next { length self.old.done.items < length self.old.all.items }
        requires setting { (context : Tree) × (list : List Coord)
            × IsSetting pool.old.nodes context list setting.now }
        requires norms { AreNorms pool.old.nodes (tree_of pool.old.nodes setting.now.context)
            setting.now.entries.items proof.old norms.old }
        requires splits { (list : List Coord) × AreSplits pool.old.nodes
            (tree_of pool.old.nodes setting.now.context) list norms.old self.old }
        ensures splits { OnOk result ((list : List Coord) → AreSplits pool.old.nodes
            (tree_of pool.old.nodes setting.now.context) list norms.old self.old
            → AreSplits pool.new.nodes (tree_of pool.old.nodes setting.now.context) list
            norms.new self.new) }
        ensures one { OnOk result (length self.new.done.items
            ≡ length self.old.done.items + 1) }
        ensures count { OnOk result (length self.new.done.items ≤ length self.new.all.items) }
        ensures first { OnOk result ((of : ℕ × ℕ × ℕ) → slice_get self.old.all.items 0 ≡ Some of
            → slice_get self.new.all.items 0 ≡ Some of) }
        ensures kept { OnOk result ((q : ℕ) → IsKnown norms.old q → IsKnown norms.new q) }
        ensures norms { OnOk result (AreNorms pool.new.nodes
            (tree_of pool.old.nodes setting.now.context) setting.now.entries.items
            proof.new norms.new) }
        ensures later { OnOk result (Later pool.old.nodes proof.old pool.new.nodes proof.new) }
        ensures grows { Grows pool.old.nodes pool.new.nodes }
    {
        let of = self.all[self.done.len()];
        match shape_of(pool, of) {
            Shape::Same => self.done.push(Split::Same)?,
            Shape::OnePoint => self.done.push(Split::OnePoint)?,
            Shape::Interval => self.done.push(Split::Interval)?,
            Shape::Product(cubes) => {
                let halves = halve(alloc, pool, setting, proof, norms, of, cubes)?;
                let at = self.all.len();
                self.all.push(halves.left)?;
                self.all.push(halves.right)?;
                self.done.push(Split::Halved(at, halves.pairs))?;
            }
        }
        Ok(())
    }
}

/// Splits an equation until each is one of the directed interval or holds.
pub(crate) fn split_all(
    alloc: Global,
    pool: &mut Pool,
    setting: &Setting,
    proof: &mut Proof,
    norms: &mut Norms,
    of: Pair,
) -> Result<Splits, OutOfMemory>
    requires setting { (context : Tree) × (list : List Coord)
        × IsSetting pool.old.nodes context list setting.now }
    requires norms { AreNorms pool.old.nodes (tree_of pool.old.nodes setting.now.context)
        setting.now.entries.items proof.old norms.old }
    requires equation { (list : List Coord) × IsEquation pool.old.nodes
        (tree_of pool.old.nodes setting.now.context) list norms.old of }
    ensures splits { IfOk result (λ splits. (list : List Coord) → IsEquation pool.old.nodes
        (tree_of pool.old.nodes setting.now.context) list norms.old of
        → AreSplits pool.new.nodes (tree_of pool.old.nodes setting.now.context) list
        norms.new splits) }
    ensures done { IfOk result (λ splits. length splits.done.items ≡ length splits.all.items) }
    ensures first { IfOk result (λ splits. slice_get splits.all.items 0 ≡ Some of) }
    ensures kept { OnOk result ((q : ℕ) → IsKnown norms.old q → IsKnown norms.new q) }
    ensures norms { OnOk result (AreNorms pool.new.nodes
        (tree_of pool.old.nodes setting.now.context) setting.now.entries.items
        proof.new norms.new) }
    ensures later { OnOk result (Later pool.old.nodes proof.old pool.new.nodes proof.new) }
    ensures grows { Grows pool.old.nodes pool.new.nodes }
{
    let mut all = Vec::new(alloc);
    all.push(of)?;
    let mut splits = Splits {
        all,
        done: Vec::new(alloc),
    };
    for _ in 0..u64::MAX {
        if splits.done.len() == splits.all.len() {
            return Ok(splits);
        }
        splits.split_next(alloc, pool, setting, proof, norms)?;
    }
    Err(OutOfMemory)
}
