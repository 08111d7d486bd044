//! Normal points.
//!
//! A point is normal where no projection in it stands before a pair. Each point equals a normal
//! one, and a normal point of the directed interval is an end or a coordinate of a variable.

ghost use Rattle.std.specs.Prelude.{◌≡◌, ℕ, ◌<◌, ◌∷◌, [], length, map, Some, IsSome, IfOk, OnOk};
ghost use Rattle.rz_rules.specs.declared.coordinates.Coord.{Coord};
ghost use Rattle.rz_rules.specs.Tree.{Tree, tree_of};
ghost use Rattle.rz_rules.specs.Tope.{left, pair, right};
ghost use Rattle.rz_cube.specs.declared.points.CachedPoint.{CachedPoint};
ghost use Rattle.rz_cube.specs.Cached.{Caches, cached_of};
ghost use Rattle.std.specs.Prelude.{List};
ghost use Rattle.rz_tope_proof.specs.declared.proof.Inference.{Inference};

use crate::halves::{Half, left_norm, right_norm};
use crate::pairs::{PairOf, pair_norm};
use crate::settings::Setting;
use rz_cube::Points;
use rz_pool::{Pool, one_kid, two_kids};
use rz_rules::{Kids, Kind, OutOfMemory};
use rz_tope_proof::Proof;
use std::alloc::Global;
use std::collections::HashMap;

/// The normal form of a point.
#[derive(Clone, Copy)]
pub(crate) struct Norm {
    /// The normal point, an id of the pool.
    pub form: u64,
    /// The inference that the point equals it; `None` where it is the point itself.
    pub equation: Option<u64>,
}

/// What is known of points over the cubes of a context.
#[derive(Drop)]
pub(crate) struct Norms {
    /// Cubes and coordinates.
    pub points: Points,
    /// The normal form of each point, by its id.
    pub table: HashMap<u64, Norm>,
}

impl Norms {
    ghost use Rattle.rz_pool.specs.Pool.{Grows};
    ghost use Rattle.rz_tope_normal.specs.Later.{Later};
    ghost use Rattle.rz_tope_normal.specs.Norm.{AreNorms, IsKnown, IsNormWithin, IsSetting, KnowsKids, norm_of};

    /// Nothing is known yet.
    pub(crate) fn new(alloc: Global, pool: &mut Pool) -> Result<Norms, OutOfMemory>
        ensures norms { IfOk result (λ norms. (context : Tree) (entries : List ℕ)
            (all : List Inference) → AreNorms pool.new.nodes context entries all norms) }
        ensures grows { Grows pool.old.nodes pool.new.nodes }
    {
        Ok(Norms {
            points: Points::new(alloc, pool)?,
            table: HashMap::new(alloc),
        })
    }

    /// The normal form of a known point.
    pub(crate) fn norm(&self, point: u64) -> Norm
        requires { IsKnown self.now point }
        ensures { norm_of self.now point ≡ Some result }
    {
        self.table[&point]
    }

    /// The cube of a point that was cached.
    fn cube(&self, point: u64) -> Option<u64>
        requires { IsSome (cached_of self.now.points point) }
        ensures { (cached : CachedPoint) → cached_of self.now.points point ≡ Some cached
            → result ≡ cached.cube }
    {
        self.points.point(point).cube
    }

    /// Learns of a point whose kids are known.
    pub(crate) fn learn(
        &mut self,
        alloc: Global,
        pool: &mut Pool,
        setting: &Setting,
        proof: &mut Proof,
        point: u64,
    ) -> Result<(), OutOfMemory>
        requires there { point < length pool.old.nodes }
        requires setting { (context : Tree) × (list : List Coord)
            × IsSetting pool.old.nodes context list setting.now }
        requires norms { AreNorms pool.old.nodes (tree_of pool.old.nodes setting.now.context)
            setting.now.entries.items proof.old self.old }
        requires kids { KnowsKids pool.old.nodes self.old point }
        ensures known { OnOk result (IsKnown self.new point) }
        ensures kept { OnOk result ((q : ℕ) → IsKnown self.old q → IsKnown self.new q) }
        ensures norms { OnOk result (AreNorms pool.new.nodes
            (tree_of pool.old.nodes setting.now.context) setting.now.entries.items
            proof.new self.new) }
        ensures later { OnOk result (Later pool.old.nodes proof.old pool.new.nodes proof.new) }
        ensures grows { Grows pool.old.nodes pool.new.nodes }
    {
        if self.table.contains_key(&point) {
            return Ok(());
        }
        self.points.cache(alloc, pool, &setting.entries, point)?;
        let norm = self.norm_by_kids(alloc, pool, setting, proof, point)?;
        self.table.insert(point, norm)?;
        Ok(())
    }

    /// The normal form of a point, where those of its kids are known.
    fn norm_by_kids(
        &self,
        alloc: Global,
        pool: &mut Pool,
        setting: &Setting,
        proof: &mut Proof,
        point: u64,
    ) -> Result<Norm, OutOfMemory>
        requires there { point < length pool.old.nodes }
        requires setting { (context : Tree) × (list : List Coord)
            × IsSetting pool.old.nodes context list setting.now }
        requires norms { AreNorms pool.old.nodes (tree_of pool.old.nodes setting.now.context)
            setting.now.entries.items proof.old self.now }
        requires cached { Caches pool.old.nodes setting.now.entries.items self.now.points point }
        requires kids { KnowsKids pool.old.nodes self.now point }
        ensures norm { IfOk result (IsNormWithin pool.new.nodes
            (tree_of pool.old.nodes setting.now.context) proof.new point) }
        ensures later { OnOk result (Later pool.old.nodes proof.old pool.new.nodes proof.new) }
        ensures grows { Grows pool.old.nodes pool.new.nodes }
    {
        let node = pool.node(point);
        match node.kind {
            Kind::PointPair => {
                let (first, second) = two_kids(&node.kids);
                let norm = self.pair(alloc, pool, setting, proof, point, (first, second))?;
                Ok(norm)
            }
            Kind::PointLeft => {
                let whole = one_kid(&node.kids);
                let norm = self.left(alloc, pool, setting, proof, point, whole)?;
                Ok(norm)
            }
            Kind::PointRight => {
                let whole = one_kid(&node.kids);
                let norm = self.right(alloc, pool, setting, proof, point, whole)?;
                Ok(norm)
            }
            _ => Ok(Norm {
                form: point,
                equation: None,
            }),
        }
    }

    /// The normal form of a left part.
    fn left(
        &self,
        alloc: Global,
        pool: &mut Pool,
        setting: &Setting,
        proof: &mut Proof,
        point: u64,
        whole: u64,
    ) -> Result<Norm, OutOfMemory>
        requires there { point < length pool.old.nodes }
        requires setting { (context : Tree) × (list : List Coord)
            × IsSetting pool.old.nodes context list setting.now }
        requires norms { AreNorms pool.old.nodes (tree_of pool.old.nodes setting.now.context)
            setting.now.entries.items proof.old self.now }
        requires cached { Caches pool.old.nodes setting.now.entries.items self.now.points point }
        requires point { tree_of pool.old.nodes point ≡ left (tree_of pool.old.nodes whole) }
        requires whole { IsKnown self.now whole }
        ensures norm { IfOk result (IsNormWithin pool.new.nodes
            (tree_of pool.old.nodes setting.now.context) proof.new point) }
        ensures later { OnOk result (Later pool.old.nodes proof.old pool.new.nodes proof.new) }
        ensures grows { Grows pool.old.nodes pool.new.nodes }
    {
        let norm = self.norm(whole);
        let kids = Kids::from_slice(&[norm.form]);
        let middle = pool.make_unnamed(Kind::PointLeft, 0, kids)?;
        match self.cube(point) {
            None => Ok(Norm {
                form: middle,
                equation: None,
            }),
            Some(cube) => {
                let half = Half {
                    cube,
                    point,
                    whole,
                    norm,
                    middle,
                };
                let norm = left_norm(pool, setting.context, proof, half)?;
                Ok(norm)
            }
        }
    }

    /// The normal form of a right part.
    fn right(
        &self,
        alloc: Global,
        pool: &mut Pool,
        setting: &Setting,
        proof: &mut Proof,
        point: u64,
        whole: u64,
    ) -> Result<Norm, OutOfMemory>
        requires there { point < length pool.old.nodes }
        requires setting { (context : Tree) × (list : List Coord)
            × IsSetting pool.old.nodes context list setting.now }
        requires norms { AreNorms pool.old.nodes (tree_of pool.old.nodes setting.now.context)
            setting.now.entries.items proof.old self.now }
        requires cached { Caches pool.old.nodes setting.now.entries.items self.now.points point }
        requires point { tree_of pool.old.nodes point ≡ right (tree_of pool.old.nodes whole) }
        requires whole { IsKnown self.now whole }
        ensures norm { IfOk result (IsNormWithin pool.new.nodes
            (tree_of pool.old.nodes setting.now.context) proof.new point) }
        ensures later { OnOk result (Later pool.old.nodes proof.old pool.new.nodes proof.new) }
        ensures grows { Grows pool.old.nodes pool.new.nodes }
    {
        let norm = self.norm(whole);
        let kids = Kids::from_slice(&[norm.form]);
        let middle = pool.make_unnamed(Kind::PointRight, 0, kids)?;
        match self.cube(point) {
            None => Ok(Norm {
                form: middle,
                equation: None,
            }),
            Some(cube) => {
                let half = Half {
                    cube,
                    point,
                    whole,
                    norm,
                    middle,
                };
                let norm = right_norm(pool, setting.context, proof, half)?;
                Ok(norm)
            }
        }
    }

    /// The normal form of a pair.
    fn pair(
        &self,
        alloc: Global,
        pool: &mut Pool,
        setting: &Setting,
        proof: &mut Proof,
        point: u64,
        points: (u64, u64),
    ) -> Result<Norm, OutOfMemory>
        requires there { point < length pool.old.nodes }
        requires setting { (context : Tree) × (list : List Coord)
            × IsSetting pool.old.nodes context list setting.now }
        requires norms { AreNorms pool.old.nodes (tree_of pool.old.nodes setting.now.context)
            setting.now.entries.items proof.old self.now }
        requires cached { Caches pool.old.nodes setting.now.entries.items self.now.points point }
        requires point { tree_of pool.old.nodes point
            ≡ pair (tree_of pool.old.nodes points.0) (tree_of pool.old.nodes points.1) }
        requires first { IsKnown self.now points.0 }
        requires second { IsKnown self.now points.1 }
        ensures norm { IfOk result (IsNormWithin pool.new.nodes
            (tree_of pool.old.nodes setting.now.context) proof.new point) }
        ensures later { OnOk result (Later pool.old.nodes proof.old pool.new.nodes proof.new) }
        ensures grows { Grows pool.old.nodes pool.new.nodes }
    {
        let norms = (self.norm(points.0), self.norm(points.1));
        let kids = Kids::from_slice(&[norms.0.form, norms.1.form]);
        let form = pool.make_unnamed(Kind::PointPair, 0, kids)?;
        let bare = Norm {
            form,
            equation: None,
        };
        let Some(cube) = self.cube(point) else {
            return Ok(bare);
        };
        let Some(left) = self.cube(points.0) else {
            return Ok(bare);
        };
        let Some(right) = self.cube(points.1) else {
            return Ok(bare);
        };
        let pair = PairOf {
            cube,
            point,
            cubes: (left, right),
            points,
            norms,
            form,
        };
        let norm = pair_norm(pool, setting.context, proof, pair)?;
        Ok(norm)
    }
}
