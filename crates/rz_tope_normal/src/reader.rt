//! Reading topes into parts.

ghost use Rattle.std.specs.Prelude.{◌≡◌, ◌≢◌, ◌<◌, ◌≤◌, ℕ, ◌∷◌, [], nat_eq, List, length, Some, IfOk, OnOk, IsSome};
ghost use Rattle.std.specs.HashMap.{get};
ghost use Rattle.rz_rules.specs.declared.coordinates.Coord.{Coord};
ghost use Rattle.rz_rules.specs.declared.kinds.Sort.TheVariants as sort;
ghost use Rattle.rz_rules.specs.Tree.{Tree, kind_at, sort_of, tree_of};
ghost use Rattle.rz_rules.specs.declared.kinds.Kind.TheVariants.{EqualPoints};
ghost use Rattle.rz_tope_proof.specs.Part.{IsMadeOf};
ghost use Rattle.rz_tope_proof.specs.Reading.{HasForm};
ghost use Rattle.rz_tope_normal.specs.declared.settings.Setting.{Setting};
ghost use Rattle.rz_rules.specs.Cube.{binders_of};
ghost use Rattle.rz_tope_proof.specs.declared.proof.Inference.{Inference};
ghost use Rattle.rz_pool.specs.Pool.{Grows};
ghost use Rattle.rz_tope_normal.specs.Equation.{IsEquation};
ghost use Rattle.rz_tope_normal.specs.Later.{Later};
ghost use Rattle.rz_tope_normal.specs.Norm.{IsSetting, equation_of};
ghost use Rattle.rz_tope_normal.specs.Read.{HasSides, IsFine, SaysTope};

use crate::equations::Pair;
use crate::join::join;
use crate::norms::Norms;
use crate::settings::Setting;
use crate::sides::side;
use crate::splits::split_all;
use rz_pool::{Pool, three_kids, two_kids};
use rz_rules::{Coord, Kind, OutOfMemory, Sort};
use rz_tope_proof::{Claim, Form, Part, Proof};
use std::alloc::Global;
use std::collections::HashMap;

/// The sort of the tree of an id.
fn sort_at(pool: &Pool, id: u64) -> Sort
    requires { id < length pool.now.nodes }
    ensures { result ≡ sort_of (tree_of pool.now.nodes id) }
{
    pool.node(id).kind.form().sort
}

/// What was read.
#[derive(Drop)]
pub(crate) struct Reader {
    /// What is known of points.
    pub norms: Norms,
    /// The parts of the topes.
    pub parts: Vec<Part>,
    /// The number of the part of each tope, by its id.
    pub topes: HashMap<u64, usize>,
}

impl Reader {
    ghost use Rattle.rz_tope_normal.specs.Reader.{AreDone, IsDone, IsFineAs, IsReader, KeepsRead};

    /// Nothing is read yet.
    pub(crate) fn new(alloc: Global, pool: &mut Pool) -> Result<Reader, OutOfMemory>
        ensures reader { IfOk result (λ reader. (context : Tree) (list : List Coord)
            (setting : Setting) (all : List Inference)
            → IsReader pool.new.nodes context list setting all reader) }
        ensures grows { Grows pool.old.nodes pool.new.nodes }
    {
        let norms = Norms::new(alloc, pool)?;
        Ok(Reader {
            norms,
            parts: Vec::new(alloc),
            topes: HashMap::new(alloc),
        })
    }

    /// Reads a tope, and answers the number of its part.
    pub(crate) fn read(
        &mut self,
        alloc: Global,
        pool: &mut Pool,
        setting: &Setting,
        list: &[Coord],
        proof: &mut Proof,
        tope: u64,
    ) -> Result<usize, OutOfMemory>
        requires few { length list.now ≤ 8 }
        requires setting { IsSetting pool.old.nodes
            (tree_of pool.old.nodes setting.now.context) list.now setting.now }
        requires reader { IsReader pool.old.nodes (tree_of pool.old.nodes setting.now.context)
            list.now setting.now proof.old self.old }
        requires tope { tope < length pool.old.nodes }
        requires sort { sort_of (tree_of pool.old.nodes tope) ≡ sort.Tope }
        requires fine { IsFine (binders_of (tree_of pool.old.nodes setting.now.context)) list.now
            (tree_of pool.old.nodes tope) }
        ensures says { IfOk result (λ number. SaysTope pool.new.nodes self.new.parts.items number
            (tree_of pool.old.nodes tope)) }
        ensures reader { OnOk result (IsReader pool.new.nodes
            (tree_of pool.old.nodes setting.now.context) list.now setting.now
            proof.new self.new) }
        ensures kept { OnOk result (KeepsRead pool.old.nodes self.old pool.new.nodes self.new) }
        ensures later { OnOk result (Later pool.old.nodes proof.old pool.new.nodes proof.new) }
        ensures grows { Grows pool.old.nodes pool.new.nodes }
    {
        let _ = pool.len();
        let mut ids = pool.parts(tope)?;
        while let Some(id) = ids.pop() {
            self.read_next(alloc, pool, setting, list, proof, id)?;
        }
        Ok(self.topes[&tope])
    }

    /// Reads a point or a tope whose kids are read.
    fn read_next(
        &mut self,
        alloc: Global,
        pool: &mut Pool,
        setting: &Setting,
        list: &[Coord],
        proof: &mut Proof,
        id: u64,
    ) -> Result<(), OutOfMemory>
        requires few { length list.now ≤ 8 }
        requires setting { IsSetting pool.old.nodes
            (tree_of pool.old.nodes setting.now.context) list.now setting.now }
        requires reader { IsReader pool.old.nodes (tree_of pool.old.nodes setting.now.context)
            list.now setting.now proof.old self.old }
        requires id { id < length pool.old.nodes }
        requires kids { AreDone pool.old.nodes self.old id }
        requires fine { IsFineAs (binders_of (tree_of pool.old.nodes setting.now.context))
            list.now (sort_of (tree_of pool.old.nodes id)) (tree_of pool.old.nodes id) }
        ensures done { OnOk result (IsDone pool.new.nodes self.new id) }
        ensures reader { OnOk result (IsReader pool.new.nodes
            (tree_of pool.old.nodes setting.now.context) list.now setting.now
            proof.new self.new) }
        ensures kept { OnOk result (KeepsRead pool.old.nodes self.old pool.new.nodes self.new) }
        ensures later { OnOk result (Later pool.old.nodes proof.old pool.new.nodes proof.new) }
        ensures grows { Grows pool.old.nodes pool.new.nodes }
    {
        let _ = pool.len();
        match sort_at(pool, id) {
            Sort::Point => {
                self.norms.learn(alloc, pool, setting, proof, id)?;
                Ok(())
            }
            Sort::Tope => {
                if self.topes.contains_key(&id) {
                    return Ok(());
                }
                let number = self.part(alloc, pool, setting, list, proof, id)?;
                self.topes.insert(id, number)?;
                Ok(())
            }
            Sort::Cube | Sort::Term | Sort::Context => Ok(()),
        }
    }

    /// The number of the part of a tope whose kids are read.
    fn part(
        &mut self,
        alloc: Global,
        pool: &mut Pool,
        setting: &Setting,
        list: &[Coord],
        proof: &mut Proof,
        id: u64,
    ) -> Result<usize, OutOfMemory>
        requires few { length list.now ≤ 8 }
        requires setting { IsSetting pool.old.nodes
            (tree_of pool.old.nodes setting.now.context) list.now setting.now }
        requires reader { IsReader pool.old.nodes (tree_of pool.old.nodes setting.now.context)
            list.now setting.now proof.old self.old }
        requires id { id < length pool.old.nodes }
        requires kids { AreDone pool.old.nodes self.old id }
        requires fine { IsFine (binders_of (tree_of pool.old.nodes setting.now.context)) list.now
            (tree_of pool.old.nodes id) }
        ensures says { IfOk result (λ number. SaysTope pool.new.nodes self.new.parts.items number
            (tree_of pool.old.nodes id)) }
        ensures reader { OnOk result (IsReader pool.new.nodes
            (tree_of pool.old.nodes setting.now.context) list.now setting.now
            proof.new self.new) }
        ensures kept { OnOk result (KeepsRead pool.old.nodes self.old pool.new.nodes self.new) }
        ensures later { OnOk result (Later pool.old.nodes proof.old pool.new.nodes proof.new) }
        ensures grows { Grows pool.old.nodes pool.new.nodes }
    {
        let node = pool.node(id);
        match node.kind {
            Kind::EqualPoints => {
                let of = three_kids(&node.kids);
                let number = self.equality(alloc, pool, setting, list, proof, of)?;
                Ok(number)
            }
            _ => {
                let form = self.form(pool, setting, list, proof, id);
                let claim = Claim::Tope(id);
                let number = self.parts.len();
                self.parts.push(Part { claim, form })?;
                Ok(number)
            }
        }
    }

    /// The form of a tope, but of an equation, whose kids are read.
    fn form(&self, pool: &Pool, setting: &Setting, list: &[Coord], proof: &Proof, id: u64) -> Form
        requires few { length list.now ≤ 8 }
        requires setting { IsSetting pool.now.nodes
            (tree_of pool.now.nodes setting.now.context) list.now setting.now }
        requires reader { IsReader pool.now.nodes (tree_of pool.now.nodes setting.now.context)
            list.now setting.now proof.now self.now }
        requires id { id < length pool.now.nodes }
        requires kids { AreDone pool.now.nodes self.now id }
        requires fine { IsFine (binders_of (tree_of pool.now.nodes setting.now.context)) list.now
            (tree_of pool.now.nodes id) }
        requires other { kind_at (tree_of pool.now.nodes id) ≢ EqualPoints }
        ensures made { IsMadeOf (length self.now.parts.items) setting.now.places.count result }
        ensures form { HasForm pool.now.nodes (tree_of pool.now.nodes setting.now.context)
            setting.now.places proof.now self.now.parts.items result (tree_of pool.now.nodes id) }
        ensures sides { HasSides pool.now.nodes
            (binders_of (tree_of pool.now.nodes setting.now.context)) list.now result }
    {
        let node = pool.node(id);
        match node.kind {
            Kind::Top => Form::Top,
            Kind::Bottom => Form::Bottom,
            Kind::Conjunction => {
                let (first, second) = two_kids(&node.kids);
                let left = self.topes[&first];
                let right = self.topes[&second];
                Form::And(left, right)
            }
            Kind::Disjunction => {
                let (first, second) = two_kids(&node.kids);
                let left = self.topes[&first];
                let right = self.topes[&second];
                Form::Or(left, right)
            }
            Kind::AtMost => {
                let (first, second) = two_kids(&node.kids);
                let left = side(pool, setting, list, proof, &self.norms, first);
                let right = side(pool, setting, list, proof, &self.norms, second);
                Form::AtMost(left, right)
            }
            _ => unreachable!(),
        }
    }

    /// The number of the part of an equation between known points.
    fn equality(
        &mut self,
        alloc: Global,
        pool: &mut Pool,
        setting: &Setting,
        list: &[Coord],
        proof: &mut Proof,
        of: Pair,
    ) -> Result<usize, OutOfMemory>
        requires few { length list.now ≤ 8 }
        requires setting { IsSetting pool.old.nodes
            (tree_of pool.old.nodes setting.now.context) list.now setting.now }
        requires reader { IsReader pool.old.nodes (tree_of pool.old.nodes setting.now.context)
            list.now setting.now proof.old self.old }
        requires equation { IsEquation pool.old.nodes
            (tree_of pool.old.nodes setting.now.context) list.now self.old.norms of }
        ensures says { IfOk result (λ number. SaysTope pool.new.nodes self.new.parts.items number
            (equation_of pool.old.nodes of)) }
        ensures reader { OnOk result (IsReader pool.new.nodes
            (tree_of pool.old.nodes setting.now.context) list.now setting.now
            proof.new self.new) }
        ensures kept { OnOk result (KeepsRead pool.old.nodes self.old pool.new.nodes self.new) }
        ensures later { OnOk result (Later pool.old.nodes proof.old pool.new.nodes proof.new) }
        ensures grows { Grows pool.old.nodes pool.new.nodes }
    {
        let splits = split_all(alloc, pool, setting, proof, &mut self.norms, of)?;
        let number = join(
            pool,
            setting,
            list,
            proof,
            &self.norms,
            &mut self.parts,
            splits,
        )?;
        Ok(number)
    }
}
