//! Sequents as parts.

ghost use Rattle.std.specs.Prelude.{◌≡◌, ◌<◌, ◌≤◌, length, All, IfOk, OnOk};
ghost use Rattle.rz_rules.specs.Tree.{tree_of};
ghost use Rattle.rz_rules.specs.Cube.{binders_of};
ghost use Rattle.rz_rules.specs.Validity.{occurring};
ghost use Rattle.rz_metatheory.specs.SmallOrders.{HasTopesOver, IsSequent};
ghost use Rattle.rz_pool.specs.Pool.{Grows};
ghost use Rattle.rz_tope_normal.specs.Later.{Later};
ghost use Rattle.rz_tope_normal.specs.Norm.{IsSetting};
ghost use Rattle.rz_tope_normal.specs.Placed.{AreCoordinates};
ghost use Rattle.rz_tope_normal.specs.Reader.{IsReader, KeepsRead};
ghost use Rattle.rz_tope_normal.specs.Sequent.{AreAssumed, AreReadableEntries, HasValues, IsAssumed, IsReadableEntry, IsSequentRead, IsStart};

use crate::hypotheses::{Hypothesis, hypotheses};
use crate::places::places;
use crate::reader::Reader;
use crate::settings::Setting;
use crate::steps::hypothesis;
use rz_cube::cubes_of;
use rz_pool::Pool;
use rz_rules::{Coord, OutOfMemory};
use rz_tope_proof::{Claim, Part, Places, Proof};
use std::alloc::Global;

/// A sequent: the parts of a context's topes and of a tope over it.
#[derive(Drop)]
pub struct Sequent {
    /// The places of the ends and of the coordinates that occur.
    pub places: Places,
    /// The parts, each made of earlier ones.
    pub parts: Vec<Part>,
    /// The number of the part of each tope of the context, and the inference that it holds.
    pub given: Vec<(usize, u64)>,
    /// The number of the part of the tope.
    pub goal: usize,
}

/// What is known of a context before its topes are read.
#[derive(Drop)]
pub(crate) struct Start {
    /// The topes that it gives.
    pub given: Vec<Hypothesis>,
    /// The context and its places.
    pub setting: Setting,
    /// What was read, nothing yet.
    pub reader: Reader,
}

/// What is known of a context before its topes are read.
fn prepare(
    alloc: Global,
    pool: &mut Pool,
    context: u64,
    list: &[Coord],
) -> Result<Start, OutOfMemory>
    requires context { context < length pool.old.nodes }
    requires topes { HasTopesOver (tree_of pool.old.nodes context) }
    requires few { length list.now ≤ 8 }
    requires coordinates { AreCoordinates (binders_of (tree_of pool.old.nodes context)) list.now }
    ensures start { IfOk result (IsStart pool.new.nodes (tree_of pool.old.nodes context) list.now) }
    ensures context { IfOk result (λ start. start.setting.context ≡ context) }
    ensures grows { Grows pool.old.nodes pool.new.nodes }
{
    let _ = pool.len();
    let given = hypotheses(alloc, pool, context)?;
    let entries = cubes_of(alloc, pool, context)?;
    let places = places(alloc, pool, list)?;
    let reader = Reader::new(alloc, pool)?;
    let setting = Setting {
        context,
        entries,
        places,
    };
    Ok(Start {
        given,
        setting,
        reader,
    })
}

/// Reads a tope that a context gives, and infers it.
fn assume_one(
    alloc: Global,
    pool: &mut Pool,
    setting: &Setting,
    list: &[Coord],
    proof: &mut Proof,
    reader: &mut Reader,
    given: Hypothesis,
) -> Result<(usize, u64), OutOfMemory>
    requires few { length list.now ≤ 8 }
    requires setting { IsSetting pool.old.nodes
        (tree_of pool.old.nodes setting.now.context) list.now setting.now }
    requires reader { IsReader pool.old.nodes (tree_of pool.old.nodes setting.now.context)
        list.now setting.now proof.old reader.old }
    requires given { IsReadableEntry pool.old.nodes (tree_of pool.old.nodes setting.now.context)
        list.now given }
    ensures assumed { IfOk result (IsAssumed pool.new.nodes
        (tree_of pool.old.nodes setting.now.context) proof.new reader.new.parts.items
        (tree_of pool.old.nodes given.tope)) }
    ensures reader { OnOk result (IsReader pool.new.nodes
        (tree_of pool.old.nodes setting.now.context) list.now setting.now
        proof.new reader.new) }
    ensures kept { OnOk result (KeepsRead pool.old.nodes reader.old pool.new.nodes reader.new) }
    ensures later { OnOk result (Later pool.old.nodes proof.old pool.new.nodes proof.new) }
    ensures grows { Grows pool.old.nodes pool.new.nodes }
{
    let part = reader.read(alloc, pool, setting, list, proof, given.tope)?;
    let claim = Claim::Tope(given.tope);
    let step = hypothesis(pool, setting.context, proof, given.number, claim)?;
    Ok((part, step))
}

/// Reads the topes that a context gives, and infers them.
fn assume(
    alloc: Global,
    pool: &mut Pool,
    setting: &Setting,
    list: &[Coord],
    proof: &mut Proof,
    reader: &mut Reader,
    hypotheses: &[Hypothesis],
) -> Result<Vec<(usize, u64)>, OutOfMemory>
    requires few { length list.now ≤ 8 }
    requires setting { IsSetting pool.old.nodes
        (tree_of pool.old.nodes setting.now.context) list.now setting.now }
    requires reader { IsReader pool.old.nodes (tree_of pool.old.nodes setting.now.context)
        list.now setting.now proof.old reader.old }
    requires given { AreReadableEntries pool.old.nodes (tree_of pool.old.nodes setting.now.context)
        list.now hypotheses.now }
    ensures assumed { IfOk result (λ given. AreAssumed pool.old.nodes pool.new.nodes
        (tree_of pool.old.nodes setting.now.context) proof.new reader.new.parts.items
        hypotheses.now given.items) }
    ensures reader { OnOk result (IsReader pool.new.nodes
        (tree_of pool.old.nodes setting.now.context) list.now setting.now
        proof.new reader.new) }
    ensures kept { OnOk result (KeepsRead pool.old.nodes reader.old pool.new.nodes reader.new) }
    ensures later { OnOk result (Later pool.old.nodes proof.old pool.new.nodes proof.new) }
    ensures grows { Grows pool.old.nodes pool.new.nodes }
{
    let mut given = Vec::new(alloc);
    for hypothesis in hypotheses {
        let pair = assume_one(alloc, pool, setting, list, proof, reader, *hypothesis)?;
        given.push(pair)?;
    }
    Ok(given)
}

/// The parts of a context's topes and of a tope over it, where at most eight coordinates occur.
pub fn read(
    alloc: Global,
    pool: &mut Pool,
    context: u64,
    tope: u64,
    list: &[Coord],
    proof: &mut Proof,
) -> Result<Sequent, OutOfMemory>
    requires context { context < length pool.old.nodes }
    requires tope { tope < length pool.old.nodes }
    requires sequent { IsSequent (tree_of pool.old.nodes context) (tree_of pool.old.nodes tope) }
    requires list { list.now
        ≡ occurring (tree_of pool.old.nodes context) (tree_of pool.old.nodes tope) }
    requires few { length list.now ≤ 8 }
    ensures read { IfOk result (IsSequentRead pool.new.nodes (tree_of pool.old.nodes context)
        (tree_of pool.old.nodes tope) list.now proof.new) }
    ensures values { IfOk result (HasValues (tree_of pool.old.nodes context)
        (tree_of pool.old.nodes tope) list.now) }
    ensures later { OnOk result (Later pool.old.nodes proof.old pool.new.nodes proof.new) }
    ensures grows { Grows pool.old.nodes pool.new.nodes }
{
    let _ = pool.len();
    let start = prepare(alloc, pool, context, list)?;
    let Start {
        given,
        setting,
        mut reader,
    } = start;
    let goal = reader.read(alloc, pool, &setting, list, proof, tope)?;
    let given = assume(alloc, pool, &setting, list, proof, &mut reader, &given)?;
    Ok(Sequent {
        places: setting.places,
        parts: reader.parts,
        given,
        goal,
    })
}
