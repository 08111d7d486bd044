//! The parts of equations between points.

ghost use Rattle.std.specs.Prelude.{◌≡◌, ℕ, ◌<◌, ◌≤◌, ◌+◌, length, Some, IfOk, OnOk, slice_get};
ghost use Rattle.rz_rules.specs.Tree.{tree_of};
ghost use Rattle.rz_rules.specs.Cube.{binders_of};
ghost use Rattle.rz_tope_proof.specs.Part.{IsMadeOf};
ghost use Rattle.rz_tope_proof.specs.Reading.{HasForm};
ghost use Rattle.rz_tope_normal.specs.Equation.{AreSaid, AreSplits, IsReadable};
ghost use Rattle.rz_tope_normal.specs.Norm.{AreNorms, IsSetting, equation_of};
ghost use Rattle.rz_tope_normal.specs.Read.{ArePartsOf, HasSides, KeepsParts, SaysTope};

use crate::equations::Pair;
use crate::norms::Norms;
use crate::settings::Setting;
use crate::sides::side;
use crate::splits::{Split, Splits};
use rz_pool::Pool;
use rz_rules::{Coord, OutOfMemory};
use rz_tope_proof::{Claim, Form, Part, Proof};

/// The form of the equation at a place of a list, where those behind it have parts: the one right
/// behind it the last part, and so on.
fn form_of(
    pool: &Pool,
    setting: &Setting,
    list: &[Coord],
    proof: &Proof,
    norms: &Norms,
    parts: &[Part],
    all: &[Pair],
    place: usize,
    split: Split,
) -> Form
    requires few { length list.now ≤ 8 }
    requires setting { IsSetting pool.now.nodes
        (tree_of pool.now.nodes setting.now.context) list.now setting.now }
    requires norms { AreNorms pool.now.nodes (tree_of pool.now.nodes setting.now.context)
        setting.now.entries.items proof.now norms.now }
    requires place { place < length all.now }
    requires room { length all.now ≤ length parts.now + place + 1 }
    requires readable { (of : ℕ × ℕ × ℕ) → slice_get all.now place ≡ Some of
        → IsReadable pool.now.nodes (tree_of pool.now.nodes setting.now.context) list.now
        norms.now all.now place of split }
    requires said { AreSaid pool.now.nodes parts.now all.now place }
    ensures made { IsMadeOf (length parts.now) setting.now.places.count result }
    ensures form { (of : ℕ × ℕ × ℕ) → slice_get all.now place ≡ Some of
        → HasForm pool.now.nodes (tree_of pool.now.nodes setting.now.context)
        setting.now.places proof.now parts.now result (equation_of pool.now.nodes of) }
    ensures sides { HasSides pool.now.nodes
        (binders_of (tree_of pool.now.nodes setting.now.context)) list.now result }
{
    let of = all[place];
    match split {
        Split::Same => Form::Same,
        Split::OnePoint => Form::OnePoint,
        Split::Interval => {
            let first = side(pool, setting, list, proof, norms, of.1);
            let second = side(pool, setting, list, proof, norms, of.2);
            Form::Equal(first, second)
        }
        Split::Halved(at, pairs) => {
            let left = parts.len() + place - at;
            let right = left - 1;
            Form::EqualPairs {
                of,
                left,
                right,
                pairs,
            }
        }
    }
}

/// Adds the parts of equations that are split, the last one first, and answers the number of the
/// part of the first.
pub(crate) fn join(
    pool: &Pool,
    setting: &Setting,
    list: &[Coord],
    proof: &Proof,
    norms: &Norms,
    parts: &mut Vec<Part>,
    splits: Splits,
) -> Result<usize, OutOfMemory>
    requires few { length list.now ≤ 8 }
    requires setting { IsSetting pool.now.nodes
        (tree_of pool.now.nodes setting.now.context) list.now setting.now }
    requires norms { AreNorms pool.now.nodes (tree_of pool.now.nodes setting.now.context)
        setting.now.entries.items proof.now norms.now }
    requires splits { AreSplits pool.now.nodes (tree_of pool.now.nodes setting.now.context)
        list.now norms.now splits }
    requires some { 0 < length splits.all.items }
    requires done { length splits.done.items ≡ length splits.all.items }
    requires parts { ArePartsOf pool.now.nodes (tree_of pool.now.nodes setting.now.context)
        list.now setting.now.places proof.now parts.old.items }
    ensures parts { OnOk result (ArePartsOf pool.now.nodes
        (tree_of pool.now.nodes setting.now.context) list.now setting.now.places
        proof.now parts.new.items) }
    ensures says { IfOk result (λ number. (of : ℕ × ℕ × ℕ)
        → slice_get splits.all.items 0 ≡ Some of
        → SaysTope pool.now.nodes parts.new.items number (equation_of pool.now.nodes of)) }
    ensures kept { OnOk result (KeepsParts pool.now.nodes parts.old.items parts.new.items) }
{
    let all = splits.all;
    let mut done = splits.done;
    let last = parts.len() + all.len() - 1;
    while let Some(split) = done.pop() {
        let place = done.len();
        let form = form_of(pool, setting, list, proof, norms, parts, &all, place, split);
        let of = all[place];
        let claim = Claim::Equal(of.0, of.1, of.2);
        parts.push(Part { claim, form })?;
    }
    Ok(last)
}
