//! Atoms: comparisons of points, from and to comparisons of places.

ghost use Rattle.std.specs.Prelude.{◌<◌, IfOk, OnOk};
ghost use Rattle.rz_rules.specs.Tree.{tree_of};
ghost use Rattle.rz_rules.specs.Cube.{cube_two};
ghost use Rattle.rz_tope_proof.specs.Place.{point_at};
ghost use Rattle.rz_tope_proof.specs.Proving.{Extends};
ghost use Rattle.rz_rules.specs.Tope.{equal_points};
ghost use Rattle.rz_tope_search.specs.Showing.{Setting, Shows, ShowsUnlessSame, AreSides, HasPlace, places_tope, sides_tope, equal_sides};

use crate::steps::{infer_if_some, infer_one, infer_two, put_before, put_behind};
use rz_rules::{OutOfMemory, Row};
use rz_tope_proof::{Claim, Places, Proof, Side};

/// That a place's point equals the point of a side.
fn equation_of_place(
    proof: &mut Proof,
    places: &Places,
    side: Side,
) -> Result<Option<u64>, OutOfMemory>
    requires { side.place < places.now.count }
    ensures extends { OnOk result (Extends proof.old proof.new) }
    ensures shows { IfOk result (λ step. (at : Setting)
        → HasPlace at proof.old places.now side
        → let place = tree_of at.nodes (point_at places.now side.place) in
        let point = tree_of at.nodes side.point in
        ShowsUnlessSame at proof.new step (equal_points cube_two place point) place point) }
{
    let claim = Claim::Equal(places.interval, places.point(side.place), side.point);
    let step = infer_if_some(proof, Row::EqualSymmetric, side.equation, claim)?;
    Ok(step)
}

/// That a point is at most another, since the first one's place is at most the second one's.
pub(crate) fn derive_at_most(
    proof: &mut Proof,
    places: &Places,
    first: Side,
    second: Side,
    step: u64,
) -> Result<u64, OutOfMemory>
    requires first { first.place < places.now.count }
    requires second { second.place < places.now.count }
    ensures extends { OnOk result (Extends proof.old proof.new) }
    ensures shows { IfOk result (λ last. (at : Setting)
        → AreSides at proof.old places.now first second
        → Shows at proof.old step (places_tope at.nodes places.now first.place second.place)
        → Shows at proof.new last (sides_tope at.nodes first second)) }
{
    let (low, high) = (places.point(first.place), places.point(second.place));
    let claim = Claim::AtMost(first.point, low);
    let start = infer_if_some(proof, Row::AtMostEqual, first.equation, claim)?;
    let back = equation_of_place(proof, places, second)?;
    let claim = Claim::AtMost(high, second.point);
    let end = infer_if_some(proof, Row::AtMostEqual, back, claim)?;
    let claim = Claim::AtMost(first.point, high);
    let middle = put_before(proof, Row::AtMostTransitive, start, step, claim)?;
    let claim = Claim::AtMost(first.point, second.point);
    let last = put_behind(proof, Row::AtMostTransitive, middle, end, claim)?;
    Ok(last)
}

/// That a point equals another, since each one's place is at most the other's.
pub(crate) fn derive_equal(
    proof: &mut Proof,
    places: &Places,
    first: Side,
    second: Side,
    up: u64,
    down: u64,
) -> Result<u64, OutOfMemory>
    requires first { first.place < places.now.count }
    requires second { second.place < places.now.count }
    ensures extends { OnOk result (Extends proof.old proof.new) }
    ensures shows { IfOk result (λ last. (at : Setting)
        → AreSides at proof.old places.now first second
        → Shows at proof.old up (places_tope at.nodes places.now first.place second.place)
        → Shows at proof.old down (places_tope at.nodes places.now second.place first.place)
        → Shows at proof.new last (equal_sides at.nodes first second)) }
{
    let (low, high) = (places.point(first.place), places.point(second.place));
    let claim = Claim::Equal(places.interval, low, high);
    let both = infer_two(proof, Row::AtMostAntisymmetric, up, down, claim)?;
    let back = equation_of_place(proof, places, second)?;
    let claim = Claim::Equal(places.interval, first.point, high);
    let middle = put_before(proof, Row::EqualTransitive, first.equation, both, claim)?;
    let claim = Claim::Equal(places.interval, first.point, second.point);
    let last = put_behind(proof, Row::EqualTransitive, middle, back, claim)?;
    Ok(last)
}

/// That the first place is at most the second, from the same for their sides.
pub(crate) fn place_at_most(
    proof: &mut Proof,
    places: &Places,
    first: Side,
    second: Side,
    step: u64,
) -> Result<u64, OutOfMemory>
    requires first { first.place < places.now.count }
    requires second { second.place < places.now.count }
    ensures extends { OnOk result (Extends proof.old proof.new) }
    ensures shows { IfOk result (λ last. (at : Setting)
        → AreSides at proof.old places.now first second
        → Shows at proof.old step (sides_tope at.nodes first second)
        → Shows at proof.new last (places_tope at.nodes places.now first.place second.place)) }
{
    let (low, high) = (places.point(first.place), places.point(second.place));
    let back = equation_of_place(proof, places, first)?;
    let claim = Claim::AtMost(low, first.point);
    let start = infer_if_some(proof, Row::AtMostEqual, back, claim)?;
    let claim = Claim::AtMost(second.point, high);
    let end = infer_if_some(proof, Row::AtMostEqual, second.equation, claim)?;
    let claim = Claim::AtMost(low, second.point);
    let middle = put_before(proof, Row::AtMostTransitive, start, step, claim)?;
    let claim = Claim::AtMost(low, high);
    let last = put_behind(proof, Row::AtMostTransitive, middle, end, claim)?;
    Ok(last)
}

/// That two places are equal_points, from the equality of their sides.
fn equate_places(
    proof: &mut Proof,
    places: &Places,
    first: Side,
    second: Side,
    step: u64,
) -> Result<u64, OutOfMemory>
    requires first { first.place < places.now.count }
    requires second { second.place < places.now.count }
    ensures extends { OnOk result (Extends proof.old proof.new) }
    ensures shows { IfOk result (λ last. (at : Setting)
        → AreSides at proof.old places.now first second
        → Shows at proof.old step (equal_sides at.nodes first second)
        → Shows at proof.new last (equal_points cube_two
        (tree_of at.nodes (point_at places.now first.place))
        (tree_of at.nodes (point_at places.now second.place)))) }
{
    let (low, high) = (places.point(first.place), places.point(second.place));
    let start = equation_of_place(proof, places, first)?;
    let claim = Claim::Equal(places.interval, low, second.point);
    let middle = put_before(proof, Row::EqualTransitive, start, step, claim)?;
    let claim = Claim::Equal(places.interval, low, high);
    let last = put_behind(proof, Row::EqualTransitive, middle, second.equation, claim)?;
    Ok(last)
}

/// That each of two places is at most the other, from the equality of their sides.
pub(crate) fn places_equal(
    proof: &mut Proof,
    places: &Places,
    first: Side,
    second: Side,
    step: u64,
) -> Result<(u64, u64), OutOfMemory>
    requires first { first.place < places.now.count }
    requires second { second.place < places.now.count }
    ensures extends { OnOk result (Extends proof.old proof.new) }
    ensures up { IfOk result (λ steps. (at : Setting)
        → AreSides at proof.old places.now first second
        → Shows at proof.old step (equal_sides at.nodes first second)
        → Shows at proof.new steps.0
        (places_tope at.nodes places.now first.place second.place)) }
    ensures down { IfOk result (λ steps. (at : Setting)
        → AreSides at proof.old places.now first second
        → Shows at proof.old step (equal_sides at.nodes first second)
        → Shows at proof.new steps.1
        (places_tope at.nodes places.now second.place first.place)) }
{
    let (low, high) = (places.point(first.place), places.point(second.place));
    let same = equate_places(proof, places, first, second, step)?;
    let up = infer_one(proof, Row::AtMostEqual, same, Claim::AtMost(low, high))?;
    let claim = Claim::Equal(places.interval, high, low);
    let back = infer_one(proof, Row::EqualSymmetric, same, claim)?;
    let down = infer_one(proof, Row::AtMostEqual, back, Claim::AtMost(high, low))?;
    Ok((up, down))
}
