//! The table of what is at most what.

ghost use Rattle.std.specs.Prelude.{◌≡◌, ◌<◌, ◌≤◌, ◌+◌, ◌*◌, ◌==◌, ◌&&◌, ◌||◌, ℕ, List, true, false, Some, None, IfOk, OnOk};
ghost use Rattle.rz_tope_proof.specs.declared.places.Places.{Places};
ghost use Rattle.rz_tope_proof.specs.declared.proof.Inference.{Inference};
ghost use Rattle.rz_tope_proof.specs.Order.{IsOrder, rank};
ghost use Rattle.rz_tope_proof.specs.Place.{IsPlaces};
ghost use Rattle.rz_tope_proof.specs.Proving.{Extends};
ghost use Rattle.rz_tope_search.specs.Showing.{Setting, Shows, ShowsEnds, ProvesTable, places_tope};

use crate::steps::{infer_axiom, infer_one, infer_two};
use rz_rules::{OutOfMemory, Row};
use rz_tope_proof::{Claim, MOST_PLACES, ONE, Places, Proof, ZERO};

/// For each two places the inference that the first is at most the second, where there is one.
#[derive(Clone, Copy)]
pub struct Table {
    steps: [Option<u64>; 100],
}

impl Table {
    ghost use Rattle.rz_tope_search.specs.Table.{step_at, order_of, with_pair, between_ends, AreSame};

    /// What holds of all places: each is at most itself, and stands between the ends.
    pub(crate) fn new(proof: &mut Proof, places: &Places) -> Result<Table, OutOfMemory>
        ensures order { IfOk result
            (λ table. AreSame places.now.count between_ends (order_of table)) }
        ensures extends { OnOk result (Extends proof.old proof.new) }
        ensures proves { IfOk result (λ table. (at : Setting)
            → IsPlaces at.nodes at.context places.now
            → ProvesTable at proof.new places.now table) }
    {
        let mut table = Table::empty();
        for place in 0..places.count {
            let (itself, above, below) = infer_ends(proof, places, place)?;
            table.set_all(place, itself, above, below);
        }
        Ok(table)
    }

    /// The table without any inference.
    fn empty() -> Table
        ensures { (x y : ℕ) → x < 10 → y < 10 → order_of result x y ≡ false }
    {
        Table { steps: [None; 100] }
    }

    /// Adds that a place is at most itself, and stands between the ends.
    fn set_all(&mut self, place: usize, itself: u64, above: u64, below: u64)
        requires { place < 10 }
        ensures order { (x y : ℕ) → x < 10 → y < 10 → order_of self.new x y ≡ (order_of self.old x y
            || (((x == place) && (y == place)) || ((x == 0) && (y == place))
            || ((x == place) && (y == 1)))) }
        ensures proves { (at : Setting) (all : List Inference) (places : Places) → places.count ≤ 10
            → ShowsEnds at all places place (itself, above, below)
            → ProvesTable at all places self.old → ProvesTable at all places self.new }
    {
        self.set(place, place, itself);
        self.set(ZERO, place, above);
        self.set(place, ONE, below);
    }

    /// The inference that the first place is at most the second.
    pub(crate) fn at(&self, first: usize, second: usize) -> Option<u64>
        requires first { first < 10 }
        requires second { second < 10 }
        ensures { result ≡ step_at self.now first second }
    {
        self.steps[first * MOST_PLACES + second]
    }

    /// Whether there is an inference that the first place is at most the second.
    pub(crate) fn has(&self, first: usize, second: usize) -> bool
        requires first { first < 10 }
        requires second { second < 10 }
        ensures { result ≡ order_of self.now first second }
    {
        self.at(first, second).is_some()
    }

    fn set(&mut self, first: usize, second: usize, step: u64)
        requires first { first < 10 }
        requires second { second < 10 }
        ensures order { (x y : ℕ) → x < 10 → y < 10 → order_of self.new x y
            ≡ (order_of self.old x y || ((x == first) && (y == second))) }
        ensures proves { (at : Setting) (all : List Inference) (places : Places) → places.count ≤ 10
            → Shows at all step (places_tope at.nodes places first second)
            → ProvesTable at all places self.old → ProvesTable at all places self.new }
    {
        self.steps[first * MOST_PLACES + second] = Some(step);
    }

    /// Adds that one place is at most another, and what follows from it by transitivity.
    pub(crate) fn add(
        &mut self,
        proof: &mut Proof,
        places: &Places,
        first: usize,
        second: usize,
        step: u64,
    ) -> Result<(), OutOfMemory>
        requires first { first < places.now.count }
        requires second { second < places.now.count }
        requires order { IsOrder places.now.count (order_of self.old) }
        ensures order { OnOk result (AreSame places.now.count
            (with_pair (order_of self.old) first second) (order_of self.new)) }
        ensures extends { OnOk result (Extends proof.old proof.new) }
        ensures proves { OnOk result ((at : Setting)
            → IsPlaces at.nodes at.context places.now
            → ProvesTable at proof.old places.now self.old
            → Shows at proof.old step (places_tope at.nodes places.now first second)
            → ProvesTable at proof.new places.now self.new) }
    {
        if self.has(first, second) {
            return Ok(());
        }
        let before = *self;
        for low in 0..places.count {
            if before.has(low, first) {
                let whole = before.step_to(proof, places, low, first, second, step)?;
                self.add_above(proof, places, &before, low, second, whole)?;
            }
        }
        Ok(())
    }

    /// The inference that a place is at most the second one, where it is at most the first.
    fn step_to(
        &self,
        proof: &mut Proof,
        places: &Places,
        low: usize,
        first: usize,
        second: usize,
        step: u64,
    ) -> Result<u64, OutOfMemory>
        requires low { low < places.now.count }
        requires first { first < places.now.count }
        requires second { second < places.now.count }
        requires there { order_of self.now low first ≡ true }
        ensures extends { OnOk result (Extends proof.old proof.new) }
        ensures shows { IfOk result (λ whole. (at : Setting)
            → IsPlaces at.nodes at.context places.now
            → ProvesTable at proof.old places.now self.now
            → Shows at proof.old step (places_tope at.nodes places.now first second)
            → Shows at proof.new whole (places_tope at.nodes places.now low second)) }
    {
        if low == first {
            return Ok(step);
        }
        match self.at(low, first) {
            Some(below) => {
                let whole = chain(proof, places, low, second, below, step)?;
                Ok(whole)
            }
            None => unreachable!(),
        }
    }

    /// Adds that a place is at most those that another is at most, where it is at most that one.
    fn add_above(
        &mut self,
        proof: &mut Proof,
        places: &Places,
        before: &Table,
        low: usize,
        second: usize,
        step: u64,
    ) -> Result<(), OutOfMemory>
        requires low { low < places.now.count }
        requires second { second < places.now.count }
        ensures order { OnOk result ((x y : ℕ) → x < places.now.count → y < places.now.count
            → order_of self.new x y
            ≡ (order_of self.old x y || ((x == low) && order_of before.now second y))) }
        ensures extends { OnOk result (Extends proof.old proof.new) }
        ensures proves { OnOk result ((at : Setting)
            → IsPlaces at.nodes at.context places.now
            → ProvesTable at proof.old places.now before.now
            → Shows at proof.old step (places_tope at.nodes places.now low second)
            → ProvesTable at proof.old places.now self.old
            → ProvesTable at proof.new places.now self.new) }
    {
        for high in 0..places.count {
            if let Some(above) = before.at(second, high)
                && !self.has(low, high)
            {
                let whole = step_above(proof, places, low, second, high, step, above)?;
                self.set(low, high, whole);
            }
        }
        Ok(())
    }

    /// The rank of a place: the last of all for those that equal the end 1, and else how many
    /// places stand strictly below.
    pub(crate) fn rank(&self, places: &Places, place: usize) -> u64
        requires { place < places.now.count }
        ensures { result ≡ rank places.now.count (order_of self.now) place }
    {
        if self.has(ONE, place) {
            return places.count as u64 - 1;
        }
        let mut rank = 0;
        for other in 0..places.count {
            if self.has(other, place) && !self.has(place, other) {
                rank += 1;
            }
        }
        rank
    }
}

/// That a place is at most itself, that the end 0 is at most it, and that it is at most the end 1.
fn infer_ends(
    proof: &mut Proof,
    places: &Places,
    place: usize,
) -> Result<(u64, u64, u64), OutOfMemory>
    requires { place < places.now.count }
    ensures extends { OnOk result (Extends proof.old proof.new) }
    ensures shows { IfOk result (λ ends. (at : Setting)
        → IsPlaces at.nodes at.context places.now
        → ShowsEnds at proof.new places.now place ends) }
{
    let point = places.point(place);
    let claim = Claim::Equal(places.interval, point, point);
    let same = infer_axiom(proof, Row::EqualReflexive, claim)?;
    let itself = infer_one(proof, Row::AtMostEqual, same, Claim::AtMost(point, point))?;
    let claim = Claim::AtMost(places.point(ZERO), point);
    let above = infer_axiom(proof, Row::ZeroAtMost, claim)?;
    let claim = Claim::AtMost(point, places.point(ONE));
    let below = infer_axiom(proof, Row::AtMostOne, claim)?;
    Ok((itself, above, below))
}

/// That a place is at most a third one, since it is at most a second, and that at most the third.
fn step_above(
    proof: &mut Proof,
    places: &Places,
    low: usize,
    second: usize,
    high: usize,
    step: u64,
    above: u64,
) -> Result<u64, OutOfMemory>
    requires low { low < places.now.count }
    requires high { high < places.now.count }
    ensures extends { OnOk result (Extends proof.old proof.new) }
    ensures shows { IfOk result (λ whole. (at : Setting)
        → IsPlaces at.nodes at.context places.now
        → Shows at proof.old step (places_tope at.nodes places.now low second)
        → Shows at proof.old above (places_tope at.nodes places.now second high)
        → Shows at proof.new whole (places_tope at.nodes places.now low high)) }
{
    if high == second {
        return Ok(step);
    }
    let whole = chain(proof, places, low, high, step, above)?;
    Ok(whole)
}

/// That one place is at most another, through a third.
fn chain(
    proof: &mut Proof,
    places: &Places,
    low: usize,
    high: usize,
    first: u64,
    second: u64,
) -> Result<u64, OutOfMemory>
    requires low { low < places.now.count }
    requires high { high < places.now.count }
    ensures extends { OnOk result (Extends proof.old proof.new) }
    ensures shows { IfOk result (λ whole. (at : Setting) (middle : ℕ)
        → IsPlaces at.nodes at.context places.now
        → Shows at proof.old first (places_tope at.nodes places.now low middle)
        → Shows at proof.old second (places_tope at.nodes places.now middle high)
        → Shows at proof.new whole (places_tope at.nodes places.now low high)) }
{
    let claim = Claim::AtMost(places.point(low), places.point(high));
    let whole = infer_two(proof, Row::AtMostTransitive, first, second, claim)?;
    Ok(whole)
}
