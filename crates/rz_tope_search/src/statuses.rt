//! What a table says of parts.

ghost use Rattle.std.specs.Prelude.{◌≡◌, ◌<◌, ◌≤◌, ◌&&◌, ◌||◌, ℕ, true, false, length, Some, slice_get, IfOk, IfSome, IfNone};
ghost use Rattle.std.specs.List.{slice_index_or};
ghost use Rattle.rz_tope_proof.specs.Order.{Order};
ghost use Rattle.rz_tope_proof.specs.Part.{value_over, decided_over, AreParts, IsMadeOf};
ghost use Rattle.rz_tope_search.specs.Status.{holds_in, decided_in, AreStatuses, IsGap, IsGapWithin};
ghost use Rattle.rz_tope_search.specs.Table.{order_of};

use crate::table::Table;
use rz_rules::OutOfMemory;
use rz_tope_proof::{Form, Part, Places};
use std::alloc::Global;

/// What a table says of a part.
#[derive(Clone, Copy, Debug, PartialEq, Eq)]
pub(crate) struct Status {
    /// It follows from the table.
    pub holds: bool,
    /// Of each two places that it compares one is at most the other.
    pub decided: bool,
}

/// What the table says of each part.
pub(crate) fn statuses(
    alloc: Global,
    parts: &[Part],
    places: &Places,
    table: &Table,
) -> Result<Vec<Status>, OutOfMemory>
    requires { AreParts places.now.count parts.now }
    ensures { IfOk result (λ list. AreStatuses (order_of table.now) parts.now list.items) }
{
    let mut list = Vec::new(alloc);
    for part in parts {
        let status = status_of(&list, places, table, part.form);
        list.push(status)?;
    }
    Ok(list)
}

/// What the table says of a part, where that is known of the parts that it is made of.
fn status_of(list: &[Status], places: &Places, table: &Table, form: Form) -> Status
    requires { IsMadeOf (length list.now) places.now.count form }
    ensures holds { result.holds ≡ value_over (order_of table.now) (holds_in list.now) form }
    ensures decided { result.decided
        ≡ decided_over (order_of table.now) (decided_in list.now) form }
{
    match form {
        Form::Top | Form::Same | Form::OnePoint => Status {
            holds: true,
            decided: true,
        },
        Form::Bottom => Status {
            holds: false,
            decided: true,
        },
        Form::And(first, second) => both(list[first], list[second]),
        Form::Or(first, second) => either(list[first], list[second]),
        Form::AtMost(first, second) => {
            let up = table.has(first.place, second.place);
            let down = table.has(second.place, first.place);
            Status {
                holds: up,
                decided: up || down,
            }
        }
        Form::Equal(first, second) => {
            let up = table.has(first.place, second.place);
            let down = table.has(second.place, first.place);
            Status {
                holds: up && down,
                decided: up || down,
            }
        }
        Form::EqualPairs { left, right, .. } => both(list[left], list[right]),
    }
}

/// What is said of a conjunction.
fn both(first: Status, second: Status) -> Status
    ensures holds { result.holds ≡ (first.holds && second.holds) }
    ensures decided { result.decided ≡ (first.decided && second.decided) }
{
    Status {
        holds: first.holds && second.holds,
        decided: first.decided && second.decided,
    }
}

/// What is said of a disjunction.
fn either(first: Status, second: Status) -> Status
    ensures holds { result.holds ≡ (first.holds || second.holds) }
    ensures decided { result.decided ≡ (first.decided && second.decided) }
{
    Status {
        holds: first.holds || second.holds,
        decided: first.decided && second.decided,
    }
}

/// What a part leaves open.
#[derive(Clone, Copy)]
pub(crate) enum Gap {
    /// A part that it is made of.
    Kid(usize),
    /// A comparison of two places.
    Pair(usize, usize),
}

/// The first two places that a part compares and the table leaves open.
pub(crate) fn open_pair(
    parts: &[Part],
    places: &Places,
    list: &[Status],
    part: usize,
) -> (usize, usize)
    requires part { part < length parts.now }
    requires parts { AreParts places.now.count parts.now }
    requires list { (le : Order) × AreStatuses le parts.now list.now }
    requires open { decided_in list.now part ≡ false }
    ensures first { result.0 < places.now.count }
    ensures second { result.1 < places.now.count }
    ensures neither { (le : Order) → AreStatuses le parts.now list.now
        → (le result.0 result.1 || le result.1 result.0) ≡ false }
{
    let mut at = part;
    loop {
        match first_gap(list, places, parts[at].form) {
            Gap::Kid(kid) => at = kid,
            Gap::Pair(first, second) => return (first, second),
        }
    }
}

/// What comes first of what a form leaves open.
fn first_gap(list: &[Status], places: &Places, form: Form) -> Gap
    requires there { IsMadeOf (length list.now) places.now.count form }
    requires open { (le : Order) × (decided_over le (decided_in list.now) form ≡ false) }
    ensures within { (before : ℕ) → IsMadeOf before places.now.count form
        → IsGapWithin before places.now.count result }
    ensures gap { (le : Order) → decided_over le (decided_in list.now) form ≡ false
        → IsGap le (decided_in list.now) result }
{
    match form {
        Form::And(first, second) => Gap::Kid(open_kid(list, first, second)),
        Form::Or(first, second) => Gap::Kid(open_kid(list, first, second)),
        Form::EqualPairs { left, right, .. } => Gap::Kid(open_kid(list, left, right)),
        Form::AtMost(first, second) => Gap::Pair(first.place, second.place),
        Form::Equal(first, second) => Gap::Pair(first.place, second.place),
        Form::Top => unreachable!(),
        Form::Bottom => unreachable!(),
        Form::Same => unreachable!(),
        Form::OnePoint => unreachable!(),
    }
}

/// The first of two parts that is left open.
fn open_kid(list: &[Status], first: usize, second: usize) -> usize
    requires first { first < length list.now }
    requires second { second < length list.now }
    requires open { (decided_in list.now first && decided_in list.now second) ≡ false }
    ensures open { decided_in list.now result ≡ false }
    ensures within { (before : ℕ) → first < before → second < before → result < before }
{
    if list[first].decided { second } else { first }
}
