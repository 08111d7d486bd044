//! The places of a shared tree, and what becomes of its variables there.

ghost use Rattle.std.specs.Prelude.{◌≡◌, ◌+◌, ◌<◌, ◌^◌, ◌↔◌, IsTrue, IfOk, List, length};
ghost use Rattle.rz_rules.specs.declared.nodes.Node.{Node};
ghost use Rattle.rz_rules.specs.Substitution.{Changes};
ghost use Rattle.rz_pool.specs.declared.questions.VariableChange.{VariableChange};
ghost use Rattle.rz_pool.specs.Asking.{NamesNodes, changes_by};
ghost use Rattle.rz_pool.specs.Counts.{depth_of};
ghost use Rattle.rz_pool.specs.Pool.{Grows, IsPool};
ghost use Rattle.rz_subst.specs.declared.walk.Reach.{Reach};
ghost use Rattle.rz_subst.specs.Walk.{kid_place, top_place, reach_of, is_past, count_where, shared_place, StaysIn, IsBeyond, IsWithin, IsSteady, MovesOnlyWith, IsAnswer, KeepsSorts};

use rz_pool::{Counts, Pool, Question};
use rz_rules::{OutOfMemory, Slot, Space};
use std::alloc::Global;

/// A node of a tree: its id, and how many variables are bound above it.
#[derive(Clone, Copy, Debug, PartialEq, Eq, Hash)]
pub struct Place {
    pub id: u64,
    pub depth: Counts,
}

/// How far out the variables of a space lie that may change.
#[derive(Clone, Copy)]
pub struct Extent {
    /// How many binders outside of a tree the first of them is bound, where there are any.
    pub start: Option<u64>,
    /// Whether what takes the place of a variable has variables of this space, which rise with the
    /// depth.
    pub moves: bool,
}

/// How far out the variables lie that may change.
#[derive(Clone, Copy)]
pub struct Reach {
    pub points: Extent,
    pub terms: Extent,
}

/// What becomes of a variable.
pub enum Change {
    /// It gets another number.
    Renumbered(u64),
    /// The tree of an id takes its place.
    Replaced(u64),
}

impl Reach {
    /// How far out those of a space lie.
    pub fn of(self, space: Space) -> Extent
        ensures { result ≡ reach_of self space }
    {
        match space {
            Space::Points => self.points,
            Space::Terms => self.terms,
        }
    }
}

/// A count with what is bound further in. One that doesn't fit is no count of things in memory.
fn deeper(count: u64, bound: u8) -> Result<u64, OutOfMemory>
    ensures { IfOk result (λ sum. sum ≡ count + bound) }
{
    count.checked_add(u64::from(bound)).ok_or(OutOfMemory)
}

impl Place {
    /// A whole tree.
    pub fn top(id: u64) -> Place
        ensures { result ≡ top_place id }
    {
        Place {
            id,
            depth: Counts::NONE,
        }
    }

    /// A kid of the node here.
    pub fn kid(self, slot: Slot, kid: u64) -> Result<Place, OutOfMemory>
        ensures { IfOk result (λ place. place ≡ kid_place self slot kid) }
    {
        Ok(Place {
            id: kid,
            depth: Counts {
                points: deeper(self.depth.points, slot.points)?,
                terms: deeper(self.depth.terms, slot.terms)?,
            },
        })
    }
}

/// Whether the free variables of a space in the tree at a place are known to be further out than
/// the first that may change.
fn is_past(pool: &Pool, reach: Reach, place: Place, space: Space) -> bool
    requires { place.id < length pool.now.nodes }
    ensures { result ≡ is_past (reach_of reach) pool.now.nodes place space }
{
    let bound = pool.free_bound(space, place.id);
    let least = pool.free_least(space, place.id);
    match reach.of(space).start {
        Some(start) => bound == 0 || least.saturating_sub(place.depth.of(space)) > start,
        None => true,
    }
}

/// A count of binders, which is of no account where the space's variables lie past the first to
/// change, and either those of the other space do so too, or no value moves with this one.
fn count_where(moves: bool, past: bool, others: bool, count: u64) -> u64
    ensures { result ≡ count_where moves past others count }
{
    if past && (others || !moves) { 0 } else { count }
}

/// The place whose answer serves for a place.
pub fn shared(pool: &Pool, reach: Reach, place: Place) -> Place
    requires { place.id < length pool.now.nodes }
    ensures { result ≡ shared_place (reach_of reach) pool.now.nodes place }
{
    let points = is_past(pool, reach, place, Space::Points);
    let terms = is_past(pool, reach, place, Space::Terms);
    Place {
        id: place.id,
        depth: Counts {
            points: count_where(reach.points.moves, points, terms, place.depth.points),
            terms: count_where(reach.terms.moves, terms, points, place.depth.terms),
        },
    }
}

/// Whether no variable of a space in the tree at a place may change.
fn stays_in(pool: &Pool, reach: Reach, place: Place, space: Space) -> bool
    requires { place.id < length pool.now.nodes }
    ensures stays { IsTrue result ↔ StaysIn (reach_of reach) pool.now.nodes place space }
    ensures pool { IsPool pool.now.nodes }
{
    let bound = pool.free_bound(space, place.id);
    match reach.of(space).start {
        Some(start) => bound.saturating_sub(place.depth.of(space)) <= start,
        None => true,
    }
}

/// Whether no variable in the tree at a place may change.
pub fn is_beyond(pool: &Pool, reach: Reach, place: Place) -> bool
    requires { place.id < length pool.now.nodes }
    ensures beyond { IsTrue result ↔ IsBeyond (reach_of reach) pool.now.nodes place }
    ensures pool { IsPool pool.now.nodes }
{
    let points = stays_in(pool, reach, place, Space::Points);
    let terms = stays_in(pool, reach, place, Space::Terms);
    points && terms
}

/// What becomes of each variable.
pub trait Changing {
    ghost changes: { Self → List Node → Changes };

    ghost reach: { Self → List Node → Reach };

    ghost change: { Self → VariableChange };

    /// What it names is in the pool, and has its sort.
    ghost is_there: { Self → List Node → Type 0 };

    /// How far out the variables lie that may change.
    fn reach(&self, pool: &Pool) -> Reach
        requires { is_there self.now pool.now.nodes }
        ensures { result ≡ reach self.now pool.now.nodes };

    /// Which tree comes of the tree of an id, as a question to a pool.
    fn question(&self, id: u64) -> Question
        ensures id { result.id ≡ id }
        ensures change { result.change ≡ change self.now };

    /// What becomes of a variable of a space with this number, which stands at a depth; `None`
    /// where an index would be too large.
    fn variable(
        &self,
        alloc: Global,
        pool: &mut Pool,
        space: Space,
        depth: Counts,
        number: u64,
    ) -> Result<Option<Change>, OutOfMemory>
        requires there { is_there self.now pool.old.nodes }
        requires number { number < 2 ^ 32 }
        requires pool { IsPool pool.old.nodes }
        ensures change { IfOk result (λ change. IsAnswer pool.new.nodes change
            (changes self.now pool.old.nodes space (depth_of depth) number)) }
        ensures grows { Grows pool.old.nodes pool.new.nodes }
        ensures pool { IsPool pool.new.nodes };

    /// It stays the same in a pool that grows.
    ghost kept: { (self : Self) (old new : List Node) → is_there self old → Grows old new
        → is_there self new
        × (changes self new ≡ changes self old)
        × (reach self new ≡ reach self old) };

    /// The question says what becomes of each variable.
    ghost asks: { (self : Self) (nodes : List Node) → is_there self nodes
        → NamesNodes nodes (change self)
        × (changes_by nodes (change self) ≡ changes self nodes) };

    /// Only trees of its sort take the place of a variable.
    ghost sorts: { (self : Self) (nodes : List Node) → is_there self nodes
        → KeepsSorts (changes self nodes) };

    /// Variables that aren't reached stay as they are.
    ghost stays: { (self : Self) (nodes : List Node)
        → IsWithin (reach_of (reach self nodes)) (changes self nodes) };

    /// Of variables further out than the first that is reached the same becomes at every depth.
    ghost steady: { (self : Self) (nodes : List Node)
        → IsSteady (reach_of (reach self nodes)) (changes self nodes) };

    /// Values move only with the spaces of which that is told.
    ghost moves: { (self : Self) (nodes : List Node)
        → MovesOnlyWith (reach_of (reach self nodes)) (changes self nodes) };
}
