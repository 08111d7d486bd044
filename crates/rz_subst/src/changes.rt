//! The two things that can become of the variables: they rise, or a value takes the place of one.

ghost use Rattle.std.specs.Prelude.{◌≡◌, ◌+◌, ◌<◌, ◌≤◌, ◌^◌, ◌↔◌, length, IsSome, IfOk, IfSome, MatchOption, Some, None, refl};
ghost use Rattle.rz_rules.specs.Tree.{sort_of, tree_of};
ghost use Rattle.rz_rules.specs.Substitution.{IndicesBelow, none, only, total, raising, weakened, putting, shift, put, same_space};
ghost use Rattle.rz_pool.specs.Counts.{depth_of};
ghost use Rattle.rz_pool.specs.Pool.{Grows, IsPool};
ghost use Rattle.rz_pool.specs.declared.questions.VariableChange.TheVariants.{Rise};
ghost use Rattle.rz_subst.specs.Walk.{sort_in, put_change, raising_extent, putting_extent, raising_reach, putting_reach, IsAnswerOf, IsNewNumber, IsValue};
ghost use Rattle.rz_subst.specs.Sorts.{KeepsSorts-raising, KeepsSorts-putting, kept-putting, asks-putting};
ghost use Rattle.rz_subst.specs.Within.{IsWithin-raising, IsWithin-putting, IsSteady-raising, IsSteady-putting, MovesOnlyWith-raising, MovesOnlyWith-putting};

use crate::going::rebuild;
use crate::walk::{Change, Changing, Extent, Reach};
use rz_pool::{Counts, Pool, Question, VariableChange};
use rz_rules::{OutOfMemory, Space};
use std::alloc::Global;

/// Each variable that is bound at least `from` binders outside of the tree rises by `by`.
#[derive(Drop)]
pub struct Raising {
    pub from: Counts,
    pub by: Counts,
}

/// A value takes the place of a variable that is bound outside of the tree, and those further out
/// lose one.
#[derive(Drop)]
pub struct Putting {
    pub space: Space,
    /// How many variables of each space are bound between the tree and the variable.
    pub at: Counts,
    /// The value's id.
    pub value: u64,
}

/// How far out the variables of a space lie that rise by so many from an index on.
fn raising_extent(from: u64, by: u64) -> Extent
    ensures { result ≡ raising_extent from by }
{
    Extent {
        start: if by == 0 { None } else { Some(from) },
        moves: false,
    }
}

/// How far out the variables of a space lie that may change where a value is put.
fn putting_extent(pool: &Pool, space: Space, start: Option<u64>, value: u64) -> Extent
    requires { value < length pool.now.nodes }
    ensures extent { result ≡ putting_extent start space (tree_of pool.now.nodes value) }
    ensures pool { IsPool pool.now.nodes }
{
    Extent {
        start,
        moves: pool.free_bound(space, value) > 0,
    }
}

/// The number of a variable that rises, where it isn't too large.
fn new_number(number: u64, by: u64) -> Option<Change>
    ensures { IsNewNumber (number + by) result }
{
    let number = number.checked_add(by)?;
    if number < 1 << 32 {
        Some(Change::Renumbered(number))
    } else {
        None
    }
}

impl Changing for Raising {
    ghost changes = { λ it nodes. raising (depth_of it.from) (depth_of it.by) };

    ghost reach = { λ it nodes. raising_reach it.from it.by };

    ghost change = { λ it. Rise it.from it.by };

    ghost is_there = { λ it nodes. Unit {0} };

    ghost asks = { λ it nodes there. (tt, refl) };

    ghost kept = { λ it old new there grows. (tt, refl, refl) };

    ghost sorts = { λ it nodes there. KeepsSorts-raising (depth_of it.from) (depth_of it.by) };

    ghost stays = { λ it nodes. IsWithin-raising it.from it.by };

    ghost steady = { λ it nodes. IsSteady-raising it.from it.by };

    ghost moves = { λ it nodes. MovesOnlyWith-raising it.from it.by };

    fn reach(&self, _pool: &Pool) -> Reach {
        Reach {
            points: raising_extent(self.from.points, self.by.points),
            terms: raising_extent(self.from.terms, self.by.terms),
        }
    }

    fn question(&self, id: u64) -> Question {
        Question {
            id,
            change: VariableChange::Rise {
                from: self.from,
                by: self.by,
            },
        }
    }

    fn variable(
        &self,
        _alloc: Global,
        _pool: &mut Pool,
        space: Space,
        depth: Counts,
        number: u64,
    ) -> Result<Option<Change>, OutOfMemory> {
        let above = depth.of(space);
        let reached = number >= above && number - above >= self.from.of(space);
        Ok(if reached {
            new_number(number, self.by.of(space))
        } else {
            Some(Change::Renumbered(number))
        })
    }
}

impl Changing for Putting {
    ghost changes = { λ it nodes. putting it.space (depth_of it.at) (tree_of nodes it.value) };

    ghost reach = { λ it nodes. putting_reach it.space it.at (tree_of nodes it.value) };

    ghost change = { λ it. put_change it.space it.at it.value };

    ghost is_there = { λ it nodes. IsValue it.space it.value nodes };

    ghost asks = { λ it nodes there. asks-putting it.space it.at it.value nodes there };

    ghost kept = { λ it old new there grows.
        kept-putting it.space it.at it.value old new there grows };

    ghost sorts = { λ it nodes there.
        KeepsSorts-putting it.space (depth_of it.at) (tree_of nodes it.value) there.1 };

    ghost stays = { λ it nodes. IsWithin-putting it.space it.at (tree_of nodes it.value) };

    ghost steady = { λ it nodes. IsSteady-putting it.space it.at (tree_of nodes it.value) };

    ghost moves = { λ it nodes. MovesOnlyWith-putting it.space it.at (tree_of nodes it.value) };

    fn reach(&self, pool: &Pool) -> Reach {
        let (points, terms) = match self.space {
            Space::Points => (Some(self.at.points), None),
            Space::Terms => (None, Some(self.at.terms)),
        };
        Reach {
            points: putting_extent(pool, Space::Points, points, self.value),
            terms: putting_extent(pool, Space::Terms, terms, self.value),
        }
    }

    fn question(&self, id: u64) -> Question {
        let (at, value) = (self.at, self.value);
        Question {
            id,
            change: match self.space {
                Space::Points => VariableChange::PutPoint { at, value },
                Space::Terms => VariableChange::PutTerm { at, value },
            },
        }
    }

    fn variable(
        &self,
        alloc: Global,
        pool: &mut Pool,
        space: Space,
        depth: Counts,
        number: u64,
    ) -> Result<Option<Change>, OutOfMemory> {
        let at = further_in(self.at, depth)?;
        let above = at.of(space);
        if self.space != space {
            return Ok(Some(Change::Renumbered(number)));
        }
        if number < above {
            return Ok(Some(Change::Renumbered(number)));
        }
        if number > above {
            return Ok(Some(Change::Renumbered(number - 1)));
        }
        match weaken(alloc, pool, self.value, at)? {
            Some(raised) => Ok(Some(Change::Replaced(raised))),
            None => Ok(None),
        }
    }
}

/// So many variables of each space, and then so many more. A count that doesn't fit is no count of
/// things in memory.
fn further_in(at: Counts, depth: Counts) -> Result<Counts, OutOfMemory>
    ensures { IfOk result (λ sum. depth_of sum ≡ total (depth_of at) (depth_of depth)) }
{
    Ok(Counts {
        points: at.points.checked_add(depth.points).ok_or(OutOfMemory)?,
        terms: at.terms.checked_add(depth.terms).ok_or(OutOfMemory)?,
    })
}

/// The id of a tree as it is read so much further in: all its variables rise; `None` exactly where some index would reach
/// 2^32.
pub fn weaken(
    alloc: Global,
    pool: &mut Pool,
    id: u64,
    by: Counts,
) -> Result<Option<u64>, OutOfMemory>
    requires live { id < length pool.old.nodes }
    ensures answer { IfOk result (IsAnswerOf pool.new.nodes
        (weakened (depth_of by) (tree_of pool.old.nodes id))) }
    ensures grows { Grows pool.old.nodes pool.new.nodes }
    ensures pool { IsPool pool.new.nodes }
{
    let raising = Raising {
        from: Counts::NONE,
        by,
    };
    rebuild(alloc, pool, &raising, id)
}

/// Shifts the variables of a space in a tree, and answers the new tree's id.
///
/// Those that the tree doesn't bind itself and whose index is at least `from` rise by `by`; the
/// others stay. The answer is `None` exactly where some index in the new tree would reach 2^32.
pub fn shift(
    alloc: Global,
    pool: &mut Pool,
    space: Space,
    id: u64,
    from: u64,
    by: u64,
) -> Result<Option<u64>, OutOfMemory>
    requires live { id < length pool.old.nodes }
    ensures fits { IfOk result (λ new. IsSome new
        ↔ IndicesBelow (2 ^ 32) (shift space from by (tree_of pool.old.nodes id))) }
    ensures within { IfOk result (λ new. IfSome new (λ new. new < length pool.new.nodes)) }
    ensures tree { IfOk result (λ new. IfSome new (λ new. tree_of pool.new.nodes new
        ≡ shift space from by (tree_of pool.old.nodes id))) }
    ensures sort { IfOk result (λ new. IfSome new (λ new. sort_of (tree_of pool.new.nodes new)
        ≡ sort_of (tree_of pool.old.nodes id))) }
    ensures grows { Grows pool.old.nodes pool.new.nodes }
    ensures pool { IsPool pool.new.nodes }
{
    let raising = Raising {
        from: Counts::only(space, from),
        by: Counts::only(space, by),
    };
    rebuild(alloc, pool, &raising, id)
}

/// Puts a value for a variable of a space in a body, and answers the new tree's id.
///
/// The variable is the first of the space behind the first `at` variables of each space, and the
/// value is read behind those as well: it rises by `at`. Further variables of the space lose one.
/// The answer is `None` exactly where some index in the new tree would reach 2^32.
pub fn put(
    alloc: Global,
    pool: &mut Pool,
    space: Space,
    at: Counts,
    body: u64,
    value: u64,
) -> Result<Option<u64>, OutOfMemory>
    requires live { body < length pool.old.nodes }
    requires value { value < length pool.old.nodes }
    requires sort { sort_of (tree_of pool.old.nodes value) ≡ sort_in space }
    ensures fits { IfOk result (λ new. IsSome new
        ↔ IndicesBelow (2 ^ 32) (put space (depth_of at) (tree_of pool.old.nodes value)
        (tree_of pool.old.nodes body))) }
    ensures within { IfOk result (λ new. IfSome new (λ new. new < length pool.new.nodes)) }
    ensures tree { IfOk result (λ new. IfSome new (λ new. tree_of pool.new.nodes new
        ≡ put space (depth_of at) (tree_of pool.old.nodes value)
        (tree_of pool.old.nodes body))) }
    ensures sort { IfOk result (λ new. IfSome new (λ new. sort_of (tree_of pool.new.nodes new)
        ≡ sort_of (tree_of pool.old.nodes body))) }
    ensures grows { Grows pool.old.nodes pool.new.nodes }
    ensures pool { IsPool pool.new.nodes }
{
    rebuild(alloc, pool, &Putting { space, at, value }, body)
}
