//! Substitution in shared trees.
//!
//! A call visits each node below an id at most once for each depth at which it stands, and a value
//! once for each depth at which it is put, so the work doesn't grow with the sizes of the trees. It
//! visits less where the pool tells what is free in a tree:
//!
//! - A node that has no variable which may change is its own answer, and nothing below it is
//!   visited. So it is with the kids of constants and postulates, which are closed.
//! - Depths at which a node has the same answer are visited as one. They are those at which all its
//!   free variables are further out than the one that is put, or than the first that rises; the pool
//!   tells that by the least of their indices, as far as it has it. Nor is the depth of account in a
//!   space in which nothing changes, unless the value that is put has variables of it. So in a tower
//!   of trees `pi x x` with the variable that is put at its foot, each node is visited twice.
//!
//! A refusal may leave some new nodes in the pool.
//!
//! An id may stand for a tree of any sort. In a context no entry binds anything: each entry counts
//! as if it stood where the context does, though the entries after the first are read further in.
//! So no rule of a derivation shifts or puts into a context as a whole.
#![tactic(auto)]

ghost use Rattle.std.specs.Prelude.{◌≡◌, ◌<◌, ◌^◌, length, IfOk};
ghost use Rattle.rz_rules.specs.declared.kinds.Sort.TheVariants.{Point, Term};
ghost use Rattle.rz_rules.specs.declared.kinds.Space.TheVariants.{Points, Terms};
ghost use Rattle.rz_rules.specs.Tree.{sort_of, tree_of};
ghost use Rattle.rz_rules.specs.Substitution.{IndicesBelow, none, shift, put};
ghost use Rattle.rz_pool.specs.Pool.{Grows, IsPool};

mod changes;
mod going;
pub mod laws;
mod made;
mod tasks;
mod walk;

pub use changes::{put, shift, weaken};
use rz_pool::{Counts, Pool};
use rz_rules::{OutOfMemory, Space};
use std::alloc::Global;

/// Shifts the cube variables of a tree, and answers the new tree's id.
///
/// Those that the tree doesn't bind itself and whose index is at least `from` rise by `by`; the
/// others stay. `shift` is the test of the condition on the indices.
pub fn shift_points(
    alloc: Global,
    pool: &mut Pool,
    id: u64,
    from: u64,
    by: u64,
) -> Result<u64, OutOfMemory>
    requires live { id < length pool.old.nodes }
    requires indices { IndicesBelow (2 ^ 32) (shift Points from by (tree_of pool.old.nodes id)) }
    ensures within { IfOk result (λ new. new < length pool.new.nodes) }
    ensures tree { IfOk result (λ new. tree_of pool.new.nodes new
        ≡ shift Points from by (tree_of pool.old.nodes id)) }
    ensures sort { IfOk result (λ new. sort_of (tree_of pool.new.nodes new)
        ≡ sort_of (tree_of pool.old.nodes id)) }
    ensures grows { Grows pool.old.nodes pool.new.nodes }
{
    match shift(alloc, pool, Space::Points, id, from, by)? {
        Some(new) => Ok(new),
        None => unreachable!(),
    }
}

/// Shifts the term variables of a tree, and answers the new tree's id.
///
/// Those that the tree doesn't bind itself and whose index is at least `from` rise by `by`; the
/// others stay. `shift` is the test of the condition on the indices.
pub fn shift_terms(
    alloc: Global,
    pool: &mut Pool,
    id: u64,
    from: u64,
    by: u64,
) -> Result<u64, OutOfMemory>
    requires live { id < length pool.old.nodes }
    requires indices { IndicesBelow (2 ^ 32) (shift Terms from by (tree_of pool.old.nodes id)) }
    ensures within { IfOk result (λ new. new < length pool.new.nodes) }
    ensures tree { IfOk result (λ new. tree_of pool.new.nodes new
        ≡ shift Terms from by (tree_of pool.old.nodes id)) }
    ensures sort { IfOk result (λ new. sort_of (tree_of pool.new.nodes new)
        ≡ sort_of (tree_of pool.old.nodes id)) }
    ensures grows { Grows pool.old.nodes pool.new.nodes }
{
    match shift(alloc, pool, Space::Terms, id, from, by)? {
        Some(new) => Ok(new),
        None => unreachable!(),
    }
}

/// Puts a point for the cube variable with index 0 of a body, and answers the new tree's id.
///
/// The other cube variables that the body doesn't bind itself lose one. `put` is the test of the
/// condition on the indices.
pub fn put_point(alloc: Global, pool: &mut Pool, body: u64, point: u64) -> Result<u64, OutOfMemory>
    requires live { body < length pool.old.nodes }
    requires point { point < length pool.old.nodes }
    requires sort { sort_of (tree_of pool.old.nodes point) ≡ Point }
    requires indices { IndicesBelow (2 ^ 32)
        (put Points none (tree_of pool.old.nodes point) (tree_of pool.old.nodes body)) }
    ensures within { IfOk result (λ new. new < length pool.new.nodes) }
    ensures tree { IfOk result (λ new. tree_of pool.new.nodes new
        ≡ put Points none (tree_of pool.old.nodes point) (tree_of pool.old.nodes body)) }
    ensures sort { IfOk result (λ new. sort_of (tree_of pool.new.nodes new)
        ≡ sort_of (tree_of pool.old.nodes body)) }
    ensures grows { Grows pool.old.nodes pool.new.nodes }
{
    match put(alloc, pool, Space::Points, Counts::NONE, body, point)? {
        Some(new) => Ok(new),
        None => unreachable!(),
    }
}

/// Puts a term for the term variable with index 0 of a body, and answers the new tree's id.
///
/// The other term variables that the body doesn't bind itself lose one. `put` is the test of the
/// condition on the indices.
pub fn put_term(alloc: Global, pool: &mut Pool, body: u64, value: u64) -> Result<u64, OutOfMemory>
    requires live { body < length pool.old.nodes }
    requires value { value < length pool.old.nodes }
    requires sort { sort_of (tree_of pool.old.nodes value) ≡ Term }
    requires indices { IndicesBelow (2 ^ 32)
        (put Terms none (tree_of pool.old.nodes value) (tree_of pool.old.nodes body)) }
    ensures within { IfOk result (λ new. new < length pool.new.nodes) }
    ensures tree { IfOk result (λ new. tree_of pool.new.nodes new
        ≡ put Terms none (tree_of pool.old.nodes value) (tree_of pool.old.nodes body)) }
    ensures sort { IfOk result (λ new. sort_of (tree_of pool.new.nodes new)
        ≡ sort_of (tree_of pool.old.nodes body)) }
    ensures grows { Grows pool.old.nodes pool.new.nodes }
{
    match put(alloc, pool, Space::Terms, Counts::NONE, body, value)? {
        Some(new) => Ok(new),
        None => unreachable!(),
    }
}
