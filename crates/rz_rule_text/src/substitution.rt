//! Substitution and shifts as texts have them.

ghost use Rattle.std.specs.Prelude.{◌≡◌, ◌<◌, ◌^◌, length, IfOk, IfSome, IsSome, ◌↔◌};
ghost use Rattle.rz_rules.specs.Form.{sort_in};
ghost use Rattle.rz_rules.specs.Tree.{sort_of, tree_of};
ghost use Rattle.rz_rules.specs.Substitution.{IndicesBelow, none, put as put_tree, shift as shift_tree};
ghost use Rattle.rz_pool.specs.Pool.{Grows, IsPool};

use rz_pool::{Counts, Pool};
use rz_rules::{OutOfMemory, Space};
use std::alloc::Global;

/// The id of a body with a value for its innermost variable; `None` where an index would reach 2^32.
pub fn put(
    alloc: Global,
    pool: &mut Pool,
    space: Space,
    body: u64,
    value: u64,
) -> Result<Option<u64>, OutOfMemory>
    requires pool { IsPool pool.old.nodes }
    requires body { body < length pool.old.nodes }
    requires value { value < length pool.old.nodes }
    requires sort { sort_of (tree_of pool.old.nodes value) ≡ sort_in space }
    ensures fits { IfOk result (λ new. IsSome new
        ↔ IndicesBelow (2 ^ 32)
        (put_tree space none (tree_of pool.old.nodes value) (tree_of pool.old.nodes body))) }
    ensures within { IfOk result (λ new. IfSome new (λ id. id < length pool.new.nodes)) }
    ensures tree { IfOk result (λ new. IfSome new (λ id. tree_of pool.new.nodes id
        ≡ put_tree space none (tree_of pool.old.nodes value) (tree_of pool.old.nodes body))) }
    ensures sort { IfOk result (λ new. IfSome new (λ id.
        sort_of (tree_of pool.new.nodes id) ≡ sort_of (tree_of pool.old.nodes body))) }
    ensures grows { Grows pool.old.nodes pool.new.nodes }
    ensures pool { IsPool pool.new.nodes }
{
    rz_subst::put(alloc, pool, space, Counts::NONE, body, value)
}

/// The id of a tree whose variables from an index on rise by one; `None` where an index would reach 2^32.
pub fn raise(
    alloc: Global,
    pool: &mut Pool,
    space: Space,
    id: u64,
    from: u32,
) -> Result<Option<u64>, OutOfMemory>
    requires pool { IsPool pool.old.nodes }
    requires live { id < length pool.old.nodes }
    ensures fits { IfOk result (λ new. IsSome new
        ↔ IndicesBelow (2 ^ 32) (shift_tree space from 1 (tree_of pool.old.nodes id))) }
    ensures within { IfOk result (λ new. IfSome new (λ id. id < length pool.new.nodes)) }
    ensures tree { IfOk result (λ new. IfSome new (λ made.
        tree_of pool.new.nodes made ≡ shift_tree space from 1 (tree_of pool.old.nodes id))) }
    ensures sort { IfOk result (λ new. IfSome new (λ made.
        sort_of (tree_of pool.new.nodes made) ≡ sort_of (tree_of pool.old.nodes id))) }
    ensures grows { Grows pool.old.nodes pool.new.nodes }
    ensures pool { IsPool pool.new.nodes }
{
    rz_subst::shift(alloc, pool, space, id, u64::from(from), 1)
}
