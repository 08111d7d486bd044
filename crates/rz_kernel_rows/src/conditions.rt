//! What a row asks beside its premises, and of each tope that is said to hold.

ghost use Rattle.std.specs.Prelude.{◌≡◌, ◌<◌, ◌↔◌, length, All, IsTrue, Some, IsSome, IfOk, OnOk, map};
ghost use Rattle.rz_rules.specs.Tree.{tree_of};
ghost use Rattle.rz_rules.specs.Judgment.{context_of, ids_of, kind_of, parts_of};
ghost use Rattle.rz_rules.specs.Derivation.{IsMet, IsScoped};
ghost use Rattle.rz_pool.specs.Pool.{Grows};
ghost use Rattle.rz_context.specs.Knowledge.{IsKnown};
ghost use Rattle.rz_rule_text.specs.Letters.{IsFound, assignment_of, letter_at};
ghost use Rattle.rz_kernel_rows.specs.Line.{letters_of};

use crate::leaves::is_narrow;
use rz_context::Knowledge;
use rz_pool::Pool;
use rz_rules::{Condition, Judgment, Letter, OutOfMemory};
use std::alloc::Global;

/// Whether the letters, which stand for these trees, meet all conditions.
pub fn are_met(
    alloc: Global,
    pool: &mut Pool,
    known: &mut Knowledge,
    conditions: &[Condition],
    letters: &[Option<u64>],
    name: Option<u64>,
) -> Result<bool, OutOfMemory>
    requires found { All (λ condition. All (IsFound pool.old.nodes letters.now)
        (letters_of condition)) conditions.now }
    requires known { IsKnown pool.old.nodes known.old }
    ensures met { IfOk result (λ yes. IsTrue yes
        ↔ All (IsMet (assignment_of pool.old.nodes letters.now name)) conditions.now) }
    ensures known { OnOk result (IsKnown pool.new.nodes known.new) }
    ensures grows { Grows pool.old.nodes pool.new.nodes }
{
    for condition in conditions {
        if !is_met(alloc, pool, known, *condition, letters, name)? {
            return Ok(false);
        }
    }
    Ok(true)
}

/// Whether the letters meet a condition.
fn is_met(
    alloc: Global,
    pool: &mut Pool,
    known: &mut Knowledge,
    condition: Condition,
    letters: &[Option<u64>],
    name: Option<u64>,
) -> Result<bool, OutOfMemory>
    requires found { All (IsFound pool.old.nodes letters.now) (letters_of condition) }
    requires known { IsKnown pool.old.nodes known.old }
    ensures met { IfOk result (λ yes. IsTrue yes
        ↔ IsMet (assignment_of pool.old.nodes letters.now name) condition) }
    ensures known { OnOk result (IsKnown pool.new.nodes known.new) }
    ensures grows { Grows pool.old.nodes pool.new.nodes }
{
    match condition {
        Condition::FewLeaves(cube) => is_narrow(alloc, pool, id_of(letters, cube)),
        Condition::TopeOver(context, tope) => {
            known.is_over(alloc, pool, id_of(letters, context), id_of(letters, tope))
        }
        Condition::PointOf(context, cube, point) => known.is_point_of(
            alloc,
            pool,
            id_of(letters, context),
            id_of(letters, cube),
            id_of(letters, point),
        ),
    }
}

/// The id of a letter's tree.
fn id_of(letters: &[Option<u64>], letter: Letter) -> u64
    requires { IsSome (letter_at letters.now letter.number) }
    ensures { letter_at letters.now letter.number ≡ Some result }
{
    match letters.get(letter.number as usize) {
        Some(Some(id)) => *id,
        _ => 0,
    }
}

/// Whether each tope that is said to hold is over the context.
pub fn is_scoped(
    alloc: Global,
    pool: &mut Pool,
    known: &mut Knowledge,
    says: Judgment,
) -> Result<bool, OutOfMemory>
    requires there { All (λ id. id < length pool.old.nodes) (ids_of says) }
    requires known { IsKnown pool.old.nodes known.old }
    ensures scoped { IfOk result (λ yes. IsTrue yes ↔ IsScoped (kind_of says)
        (tree_of pool.old.nodes (context_of says)) (map (tree_of pool.old.nodes) (parts_of says))) }
    ensures known { OnOk result (IsKnown pool.new.nodes known.new) }
    ensures grows { Grows pool.old.nodes pool.new.nodes }
{
    match says {
        Judgment::Holds { c, phi } => known.is_over(alloc, pool, c, phi),
        _ => Ok(true),
    }
}
