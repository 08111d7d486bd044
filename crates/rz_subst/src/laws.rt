//! The laws of shifts and of substitution, for all trees and both spaces. A function of this module
//! does nothing: its clauses are the law.

ghost use Rattle.std.specs.Prelude.{◌≡◌, ◌+◌, ◌≤◌, ℕ, false};
ghost use Rattle.rz_rules.specs.declared.kinds.Space.{Space};
ghost use Rattle.rz_rules.specs.declared.kinds.Space.TheVariants.{Points, Terms};
ghost use Rattle.rz_rules.specs.Tree.{Tree};
ghost use Rattle.rz_rules.specs.Substitution.{Depth, none, only, total, same_space, shift, weakened, put, NoneFrom};

/// A value that is put for the variable that a shift by one has made free changes nothing.
pub fn put_after_shift()
    ensures { (s : Space) (at : Depth) (value t : Tree) → put s at value (shift s (at s) 1 t) ≡ t }
{}

/// Two shifts commute, in one space and in two.
pub fn shifts_commute()
    ensures one_space { (s : Space) (from later by more : ℕ) (t : Tree) → from ≤ later
        → shift s (later + by) more (shift s from by t) ≡ shift s from by (shift s later more t) }
    ensures two_spaces { (s o : Space) (from by later more : ℕ) (t : Tree) → same_space s o ≡ false
        → shift s from by (shift o later more t) ≡ shift o later more (shift s from by t) }
{}

/// A shift and a substitution commute, in one space and in two: where the shift begins outside of
/// the place of the value, and where it begins inside.
pub fn shift_and_put_commute()
    ensures above { (o s : Space) (at : Depth) (more by : ℕ) (value t : Tree)
        → shift o (at o + more) by (put s at value t)
        ≡ put s at (shift o more by value) (shift o (at o + more + only s 1 o) by t) }
    ensures below { (o s : Space) (at : Depth) (from by : ℕ) (value t : Tree) → from ≤ at o
        → shift o from by (put s at value t)
        ≡ put s (total at (only o by)) value (shift o from by t) }
{}

/// Two substitutions commute, in one space and in two.
pub fn puts_commute()
    ensures { (o s : Space) (at more : Depth) (outer inner t : Tree)
        → put o (total at more) outer (put s at inner t)
        ≡ put s at (put o more outer inner) (put o (total (total at more) (only s 1)) outer t) }
{}

/// A tree without variables of a space from an index on is left as it is.
pub fn closed_trees_stay()
    ensures shift { (s : Space) (from by : ℕ) (t : Tree) → NoneFrom s from t
        → shift s from by t ≡ t }
    ensures put { (s : Space) (at : Depth) (value t : Tree) → NoneFrom s (at s) t
        → put s at value t ≡ t }
{}

/// To rise by nothing changes nothing, to weaken twice is to weaken by the sum, and to weaken is to
/// shift in each space.
pub fn weakening_adds_up()
    ensures shift_zero { (s : Space) (from : ℕ) (t : Tree) → shift s from 0 t ≡ t }
    ensures nothing { (t : Tree) → weakened none t ≡ t }
    ensures twice { (a b : Depth) (t : Tree) → weakened a (weakened b t) ≡ weakened (total a b) t }
    ensures shifts { (by : Depth) (t : Tree) → weakened by t
        ≡ shift Points 0 (by Points) (shift Terms 0 (by Terms) t) }
{}
