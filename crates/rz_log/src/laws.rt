//! What each step of a sound world keeps. A function of this file does nothing: its clause is the law.

ghost use Rattle.std.specs.Prelude.{ℕ, ◌≤◌, length};
ghost use Rattle.rz_rules.specs.Judgment.{IsStatement, Statement};
ghost use Rattle.rz_metatheory.specs.Derivation.{Derives};
ghost use Rattle.rz_metatheory.specs.Scope.{IsScopedStatement};
ghost use Rattle.rz_log.specs.World.{EndsBelow, Grows, IsSound, Says};
ghost use Rattle.rz_log.specs.declared.world.Mark.{Mark};
ghost use Rattle.rz_log.specs.declared.world.World.{World};

/// Whatever a step of a sound world says is derived.
pub fn derivation()
    ensures { (w : World) (step : ℕ) (says : Statement) → IsSound w → Says w step says
        → Derives says }
{}

/// It has its form: its context and its parts are trees of their sorts.
pub fn statements()
    ensures { (w : World) (step : ℕ) (says : Statement) → IsSound w → Says w step says
        → IsStatement says }
{}

/// It is well scoped: the topes of its context are over what stands before them, each index points
/// to a binder or an entry, each tope is over its place, and each point at which a function on a
/// shape is applied has the shape's cube.
pub fn scoping()
    ensures { (w : World) (step : ℕ) (says : Statement) → IsSound w → Says w step says
        → IsScopedStatement says }
{}

/// As a world grows, a step says what it said.
pub fn growth()
    ensures { (old new : World) (step : ℕ) (says : Statement) → IsSound old → Grows old new
        → Says old step says → Says new step says }
{}

/// A mark that was taken of a world stays one to which it can be taken back: as the world grows, no
/// line before the mark comes to name a node from the mark on.
pub fn marks()
    ensures { (old new : World) (mark : Mark) → Grows old new → mark.lines ≤ length old.log
        → EndsBelow old mark → EndsBelow new mark }
{}
