//! What decides whether a tope follows in a context.

ghost use Rattle.std.specs.Prelude.{◌≡◌, ◌<◌, length, IfOk};
ghost use Rattle.rz_rules.specs.Cube.{binders_of};
ghost use Rattle.rz_rules.specs.Structural.{formed};
ghost use Rattle.rz_rules.specs.Tope.{IsTopeOver};
ghost use Rattle.rz_rules.specs.Tree.{Tree, tree_of};
ghost use Rattle.rz_log.specs.Entail.{IsEntailed};
ghost use Rattle.rz_log.specs.World.{Grows, IsSound, Says, context_at};
ghost use Rattle.rz_log.specs.declared.world.World.{World};

use crate::world::World;
use rz_rules::{OutOfMemory, Ranks};

/// What is answered of a tope in a context.
#[derive(Debug, Drop)]
pub enum Entailed {
    /// The tope follows: this step says that it holds.
    Yes(u64),
    /// The tope doesn't follow: with these ranks of the coordinates that occur, in the order of their first occurrence, the
    /// topes of the context are true, and it is false.
    No(Ranks),
    /// More than eight coordinates occur: so many. Nothing is said of the tope.
    Silent(u64),
}

/// What decides, for any context and tope over it, whether the tope follows from those of the context.
pub trait Entail {
    /// Whatever is kept of earlier answers fits the world.
    ghost fits: { Self → World → Type 0 };

    /// Whether the tope `phi`, an id of a node, follows in the context that the step `at` says to be formed.
    fn entail(&mut self, w: &mut World, at: u64, phi: u64) -> Result<Entailed, OutOfMemory>
        requires sound { IsSound w.old }
        requires fits { fits self.old w.old }
        requires at { Says w.old at (formed (context_at w.old at)) }
        requires live { phi < length w.old.pool.nodes }
        requires over { IsTopeOver (binders_of (context_at w.old at))
            (tree_of w.old.pool.nodes phi) }
        ensures entailed { IfOk result
            (IsEntailed w.new (context_at w.old at) (tree_of w.old.pool.nodes phi)) }
        ensures grows { Grows w.old w.new }
        ensures fits { fits self.new w.new };

    /// Forgets all kept answers. Afterwards the object fits any world.
    fn clear(&mut self)
        ensures { (w : World) → fits self.new w };

    /// What fits a world fits it as it grows.
    ghost stays: { (self : Self) (old new : World) → fits self old → Grows old new
        → fits self new };
}
