//! The solver: an answer for each tope over each context.

ghost use Rattle.std.specs.Prelude.{◌≡◌, ◌<◌, ◌≤◌, length, IfOk};
ghost use Rattle.rz_rules.specs.Structural.{formed};
ghost use Rattle.rz_rules.specs.Cube.{binders_of};
ghost use Rattle.rz_rules.specs.Tope.{IsTopeOver};
ghost use Rattle.rz_rules.specs.Tree.{Tree, tree_of};
ghost use Rattle.rz_rules.specs.Validity.{occurring};
ghost use Rattle.rz_pool.specs.Pool.{IsPool};
ghost use Rattle.rz_pool.specs.Pool as pool_is;
ghost use Rattle.rz_metatheory.specs.SmallOrders.{IsSequent};
ghost use Rattle.rz_log.specs.Entail.{IsEntailed};
ghost use Rattle.rz_log.specs.World.{Grows, IsSound, Says, context_at};
ghost use Rattle.rz_log.specs.declared.world.World.{World};
ghost use Rattle.rz_solver.specs.Answer.{IsAnswer};

use crate::writing::write;
use rz_log::laws::{derivation, scoping};
use rz_log::{Entail, Entailed, World};
use rz_metatheory::laws::validity;
use rz_pool::Pool;
use rz_rules::{Coord, OutOfMemory, Ranks};
use rz_tope::occurring;
use rz_tope_normal::read;
use rz_tope_proof::{MOST_COORDINATES, Proof};
use rz_tope_search::{Found, prove, ranks, root_branch};
use std::alloc::Global;

/// What is found of a tope.
#[derive(Drop)]
pub(crate) enum Answer {
    /// A proof, and the inference in it that says the tope.
    Proved(Proof, u64),
    /// Ranks of the coordinates that occur, which make the topes of the context true and not the tope.
    Refuted(Ranks),
}

/// Proves a tope from those of a context, or refutes it, where at most eight coordinates occur.
fn decide(
    alloc: Global,
    pool: &mut Pool,
    context: u64,
    tope: u64,
    list: &[Coord],
) -> Result<Answer, OutOfMemory>
    requires context { context < length pool.old.nodes }
    requires tope { tope < length pool.old.nodes }
    requires sequent { IsSequent (tree_of pool.old.nodes context) (tree_of pool.old.nodes tope) }
    requires list { list.now
        ≡ occurring (tree_of pool.old.nodes context) (tree_of pool.old.nodes tope) }
    requires few { length list.now ≤ 8 }
    ensures answer { IfOk result (IsAnswer pool.new.nodes (tree_of pool.old.nodes context)
        (tree_of pool.old.nodes tope)) }
    ensures grows { pool_is.Grows pool.old.nodes pool.new.nodes }
    ensures pool { IsPool pool.new.nodes }
{
    let mut proof = Proof::new(alloc);
    let answer = read(alloc, pool, context, tope, list, &mut proof);
    let _ = pool.len();
    let sequent = answer?;
    let parts = sequent.parts.as_slice();
    let given = sequent.given.as_slice();
    let places = &sequent.places;
    let root = root_branch(alloc, parts, places, &mut proof, given)?;
    let found = prove(alloc, parts, places, &mut proof, &root, sequent.goal)?;
    match found {
        Found::Proved(step) => Ok(Answer::Proved(proof, step)),
        Found::Refuted(table) => {
            let refuting = ranks(alloc, places, &table, list)?;
            Ok(Answer::Refuted(refuting))
        }
    }
}

/// Whether a tope follows in a context that a step says to be formed.
///
/// Where it doesn't follow, no node is left in the pool that was made on the way.
fn solve(alloc: Global, w: &mut World, at: u64, phi: u64) -> Result<Entailed, OutOfMemory>
    requires sound { IsSound w.old }
    requires at { Says w.old at (formed (context_at w.old at)) }
    requires live { phi < length w.old.pool.nodes }
    requires over { IsTopeOver (binders_of (context_at w.old at))
        (tree_of w.old.pool.nodes phi) }
    ensures entailed { IfOk result
        (IsEntailed w.new (context_at w.old at) (tree_of w.old.pool.nodes phi)) }
    ensures grows { Grows w.old w.new }
{
    derivation();
    scoping();
    validity();
    let context = w.log.line(at).says.context();
    let list = occurring(alloc, &mut w.pool, context, phi)?;
    let count = list.len();
    if count > MOST_COORDINATES as u64 {
        return Ok(Entailed::Silent(count));
    }
    let mark = w.mark();
    let answer = decide(alloc, &mut w.pool, context, phi, list.as_slice())?;
    match answer {
        Answer::Proved(proof, step) => {
            let step = write(alloc, w, at, &proof, step)?;
            Ok(Entailed::Yes(step))
        }
        Answer::Refuted(ranks) => {
            w.release(mark);
            Ok(Entailed::No(ranks))
        }
    }
}

/// The solver. It keeps no answers.
#[derive(Debug, Drop)]
pub struct Solver {
    alloc: Global,
}

impl Solver {
    /// A solver that works in the given allocator.
    pub fn new(alloc: Global) -> Solver {
        Solver { alloc }
    }
}

impl Entail for Solver {
    ghost fits = { λ solver w. Unit {0} };

    fn entail(&mut self, w: &mut World, at: u64, phi: u64) -> Result<Entailed, OutOfMemory> {
        let entailed = solve(self.alloc, w, at, phi)?;
        Ok(entailed)
    }

    fn clear(&mut self) {}

    ghost stays = { λ solver old new fits grows. tt };
}
