//! Contexts of cubes and topes, and steps that say that they are formed.

ghost use Rattle.std.specs.Prelude.{◌≡◌, ◌<◌, ◌≤◌, length, IfOk};
ghost use Rattle.rz_rules.specs.declared.kinds.Sort.TheVariants.{Cube};
ghost use Rattle.rz_rules.specs.Context.{OfCube, OfTope, with_entry};
ghost use Rattle.rz_rules.specs.Cube.{binders_of, leaves};
ghost use Rattle.rz_rules.specs.Structural.{formed};
ghost use Rattle.rz_rules.specs.Tope.{IsTopeOver};
ghost use Rattle.rz_rules.specs.Tree.{blank, sort_of, tree_of};
ghost use Rattle.rz_log.specs.World.{Grows, IsSound, Says};

use crate::topes::make;
use rz_log::World;
use rz_rules::{Judgment, Kind, Line, Numbers, OutOfMemory, Row};
use std::alloc::Global;

/// The context without entries, and a step that says that it is formed.
pub fn empty_context(alloc: Global, w: &mut World) -> Result<(u64, u64), OutOfMemory>
    requires { IsSound w.old }
    ensures live { IfOk result (λ opened. opened.0 < length w.new.pool.nodes) }
    ensures tree { IfOk result (λ opened. tree_of w.new.pool.nodes opened.0 ≡ blank) }
    ensures says { IfOk result (λ opened. Says w.new opened.1 (formed blank)) }
    ensures grows { Grows w.old w.new }
{
    let context = make(alloc, &mut w.pool, Kind::EmptyContext, &[])?;
    let line = Line {
        row: Row::ContextNil,
        number: 0,
        says: Judgment::Formed { c: context },
        from: Numbers::from_slice(alloc, &[])?,
    };
    let step = w.add(line)?;
    Ok((context, step))
}

/// The context with a cube more, of at most 64 leaves, and a step that says that it is formed; the
/// given one says so of the context without the cube.
pub fn with_cube(
    alloc: Global,
    w: &mut World,
    context: u64,
    step: u64,
    cube: u64,
) -> Result<(u64, u64), OutOfMemory>
    requires sound { IsSound w.old }
    requires context { context < length w.old.pool.nodes }
    requires formed { Says w.old step (formed (tree_of w.old.pool.nodes context)) }
    requires cube { cube < length w.old.pool.nodes }
    requires sort { sort_of (tree_of w.old.pool.nodes cube) ≡ Cube }
    requires few { leaves (tree_of w.old.pool.nodes cube) ≤ 64 }
    ensures live { IfOk result (λ opened. opened.0 < length w.new.pool.nodes) }
    ensures tree { IfOk result (λ opened. tree_of w.new.pool.nodes opened.0
        ≡ with_entry (tree_of w.old.pool.nodes context)
        (OfCube (tree_of w.old.pool.nodes cube))) }
    ensures says { IfOk result (λ opened. Says w.new opened.1
        (formed (with_entry (tree_of w.old.pool.nodes context)
        (OfCube (tree_of w.old.pool.nodes cube))))) }
    ensures grows { Grows w.old w.new }
{
    let inner = make(alloc, &mut w.pool, Kind::CubeEntry, &[context, cube])?;
    let line = Line {
        row: Row::ContextCube,
        number: 0,
        says: Judgment::Formed { c: inner },
        from: Numbers::from_slice(alloc, &[step])?,
    };
    let formed_at = w.add(line)?;
    Ok((inner, formed_at))
}

/// The context with a tope more, and a step that says that it is formed; the given one says so of
/// the context without the tope.
pub fn with_tope(
    alloc: Global,
    w: &mut World,
    context: u64,
    step: u64,
    phi: u64,
) -> Result<(u64, u64), OutOfMemory>
    requires sound { IsSound w.old }
    requires context { context < length w.old.pool.nodes }
    requires formed { Says w.old step (formed (tree_of w.old.pool.nodes context)) }
    requires phi { phi < length w.old.pool.nodes }
    requires over { IsTopeOver (binders_of (tree_of w.old.pool.nodes context))
        (tree_of w.old.pool.nodes phi) }
    ensures live { IfOk result (λ opened. opened.0 < length w.new.pool.nodes) }
    ensures tree { IfOk result (λ opened. tree_of w.new.pool.nodes opened.0
        ≡ with_entry (tree_of w.old.pool.nodes context) (OfTope (tree_of w.old.pool.nodes phi))) }
    ensures says { IfOk result (λ opened. Says w.new opened.1
        (formed (with_entry (tree_of w.old.pool.nodes context)
        (OfTope (tree_of w.old.pool.nodes phi))))) }
    ensures grows { Grows w.old w.new }
{
    let inner = make(alloc, &mut w.pool, Kind::TopeEntry, &[context, phi])?;
    let line = Line {
        row: Row::ContextTope,
        number: 0,
        says: Judgment::Formed { c: inner },
        from: Numbers::from_slice(alloc, &[step])?,
    };
    let formed_at = w.add(line)?;
    Ok((inner, formed_at))
}
