//! The topes of a sequent, over the context of its names.

ghost use Rattle.std.specs.Prelude.{◌≡◌, ◌<◌, length, IfOk, IfSome, IfNone};
ghost use Rattle.rz_rules.specs.Tree.{tree_of};
ghost use Rattle.rz_log.specs.World.{Grows, IsSound};
ghost use Rattle.rz_shape.specs.Answer.{AreThere, IsRead};
ghost use Rattle.rz_shape.specs.Reading.{bindings_of, tope_reading};
ghost use Rattle.rz_tope_query.specs.Sequent.{point_binders, question_over, tope_context};
ghost use Rattle.rz_tope_query.specs.Parts.{HasAsked, HasOpened, IsNoReading, IsOpened, IsOver, tope_entry, tope_of};

use crate::contexts::unless_refused;
use rz_log::World;
use rz_pool::Pool;
use rz_rules::{Items, Name, OutOfMemory};
use rz_shape::{Binder, Binders, Variables, topes_are_over_their_cubes};
use rz_solver::with_tope;
use rz_syntax::{Form, Raw};
use std::alloc::Global;

/// What the topes of a sequent are read with: what bound names stand for, and the forms.
#[derive(Debug, Drop)]
pub struct Reader {
    pub variables: Variables,
    pub forms: Items<Form>,
}

/// A context, a step that says that it is formed, and a tope over it.
#[derive(Clone, Copy, Debug, PartialEq, Eq)]
pub struct Asked {
    pub context: u64,
    pub at: u64,
    pub goal: u64,
}

/// A binder of a point for each name.
fn point_binders(alloc: Global, names: &[Name]) -> Result<Binders, OutOfMemory>
    ensures { IfOk result (λ binders. binders ≡ point_binders names.now) }
{
    let mut binders = Binders::new(alloc);
    for _ in 0..names.len() {
        binders.push(Binder::Point)?;
    }
    Ok(binders)
}

impl Reader {
    /// A reader of forms over a context, an id of a node, whose cube entries have these names.
    pub fn new(
        alloc: Global,
        pool: &Pool,
        context: u64,
        names: &[Name],
        forms: Items<Form>,
    ) -> Result<Reader, OutOfMemory>
        requires { context < length pool.now.nodes }
        ensures over { IfOk result (IsOver pool.now.nodes (tree_of pool.now.nodes context)) }
        ensures topes { IfOk result (λ reader. tope_of pool.now.nodes reader ≡ tope_reading
            (bindings_of (tree_of pool.now.nodes context) (point_binders names.now))
            forms (length forms)) }
    {
        let binders = point_binders(alloc, names)?;
        let variables = Variables::new(alloc, pool, context, binders.as_slice())?;
        Ok(Reader { variables, forms })
    }

    /// The tope that a form is, an id of a node; `None` where it is none.
    fn tope(&self, alloc: Global, w: &mut World, raw: Raw) -> Result<Option<u64>, OutOfMemory>
        requires sound { IsSound w.old }
        requires there { AreThere w.old.pool.nodes self.now.variables }
        ensures read { IfOk result (λ found. IfSome found
            (IsRead w.new.pool.nodes (tope_of w.old.pool.nodes self.now raw))) }
        ensures none { IfOk result (λ found. IfNone found
            (IsNoReading (tope_of w.old.pool.nodes self.now raw))) }
        ensures grows { Grows w.old w.new }
    {
        let forms = self.forms.as_slice();
        let answer = self.variables.tope(alloc, &mut w.pool, forms, raw);
        unless_refused(answer)
    }

    /// The context with a tope as an entry more, and a step that says that it is formed; `None`
    /// where the form is no tope.
    fn with_entry(
        &self,
        alloc: Global,
        w: &mut World,
        opened: (u64, u64),
        raw: Raw,
    ) -> Result<Option<(u64, u64)>, OutOfMemory>
        requires sound { IsSound w.old }
        requires opened { IsOpened w.old (tree_of w.old.pool.nodes opened.0) opened }
        requires over { IsOver w.old.pool.nodes (tree_of w.old.pool.nodes opened.0) self.now }
        ensures opened { IfOk result (λ found. IfSome found (HasOpened w.new (tope_entry
            (tope_of w.old.pool.nodes self.now) (tree_of w.old.pool.nodes opened.0) raw))) }
        ensures none { IfOk result (λ found. IfNone found (IsNoReading (tope_entry
            (tope_of w.old.pool.nodes self.now) (tree_of w.old.pool.nodes opened.0) raw))) }
        ensures grows { Grows w.old w.new }
    {
        topes_are_over_their_cubes();
        let Some(tope) = self.tope(alloc, w, raw)? else {
            return Ok(None);
        };
        let longer = with_tope(alloc, w, opened.0, opened.1, tope)?;
        Ok(Some(longer))
    }

    /// The context with topes as its entries, in order, and a step that says that it is formed;
    /// `None` where a form is no tope.
    fn with_entries(
        &self,
        alloc: Global,
        w: &mut World,
        opened: (u64, u64),
        raws: &[Raw],
    ) -> Result<Option<(u64, u64)>, OutOfMemory>
        requires sound { IsSound w.old }
        requires opened { IsOpened w.old (tree_of w.old.pool.nodes opened.0) opened }
        requires over { IsOver w.old.pool.nodes (tree_of w.old.pool.nodes opened.0) self.now }
        ensures opened { IfOk result (λ found. IfSome found (HasOpened w.new (tope_context
            (tope_of w.old.pool.nodes self.now) (tree_of w.old.pool.nodes opened.0) raws.now))) }
        ensures none { IfOk result (λ found. IfNone found (IsNoReading (tope_context
            (tope_of w.old.pool.nodes self.now) (tree_of w.old.pool.nodes opened.0) raws.now))) }
        ensures grows { Grows w.old w.new }
    {
        let mut longer = opened;
        for raw in raws {
            let Some(longest) = self.with_entry(alloc, w, longer, *raw)? else {
                return Ok(None);
            };
            longer = longest;
        }
        Ok(Some(longer))
    }

    /// The context with the hypotheses as its entries, and the goal over it; `None` where a form is
    /// no tope.
    pub fn ask(
        &self,
        alloc: Global,
        w: &mut World,
        opened: (u64, u64),
        hypotheses: &[Raw],
        goal: Raw,
    ) -> Result<Option<Asked>, OutOfMemory>
        requires sound { IsSound w.old }
        requires opened { IsOpened w.old (tree_of w.old.pool.nodes opened.0) opened }
        requires over { IsOver w.old.pool.nodes (tree_of w.old.pool.nodes opened.0) self.now }
        ensures asked { IfOk result (λ found. IfSome found (HasAsked w.new (question_over
            (tope_of w.old.pool.nodes self.now) (tree_of w.old.pool.nodes opened.0)
            hypotheses.now goal))) }
        ensures none { IfOk result (λ found. IfNone found (IsNoReading (question_over
            (tope_of w.old.pool.nodes self.now) (tree_of w.old.pool.nodes opened.0)
            hypotheses.now goal))) }
        ensures grows { Grows w.old w.new }
    {
        topes_are_over_their_cubes();
        let Some(whole) = self.with_entries(alloc, w, opened, hypotheses)? else {
            return Ok(None);
        };
        let Some(tope) = self.tope(alloc, w, goal)? else {
            return Ok(None);
        };
        Ok(Some(Asked {
            context: whole.0,
            at: whole.1,
            goal: tope,
        }))
    }
}
