//! The engine: all ways in which the tokens read so far may begin what the grammar gives.

ghost use Rattle.std.specs.Prelude.{◌≡◌, ◌+◌, ◌<◌, List, [], ◌∷◌, ◌++◌, length, IfOk, OnOk, IfErr};
ghost use Rattle.rz_syntax.specs.Lists.{list_at, Grows};
ghost use Rattle.rz_syntax.specs.Grammar.{alternatives, Gives, kinds_of};
ghost use Rattle.rz_syntax.specs.Threads.{is_ahead, begins, opened, way_at, pending_ways, live_ways, IsIn, IsSound, Keeps, AreEnded, onto, cost, costs, IsStopOf};

use crate::action::Step;
use crate::fault::ParseFault;
use crate::grammar::{Rule, Symbol, alternatives};
use crate::lists::{EMPTY, Lists};
use rz_lex::{Tok, Token};
use rz_rules::{OutOfMemory, Values};
use std::alloc::Global;

/// One way: the list of the symbols that are still expected, and the list of the steps so far, the
/// last one first.
#[derive(Clone, Copy, Debug)]
struct Thread {
    symbols: u64,
    steps: u64,
}

/// The ways before the next token that are yet to be looked at, and those after it.
#[derive(Debug, Drop)]
struct Engine {
    symbols: Lists<Symbol>,
    steps: Lists<Step>,
    pending: Vec<Thread>,
    live: Vec<Thread>,
}

// As many lists of symbols are kept, and then those that are not needed are let go.
const MANY_LISTS: u64 = 65536;

// Whether the token is the one that stands ahead.
fn is_ahead(kind: Tok, ahead: Option<Tok>) -> bool
    ensures { result ≡ is_ahead kind ahead }
{
    match ahead {
        Some(next) => next == kind,
        None => false,
    }
}

// Whether the first token that the symbols take may stand ahead.
fn may_begin(symbols: &[Symbol], ahead: Option<Tok>) -> bool
    ensures { result ≡ begins symbols.now ahead }
{
    for symbol in symbols {
        match *symbol {
            Symbol::One(kind) => return is_ahead(kind, ahead),
            Symbol::Sub(_) => return true,
            Symbol::Do(_) => {}
        }
    }
    true
}

impl Engine {
    // An engine with no way.
    fn new(alloc: Global) -> Self
        ensures symbols { result.symbols ≡ [] ∷ [] }
        ensures steps { result.steps ≡ [] ∷ [] }
        ensures pending { result.pending.items ≡ [] }
        ensures live { result.live.items ≡ [] }
    {
        Engine {
            symbols: Lists::new(alloc),
            steps: Lists::new(alloc),
            pending: Vec::new(alloc),
            live: Vec::new(alloc),
        }
    }

    // Begins with the one way that expects what a rule gives.
    fn begin(&mut self, rule: Rule) -> Result<(), OutOfMemory>
        requires symbols { self.old.symbols ≡ [] ∷ [] }
        requires steps { self.old.steps ≡ [] ∷ [] }
        requires pending { self.old.pending.items ≡ [] }
        requires live { self.old.live.items ≡ [] }
        ensures sound { OnOk result (IsSound self.new) }
        ensures idle { OnOk result (self.new.pending.items ≡ []) }
        ensures live { OnOk result (live_ways self.new ≡ (Symbol.Sub rule ∷ [], []) ∷ []) }
    {
        let symbols = self.symbols.push(Symbol::Sub(rule), EMPTY)?;
        let steps = EMPTY;
        self.live.push(Thread { symbols, steps })?;
        Ok(())
    }

    // Adds the way that an alternative opens, if it may begin with what stands ahead.
    fn open_one(
        &mut self,
        ahead: Option<Tok>,
        one: &[Symbol],
        thread: Thread,
    ) -> Result<(), OutOfMemory>
        requires sound { IsSound self.old }
        requires within { IsIn self.old.symbols self.old.steps thread }
        ensures sound { OnOk result (IsSound self.new) }
        ensures symbols { OnOk result (Grows self.old.symbols self.new.symbols) }
        ensures steps { OnOk result (self.new.steps ≡ self.old.steps) }
        ensures live { OnOk result (live_ways self.new ≡ live_ways self.old) }
        ensures pending { OnOk result (pending_ways self.new ≡ pending_ways self.old
            ++ opened (one.now ∷ []) ahead (way_at self.old.symbols self.old.steps thread)) }
    {
        if may_begin(one, ahead) {
            let symbols = self.symbols.push_all(one, thread.symbols)?;
            let steps = thread.steps;
            self.pending.push(Thread { symbols, steps })?;
        }
        Ok(())
    }

    // Adds the ways that a rule opens.
    fn open(&mut self, ahead: Option<Tok>, rule: Rule, thread: Thread) -> Result<(), OutOfMemory>
        requires sound { IsSound self.old }
        requires within { IsIn self.old.symbols self.old.steps thread }
        ensures sound { OnOk result (IsSound self.new) }
        ensures live { OnOk result (live_ways self.new ≡ live_ways self.old) }
        ensures pending { OnOk result (pending_ways self.new ≡ pending_ways self.old
            ++ opened (alternatives rule) ahead (way_at self.old.symbols self.old.steps thread)) }
    {
        for one in alternatives(rule) {
            self.open_one(ahead, one, thread)?;
        }
        Ok(())
    }

    // Looks at one way: what becomes of it, with what stands ahead.
    fn advance(&mut self, ahead: Option<Tok>, thread: Thread) -> Result<(), OutOfMemory>
        requires sound { IsSound self.old }
        requires within { IsIn self.old.symbols self.old.steps thread }
        ensures sound { OnOk result (IsSound self.new) }
        ensures keeps { OnOk result (Keeps ahead
            (pending_ways self.old ++ way_at self.old.symbols self.old.steps thread ∷ [])
            (live_ways self.old) (pending_ways self.new) (live_ways self.new)) }
        // At the end of the tokens only ways are left that expect nothing.
        ensures ended { ahead ≡ None → AreEnded (live_ways self.old)
            → OnOk result (AreEnded (live_ways self.new)) }
        ensures less { OnOk result (costs (pending_ways self.new)
            < costs (pending_ways self.old) + cost (list_at self.old.symbols thread.symbols)) }
    {
        let Some((symbol, symbols)) = self.symbols.first(thread.symbols) else {
            if ahead.is_none() {
                self.live.push(thread)?;
            }
            return Ok(());
        };
        let steps = thread.steps;
        match symbol {
            Symbol::One(kind) => {
                if is_ahead(kind, ahead) {
                    let steps = self.steps.push(Step::Take, steps)?;
                    self.live.push(Thread { symbols, steps })?;
                }
                Ok(())
            }
            Symbol::Do(action) => {
                let steps = self.steps.push(Step::Act(action), steps)?;
                self.pending.push(Thread { symbols, steps })?;
                Ok(())
            }
            Symbol::Sub(rule) => {
                self.open(ahead, rule, Thread { symbols, steps })?;
                Ok(())
            }
        }
    }

    // Looks at each way, until all are beyond what stands ahead.
    fn settle(&mut self, ahead: Option<Tok>) -> Result<(), OutOfMemory>
        requires sound { IsSound self.old }
        requires idle { self.old.pending.items ≡ [] }
        ensures sound { OnOk result (IsSound self.new) }
        ensures idle { OnOk result (self.new.pending.items ≡ []) }
        ensures keeps { OnOk result (Keeps ahead (live_ways self.old) [] [] (live_ways self.new)) }
        ensures ended { ahead ≡ None → OnOk result (AreEnded (live_ways self.new)) }
    {
        std::mem::swap(&mut self.pending, &mut self.live);
        while let Some(thread) = self.pending.pop() {
            self.advance(ahead, thread)?;
        }
        Ok(())
    }

    // Where many lists of symbols are kept and there is one way, keeps the lists of this way alone.
    fn forget(&mut self, alloc: Global) -> Result<(), OutOfMemory>
        requires sound { IsSound self.old }
        requires idle { self.old.pending.items ≡ [] }
        ensures sound { OnOk result (IsSound self.new) }
        ensures idle { OnOk result (self.new.pending.items ≡ []) }
        ensures live { OnOk result (live_ways self.new ≡ live_ways self.old) }
    {
        if self.symbols.len() < MANY_LISTS {
            return Ok(());
        }
        let live = self.live.as_slice();
        if live.len() != 1 {
            return Ok(());
        }
        let thread = live[0];
        let steps = thread.steps;
        let items = self.symbols.items(alloc, thread.symbols)?;
        let mut kept = Lists::new(alloc);
        let symbols = kept.push_all(items.as_slice(), EMPTY)?;
        self.symbols = kept;
        self.live.clear();
        self.live.push(Thread { symbols, steps })?;
        Ok(())
    }

    // The steps of a way in their order.
    fn script(&self, alloc: Global, list: u64) -> Result<Values<Step>, OutOfMemory>
        requires { list < length self.now.steps }
        ensures { IfOk result (λ steps. steps ≡ onto (list_at self.now.steps list) []) }
    {
        let mut steps = self.steps.items(alloc, list)?;
        steps.reverse();
        let script = Values::from_slice(alloc, steps.as_slice())?;
        Ok(script)
    }
}

/// The steps by which the tokens are read as what a rule gives.
pub fn read(alloc: Global, rule: Rule, tokens: &[Token]) -> Result<Values<Step>, ParseFault>
    ensures steps { IfOk result (λ steps. Gives rule (kinds_of tokens.now) steps) }
    ensures stop { IfErr result (IsStopOf rule (kinds_of tokens.now)) }
{
    let mut engine = Engine::new(alloc);
    engine.begin(rule)?;
    for (number, token) in tokens.iter().enumerate() {
        engine.settle(Some(token.kind))?;
        if engine.live.is_empty() {
            return Err(ParseFault::Syntax {
                token: number as u64,
            });
        }
        engine.forget(alloc)?;
    }
    engine.settle(None)?;
    match engine.live.first() {
        None => Err(ParseFault::Syntax {
            token: tokens.len() as u64,
        }),
        Some(thread) => Ok(engine.script(alloc, thread.steps)?),
    }
}
