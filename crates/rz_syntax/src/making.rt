//! What the actions make of commands, and all actions in their order.

ghost use Rattle.std.specs.Prelude.{◌≡◌, ◌+◌, ◌<◌, ◌^◌, List, [], ◌∷◌, ◌++◌, length, slice_get, All, IfOk, OnOk};
ghost use Rattle.rz_syntax.specs.Building.{last_bytes, IsSpan, begin, with_name, add_word, define, postulate, check, compute, section, end, assume, set_option, add_names, last_word, after, built, nothing_read, commands_by, sequent_by, name_pattern, named, with_leaf};

use crate::action::{Action, Leaf, Step};
use crate::builder::Builder;
use crate::forms::{Command, Commands, CubeNames, Form, RawSequent, Shape, Word};
use crate::parts::leaf_form;
use rz_lex::Token;
use rz_rules::{Items, Name, OutOfMemory, Values};
use std::alloc::Global;

// The text of the token that was taken last.
#[tactic(auto, unfolding(crate::specs::Building::last_bytes))]
fn last_text<'a>(text: &'a str, tokens: &[Token], read: u64) -> &'a str
    requires { All (IsSpan text.now) tokens.now }
    ensures { result.now ≡ last_bytes text.now tokens.now read }
{
    match tokens.get(read.saturating_sub(1) as usize) {
        Some(token) => &text[token.from as usize..token.to as usize],
        None => "",
    }
}

// Commands.
impl Builder {
    #[tactic(auto, unfolding(crate::specs::Building::begin))]
    fn begin(&mut self, alloc: Global, read: u64)
        ensures { self.new ≡ begin self.old read }
    {
        self.first = read.saturating_sub(1);
        self.name = None;
        self.words = Items::new(alloc);
    }

    #[tactic(auto, unfolding(crate::specs::Building::with_name))]
    fn put_name(&mut self, word: Word)
        ensures { self.new ≡ with_name self.old word }
    {
        self.name = Some(word);
    }

    #[tactic(auto, unfolding(crate::specs::Building::add_word))]
    fn add_word(&mut self, word: Word) -> Result<(), OutOfMemory>
        ensures { OnOk result (self.new ≡ add_word self.old word) }
    {
        self.words.push(word)
    }

    fn define(&mut self, alloc: Global, read: u64) -> Result<(), OutOfMemory>
        ensures { OnOk result (self.new ≡ define self.old read) }
    {
        let first = self.first;
        let count = self.next_place(read);
        let body = self.take_operand().raw;
        let of = self.take_operand().raw;
        let name = self.take_name(alloc);
        let uses = self.take_words(alloc);
        let binds = self.take_binds(alloc);
        self.put_command(Command::Def {
            first,
            count,
            name,
            uses,
            binds,
            of,
            body,
        })
    }

    fn postulate(&mut self, alloc: Global, read: u64) -> Result<(), OutOfMemory>
        ensures { OnOk result (self.new ≡ postulate self.old read) }
    {
        let first = self.first;
        let count = self.next_place(read);
        let of = self.take_operand().raw;
        let name = self.take_name(alloc);
        let uses = self.take_words(alloc);
        let binds = self.take_binds(alloc);
        self.put_command(Command::Post {
            first,
            count,
            name,
            uses,
            binds,
            of,
        })
    }

    fn check(&mut self, read: u64) -> Result<(), OutOfMemory>
        ensures { OnOk result (self.new ≡ check self.old read) }
    {
        let first = self.first;
        let count = self.next_place(read);
        let of = self.take_operand().raw;
        let term = self.take_operand().raw;
        self.put_command(Command::Check {
            first,
            count,
            term,
            of,
        })
    }

    fn compute(&mut self, read: u64) -> Result<(), OutOfMemory>
        ensures { OnOk result (self.new ≡ compute self.old read) }
    {
        let first = self.first;
        let count = self.next_place(read);
        let term = self.take_operand().raw;
        self.put_command(Command::Compute { first, count, term })
    }

    #[tactic(auto, unfolding(crate::specs::Building::without_name))]
    fn section(&mut self, read: u64) -> Result<(), OutOfMemory>
        ensures { OnOk result (self.new ≡ section self.old read) }
    {
        let first = self.first;
        let count = self.next_place(read);
        let name = self.name.take();
        self.put_command(Command::Section { first, count, name })
    }

    #[tactic(auto, unfolding(crate::specs::Building::without_name))]
    fn end(&mut self, read: u64) -> Result<(), OutOfMemory>
        ensures { OnOk result (self.new ≡ end self.old read) }
    {
        let first = self.first;
        let count = self.next_place(read);
        let name = self.name.take();
        self.put_command(Command::End { first, count, name })
    }

    fn assume(&mut self, alloc: Global, read: u64) -> Result<(), OutOfMemory>
        ensures { OnOk result (self.new ≡ assume self.old read) }
    {
        let first = self.first;
        let count = self.next_place(read);
        let of = self.take_operand().raw;
        let names = self.take_words(alloc);
        self.put_command(Command::Assume {
            first,
            count,
            names,
            of,
        })
    }

    fn set_option(&mut self, read: u64) -> Result<(), OutOfMemory>
        ensures { OnOk result (self.new ≡ set_option self.old read) }
    {
        let first = self.first;
        let count = self.next_place(read);
        self.put_command(Command::Option { first, count })
    }
}

// Sequents.
impl Builder {
    #[tactic(auto, unfolding(crate::specs::Building::with_names))]
    fn add_names(&mut self, alloc: Global) -> Result<(), OutOfMemory>
        ensures { OnOk result (self.new ≡ add_names self.old) }
    {
        let cube = self.take_operand().raw;
        let names = self.take_words(alloc);
        self.entries.push(CubeNames { names, cube })
    }
}

// What is made of the last token.
impl Builder {
    fn last_word(
        &self,
        alloc: Global,
        text: &str,
        tokens: &[Token],
        read: u64,
    ) -> Result<Word, OutOfMemory>
        requires { All (IsSpan text.now) tokens.now }
        ensures { IfOk result (λ word. word ≡ last_word text.now tokens.now read self.now) }
    {
        let name = Name::from_text(alloc, last_text(text, tokens, read))?;
        let at = self.last_place(read);
        Ok(Word { name, at })
    }

    fn name_pattern(
        &mut self,
        alloc: Global,
        text: &str,
        tokens: &[Token],
        read: u64,
    ) -> Result<(), OutOfMemory>
        requires { All (IsSpan text.now) tokens.now }
        ensures { OnOk result (self.new ≡ name_pattern text.now tokens.now read self.old) }
    {
        let Word { name, at } = self.last_word(alloc, text, tokens, read)?;
        self.put_pattern(at, Shape::Named { name })
    }

    fn named(
        &mut self,
        alloc: Global,
        text: &str,
        tokens: &[Token],
        read: u64,
    ) -> Result<(), OutOfMemory>
        requires { All (IsSpan text.now) tokens.now }
        ensures { OnOk result (self.new ≡ named text.now tokens.now read self.old) }
    {
        let Word { name, at } = self.last_word(alloc, text, tokens, read)?;
        self.put(at, at, Form::Named { name })
    }

    fn leaf(&mut self, read: u64, leaf: Leaf) -> Result<(), OutOfMemory>
        ensures { OnOk result (self.new ≡ with_leaf self.old read leaf) }
    {
        let place = self.last_place(read);
        self.put(place, place, leaf_form(leaf))
    }

    fn command_name(
        &mut self,
        alloc: Global,
        text: &str,
        tokens: &[Token],
        read: u64,
    ) -> Result<(), OutOfMemory>
        requires { All (IsSpan text.now) tokens.now }
        ensures { OnOk result (self.new
            ≡ with_name self.old (last_word text.now tokens.now read self.old)) }
    {
        let word = self.last_word(alloc, text, tokens, read)?;
        self.put_name(word);
        Ok(())
    }

    fn command_word(
        &mut self,
        alloc: Global,
        text: &str,
        tokens: &[Token],
        read: u64,
    ) -> Result<(), OutOfMemory>
        requires { All (IsSpan text.now) tokens.now }
        ensures { OnOk result (self.new
            ≡ add_word self.old (last_word text.now tokens.now read self.old)) }
    {
        let word = self.last_word(alloc, text, tokens, read)?;
        self.add_word(word)
    }
}

// All actions.
impl Builder {
    /// Does an action, where so many tokens of the text were taken.
    #[tactic(auto, unfolding(crate::specs::Building::after))]
    pub fn act(
        &mut self,
        alloc: Global,
        text: &str,
        tokens: &[Token],
        read: u64,
        action: Action,
    ) -> Result<(), OutOfMemory>
        requires { All (IsSpan text.now) tokens.now }
        ensures { OnOk result (self.new ≡ after text.now tokens.now read action self.old) }
    {
        match action {
            Action::Here => self.put_place(self.next_place(read)),
            Action::OpenArguments => self.put_arguments(Values::new(alloc)),
            Action::OpenFaces => self.put_faces(Values::new(alloc)),
            Action::OpenPatterns => self.put_group(Values::new(alloc)),
            Action::OpenBinds => self.put_binds(Values::new(alloc)),
            Action::AddArgument => self.add_argument(alloc),
            Action::AddFace => self.add_face(alloc),
            Action::AddPattern => self.add_pattern(alloc),
            Action::AddUntyped => self.add_untyped(alloc),
            Action::AddTyped => self.add_typed(alloc),
            Action::AddRestricted => self.add_restricted(alloc),
            Action::NamePattern => self.name_pattern(alloc, text, tokens, read),
            Action::BlankPattern => self.put_pattern(self.last_place(read), Shape::Blank),
            Action::PairPattern => self.pair_pattern(),
            Action::Named => self.named(alloc, text, tokens, read),
            Action::Leaf(leaf) => self.leaf(read, leaf),
            Action::Join(join) => self.join_two(join),
            Action::EqualAt => self.equal_at(),
            Action::First => self.first_part(),
            Action::Second => self.second_part(),
            Action::Apply => self.apply(alloc),
            Action::Bracketed => self.bracketed(),
            Action::Pair => self.pair(),
            Action::ReflAt => self.refl_at(),
            Action::ReflTyped => self.refl_typed(),
            Action::IdJ => self.induction(alloc),
            Action::RecOr => self.cases(alloc),
            Action::Restrict => self.restrict(alloc),
            Action::Arrow => self.arrow(),
            Action::Arrows => self.arrows(alloc),
            Action::Sigma => self.sigma(),
            Action::Lambda => self.lambda(alloc),
            Action::Begin => {
                self.begin(alloc, read);
                Ok(())
            }
            Action::CommandName => self.command_name(alloc, text, tokens, read),
            Action::AddWord => self.command_word(alloc, text, tokens, read),
            Action::AddNames => self.add_names(alloc),
            Action::Define => self.define(alloc, read),
            Action::Postulate => self.postulate(alloc, read),
            Action::Check => self.check(read),
            Action::Compute => self.compute(read),
            Action::Section => self.section(read),
            Action::End => self.end(read),
            Action::Assume => self.assume(alloc, read),
            Action::SetOption => self.set_option(read),
        }
    }
}

// What was read by the steps of the tokens of a text.
fn builder_after(
    alloc: Global,
    text: &str,
    tokens: &[Token],
    steps: &[Step],
) -> Result<Builder, OutOfMemory>
    requires { All (IsSpan text.now) tokens.now }
    ensures { IfOk result
        (λ builder. builder ≡ built text.now tokens.now 0 steps.now nothing_read) }
{
    let mut builder = Builder::new(alloc);
    let mut read = 0;
    for step in steps {
        match *step {
            Step::Take => read += 1,
            Step::Act(action) => builder.act(alloc, text, tokens, read, action)?,
        }
    }
    Ok(builder)
}

/// What the steps make of the tokens of a text, as the commands of a file.
pub fn build(
    alloc: Global,
    text: &str,
    tokens: &[Token],
    steps: &[Step],
) -> Result<Commands, OutOfMemory>
    requires { All (IsSpan text.now) tokens.now }
    ensures { IfOk result (λ commands. commands ≡ commands_by text.now tokens.now steps.now) }
{
    let Builder {
        shapes,
        forms,
        commands,
        ..
    } = builder_after(alloc, text, tokens, steps)?;
    Ok(Commands {
        shapes,
        forms,
        list: commands,
    })
}

/// What the steps make of the tokens of a text, as a sequent.
#[tactic(auto, unfolding(crate::specs::Building::top_arguments, crate::specs::Building::without_operand, crate::specs::Building::without_arguments))]
pub fn build_sequent(
    alloc: Global,
    text: &str,
    tokens: &[Token],
    steps: &[Step],
) -> Result<RawSequent, OutOfMemory>
    requires { All (IsSpan text.now) tokens.now }
    ensures { IfOk result (λ sequent. sequent ≡ sequent_by text.now tokens.now steps.now) }
{
    let mut builder = builder_after(alloc, text, tokens, steps)?;
    let goal = builder.take_operand().raw;
    let hypotheses = builder.take_arguments(alloc);
    let Builder {
        shapes,
        forms,
        entries,
        ..
    } = builder;
    Ok(RawSequent {
        shapes,
        forms,
        names: entries,
        hypotheses,
        goal,
    })
}
