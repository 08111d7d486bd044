//! What was read so far, and what is taken from it and put there.

ghost use Rattle.std.specs.Prelude.{◌≡◌, ◌+◌, ◌<◌, ◌^◌, List, [], ◌∷◌, ◌++◌, length, slice_get, All, IfOk, OnOk};
ghost use Rattle.rz_syntax.specs.Building.{last_place, next_place, top_place, without_place, top_operand, without_operand, top_pattern, without_pattern, top_arguments, without_arguments, top_faces, without_faces, top_group, without_group, top_binds, without_binds, with_place, with_operand, with_form, with_pattern, with_arguments, with_faces, with_group, with_binds, with_command, top_name, without_name, without_words, nothing_read};

use crate::forms::{Bind, Command, CubeNames, Form, Pat, Raw, RawFace, Shape, Word};
use crate::lists::Stack;
use rz_rules::{Items, Name, OutOfMemory, Values};
use std::alloc::Global;

/// A form that was read, and the place where its tokens begin: a bracket around it is one of them.
#[derive(Clone, Copy, Debug, PartialEq, Eq)]
pub struct Operand {
    pub start: u64,
    pub raw: Raw,
}

/// What was read so far. Places are numbers of tokens within the command.
#[derive(Debug, Drop)]
pub struct Builder {
    /// The number of the command's first token in the file.
    pub first: u64,
    pub places: Stack<u64>,
    pub operands: Stack<Operand>,
    pub patterns: Stack<Pat>,
    pub arguments: Stack<Values<Raw>>,
    pub faces: Stack<Values<RawFace>>,
    /// The patterns of binders whose type is not yet read.
    pub groups: Stack<Values<Pat>>,
    pub binds: Stack<Values<Bind>>,
    /// The command's name.
    pub name: Option<Word>,
    /// The command's other names, or the names of a sequent that have no cube yet.
    pub words: Items<Word>,
    /// The names of a sequent, with their cubes.
    pub entries: Items<CubeNames>,
    pub shapes: Items<Shape>,
    pub forms: Items<Form>,
    pub commands: Items<Command>,
}

const NO_OPERAND: Operand = Operand {
    start: 0,
    raw: Raw { form: 0, at: 0 },
};

const NO_PATTERN: Pat = Pat { shape: 0, at: 0 };

// What is taken and put.
impl Builder {
    pub fn new(alloc: Global) -> Self
        ensures { result ≡ nothing_read }
    {
        Builder {
            first: 0,
            places: Stack::new(alloc),
            operands: Stack::new(alloc),
            patterns: Stack::new(alloc),
            arguments: Stack::new(alloc),
            faces: Stack::new(alloc),
            groups: Stack::new(alloc),
            binds: Stack::new(alloc),
            name: None,
            words: Items::new(alloc),
            entries: Items::new(alloc),
            shapes: Items::new(alloc),
            forms: Items::new(alloc),
            commands: Items::new(alloc),
        }
    }

    #[tactic(auto, unfolding(crate::specs::Building::last_place))]
    pub fn last_place(&self, read: u64) -> u64
        ensures { result ≡ last_place self.now read }
    {
        read.saturating_sub(1).saturating_sub(self.first)
    }

    #[tactic(auto, unfolding(crate::specs::Building::next_place))]
    pub fn next_place(&self, read: u64) -> u64
        ensures { result ≡ next_place self.now read }
    {
        read.saturating_sub(self.first)
    }

    #[tactic(auto, unfolding(crate::specs::Building::top_place, crate::specs::Building::without_place))]
    pub fn take_place(&mut self) -> u64
        ensures taken { result ≡ top_place self.old }
        ensures rest { self.new ≡ without_place self.old }
    {
        self.places.pop().unwrap_or(0)
    }

    #[tactic(auto, unfolding(crate::specs::Building::top_operand, crate::specs::Building::without_operand))]
    pub fn take_operand(&mut self) -> Operand
        ensures taken { result ≡ top_operand self.old }
        ensures rest { self.new ≡ without_operand self.old }
    {
        self.operands.pop().unwrap_or(NO_OPERAND)
    }

    #[tactic(auto, unfolding(crate::specs::Building::top_pattern, crate::specs::Building::without_pattern))]
    pub fn take_pattern(&mut self) -> Pat
        ensures taken { result ≡ top_pattern self.old }
        ensures rest { self.new ≡ without_pattern self.old }
    {
        self.patterns.pop().unwrap_or(NO_PATTERN)
    }

    #[tactic(auto, unfolding(crate::specs::Building::top_arguments, crate::specs::Building::without_arguments))]
    pub fn take_arguments(&mut self, alloc: Global) -> Values<Raw>
        ensures taken { result ≡ top_arguments self.old }
        ensures rest { self.new ≡ without_arguments self.old }
    {
        self.arguments.pop().unwrap_or(Values::new(alloc))
    }

    #[tactic(auto, unfolding(crate::specs::Building::top_faces, crate::specs::Building::without_faces))]
    pub fn take_faces(&mut self, alloc: Global) -> Values<RawFace>
        ensures taken { result ≡ top_faces self.old }
        ensures rest { self.new ≡ without_faces self.old }
    {
        self.faces.pop().unwrap_or(Values::new(alloc))
    }

    #[tactic(auto, unfolding(crate::specs::Building::top_group, crate::specs::Building::without_group))]
    pub fn take_group(&mut self, alloc: Global) -> Values<Pat>
        ensures taken { result ≡ top_group self.old }
        ensures rest { self.new ≡ without_group self.old }
    {
        self.groups.pop().unwrap_or(Values::new(alloc))
    }

    #[tactic(auto, unfolding(crate::specs::Building::top_binds, crate::specs::Building::without_binds))]
    pub fn take_binds(&mut self, alloc: Global) -> Values<Bind>
        ensures taken { result ≡ top_binds self.old }
        ensures rest { self.new ≡ without_binds self.old }
    {
        self.binds.pop().unwrap_or(Values::new(alloc))
    }

    #[tactic(auto, unfolding(crate::specs::Building::with_place))]
    pub fn put_place(&mut self, at: u64) -> Result<(), OutOfMemory>
        ensures { OnOk result (self.new ≡ with_place self.old at) }
    {
        self.places.push(at)
    }

    #[tactic(auto, unfolding(crate::specs::Building::with_operand))]
    pub fn put_operand(&mut self, start: u64, raw: Raw) -> Result<(), OutOfMemory>
        ensures { OnOk result (self.new ≡ with_operand self.old start raw) }
    {
        self.operands.push(Operand { start, raw })
    }

    // Puts a form into the table and on top.
    #[tactic(auto, unfolding(crate::specs::Building::with_form))]
    pub fn put(&mut self, start: u64, at: u64, form: Form) -> Result<(), OutOfMemory>
        ensures { OnOk result (self.new ≡ with_form self.old start at form) }
    {
        let number = self.forms.len();
        self.forms.push(form)?;
        self.put_operand(start, Raw { form: number, at })
    }

    // Puts a pattern into the table and on top.
    #[tactic(auto, unfolding(crate::specs::Building::with_pattern))]
    pub fn put_pattern(&mut self, at: u64, shape: Shape) -> Result<(), OutOfMemory>
        ensures { OnOk result (self.new ≡ with_pattern self.old at shape) }
    {
        let number = self.shapes.len();
        self.shapes.push(shape)?;
        self.patterns.push(Pat { shape: number, at })
    }

    #[tactic(auto, unfolding(crate::specs::Building::with_arguments))]
    pub fn put_arguments(&mut self, list: Values<Raw>) -> Result<(), OutOfMemory>
        ensures { OnOk result (self.new ≡ with_arguments self.old list) }
    {
        self.arguments.push(list)
    }

    #[tactic(auto, unfolding(crate::specs::Building::with_faces))]
    pub fn put_faces(&mut self, list: Values<RawFace>) -> Result<(), OutOfMemory>
        ensures { OnOk result (self.new ≡ with_faces self.old list) }
    {
        self.faces.push(list)
    }

    #[tactic(auto, unfolding(crate::specs::Building::with_group))]
    pub fn put_group(&mut self, list: Values<Pat>) -> Result<(), OutOfMemory>
        ensures { OnOk result (self.new ≡ with_group self.old list) }
    {
        self.groups.push(list)
    }

    #[tactic(auto, unfolding(crate::specs::Building::with_binds))]
    pub fn put_binds(&mut self, list: Values<Bind>) -> Result<(), OutOfMemory>
        ensures { OnOk result (self.new ≡ with_binds self.old list) }
    {
        self.binds.push(list)
    }

    #[tactic(auto, unfolding(crate::specs::Building::with_command))]
    pub fn put_command(&mut self, command: Command) -> Result<(), OutOfMemory>
        ensures { OnOk result (self.new ≡ with_command self.old command) }
    {
        self.commands.push(command)
    }

    #[tactic(auto, unfolding(crate::specs::Building::top_name, crate::specs::Building::without_name))]
    pub fn take_name(&mut self, alloc: Global) -> Word
        ensures taken { result ≡ top_name self.old }
        ensures rest { self.new ≡ without_name self.old }
    {
        self.name.take().unwrap_or(Word {
            name: Name::new(alloc),
            at: 0,
        })
    }

    #[tactic(auto, unfolding(crate::specs::Building::without_words))]
    pub fn take_words(&mut self, alloc: Global) -> Items<Word>
        ensures taken { result ≡ self.old.words }
        ensures rest { self.new ≡ without_words self.old }
    {
        std::mem::replace(&mut self.words, Items::new(alloc))
    }
}
