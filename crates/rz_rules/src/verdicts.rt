//! What is answered of a declaration.

ghost use Rattle.std.specs.Prelude.{◌≡◌, IfOk};

use crate::lists::{Name, TryCopy};
use crate::memory::OutOfMemory;

/// What a question, a run or a comparison was stopped by.
#[derive(Clone, Copy, Debug, PartialEq, Eq)]
pub enum Limit {
    /// Too many new trees in one run.
    Steps,
    /// Comparisons too deep in one another.
    Depth,
    /// A question on topes in which more than eight coordinates occur.
    Coordinates,
}

/// Why a file or a declaration is refused.
#[derive(Debug, Drop, PartialEq, Eq)]
pub enum Refusal {
    /// The file is no UTF-8 from this byte on, counted from 0.
    NotText(u64),
    /// No token begins there.
    BadToken,
    /// The file begins with no language line.
    NoLang,
    /// Brackets and arrows stand too deep in one another.
    TooNested,
    /// The tokens are no file of the grammar.
    Syntax,
    /// A section ends that isn't open, or isn't ended.
    BadSection,
    /// The name is in scope already.
    Duplicate(Name),
    /// The name isn't in scope.
    NotInScope(Name),
    /// A parameter stands where none may.
    Parameter,
    /// The declaration uses this assumption and doesn't say so.
    MissingUses(Name),
    /// The declaration says that it uses this assumption, and doesn't.
    UnusedUses(Name),
    /// The declaration uses this one, which was refused.
    Unaccepted(Name),
    /// A cube, a point, a tope or a term stands where another of them is asked for.
    KindClash,
    /// The cube has more than 64 leaves.
    WideCube,
    /// The point is of another cube.
    BadPoint,
    /// The term is no type.
    NotAType,
    /// The form has no type of its own.
    CannotInfer,
    /// What is applied is no function.
    NotAFunction,
    /// What is projected is no pair.
    NotAPair,
    /// The term is of no identity type.
    NotAnIdentity,
    /// The term is of another type.
    Mismatch,
    /// The tope doesn't hold there.
    TopeFails,
    /// A face's term differs from the whole.
    FaceDiffers,
    /// The topes don't cover the context.
    NotCovered,
    /// Two branches differ where both hold.
    BranchesDiffer,
    /// The context isn't inconsistent.
    NotInconsistent,
    /// A restriction stands where none may.
    LooseRestriction,
    /// A step meets two annotations that differ. They are ids of nodes in the judge's kept world.
    Clash(u64, u64),
    /// A limit was met.
    Limit(Limit),
    /// What the declaration needs isn't judged yet by this program.
    NotBuilt,
}

impl Refusal {
    /// An equal refusal.
    pub fn copy(&self) -> Result<Refusal, OutOfMemory>
        ensures { IfOk result (λ refusal. refusal ≡ self.now) }
    {
        Ok(match self {
            Refusal::NotText(byte) => Refusal::NotText(*byte),
            Refusal::BadToken => Refusal::BadToken,
            Refusal::NoLang => Refusal::NoLang,
            Refusal::TooNested => Refusal::TooNested,
            Refusal::Syntax => Refusal::Syntax,
            Refusal::BadSection => Refusal::BadSection,
            Refusal::Duplicate(name) => Refusal::Duplicate(name.copy()?),
            Refusal::NotInScope(name) => Refusal::NotInScope(name.copy()?),
            Refusal::Parameter => Refusal::Parameter,
            Refusal::MissingUses(name) => Refusal::MissingUses(name.copy()?),
            Refusal::UnusedUses(name) => Refusal::UnusedUses(name.copy()?),
            Refusal::Unaccepted(name) => Refusal::Unaccepted(name.copy()?),
            Refusal::KindClash => Refusal::KindClash,
            Refusal::WideCube => Refusal::WideCube,
            Refusal::BadPoint => Refusal::BadPoint,
            Refusal::NotAType => Refusal::NotAType,
            Refusal::CannotInfer => Refusal::CannotInfer,
            Refusal::NotAFunction => Refusal::NotAFunction,
            Refusal::NotAPair => Refusal::NotAPair,
            Refusal::NotAnIdentity => Refusal::NotAnIdentity,
            Refusal::Mismatch => Refusal::Mismatch,
            Refusal::TopeFails => Refusal::TopeFails,
            Refusal::FaceDiffers => Refusal::FaceDiffers,
            Refusal::NotCovered => Refusal::NotCovered,
            Refusal::BranchesDiffer => Refusal::BranchesDiffer,
            Refusal::NotInconsistent => Refusal::NotInconsistent,
            Refusal::LooseRestriction => Refusal::LooseRestriction,
            Refusal::Clash(left, right) => Refusal::Clash(*left, *right),
            Refusal::Limit(limit) => Refusal::Limit(*limit),
            Refusal::NotBuilt => Refusal::NotBuilt,
        })
    }
}

impl TryCopy for Refusal {
    fn try_copy(&self) -> Result<Refusal, OutOfMemory> {
        self.copy()
    }
}

/// What is answered of a declaration.
#[derive(Debug, Drop, PartialEq, Eq)]
pub enum Verdict {
    Accepted {
        /// The step of the judge's kept log that says what was declared; `None` for cubes and topes.
        claim: Option<u64>,
        /// What a compute command shows; empty elsewhere.
        shown: Name,
    },
    Refused {
        why: Refusal,
        /// The number of a token within the command, from 0.
        at: u64,
    },
}

impl Verdict {
    /// An equal verdict.
    pub fn copy(&self) -> Result<Verdict, OutOfMemory>
        ensures { IfOk result (λ verdict. verdict ≡ self.now) }
    {
        match self {
            Verdict::Accepted { claim, shown } => Ok(Verdict::Accepted {
                claim: *claim,
                shown: shown.copy()?,
            }),
            Verdict::Refused { why, at } => Ok(Verdict::Refused {
                why: why.copy()?,
                at: *at,
            }),
        }
    }
}

impl TryCopy for Verdict {
    fn try_copy(&self) -> Result<Verdict, OutOfMemory> {
        self.copy()
    }
}
