//! Proofs of topes as terms: inferences that name earlier ones.
//!
//! No inference says in which context it is made. It holds in each context that has the hypotheses
//! of the first one and, as tope entries, the assumptions that it leads to and that no case
//! distinction on the way has discharged. So a proof is shared among the branches that use it, and
//! what was inferred in vain is in no one's way.

ghost use Rattle.std.specs.Prelude.{◌≡◌, ℕ, ◌∷◌, ◌++◌, [], Bool, List, length, false, IfOk, OnOk};
ghost use Rattle.rz_rules.specs.declared.nodes.Node.{Node};
ghost use Rattle.rz_rules.specs.Tree.{Tree};
ghost use Rattle.rz_tope_proof.specs.Proving.{Proves};
ghost use Rattle.rz_tope_proof.specs.Leading.{AreMarks, is_marked, leads_by};

use rz_rules::{OutOfMemory, Row};
use std::alloc::Global;
use std::marker::Model;

/// What an inference says. Topes, cubes and points are ids of the pool.
#[derive(Clone, Copy, Debug, PartialEq, Eq)]
pub enum Claim {
    /// A tope of the pool.
    Tope(u64),
    /// The tope that never holds.
    Bottom,
    /// Of two points of the directed interval the first is at most the second.
    AtMost(u64, u64),
    /// Of two points of the directed interval one is at most the other: the first is at most the
    /// second, or the second at most the first.
    Either(u64, u64),
    /// Two points of a cube are equal: the cube, and the points.
    Equal(u64, u64, u64),
}

/// Why an inference's claim holds. Premises are inferences of the same proof, earlier ones.
#[derive(Clone, Copy, Debug, PartialEq, Eq)]
pub enum Reason {
    /// It is the tope of the context's entry behind which so many others stand.
    Hypothesis(u64),
    /// It is assumed, as one side of a disjunction.
    Assumption,
    /// A row without premises, but that the context is formed.
    Axiom(Row),
    /// A row with one premise.
    One(Row, u64),
    /// A row with two premises.
    Two(Row, u64, u64),
    /// It follows in both cases of a disjunction.
    Cases {
        /// The disjunction.
        cover: u64,
        /// The assumption of its first side, and the claim under it.
        left: (u64, u64),
        /// The assumption of its second side, and the claim under it.
        right: (u64, u64),
    },
}

/// An inference.
#[derive(Clone, Copy, Debug, PartialEq, Eq)]
pub struct Inference {
    pub claim: Claim,
    pub reason: Reason,
}

/// Inferences, numbered from 0.
#[derive(Debug, Drop)]
pub struct Proof {
    inferences: Vec<Inference>,
}

impl Model for Proof {
    ghost use Rattle.std.specs.Prelude.{List};
    ghost use Rattle.rz_tope_proof.specs.declared.proof.Inference.{Inference};

    ghost Value = { List Inference };

    ghost view = { λ proof. proof.inferences.items };
}

impl Proof {
    /// No inference yet.
    pub fn new(alloc: Global) -> Proof
        ensures { result ≡ [] }
    {
        Proof {
            inferences: Vec::new(alloc),
        }
    }

    /// All inferences in order.
    pub fn inferences(&self) -> &[Inference]
        ensures { result.now ≡ self.now }
    {
        self.inferences.as_slice()
    }

    /// Adds an inference, and answers its number.
    pub fn infer(&mut self, reason: Reason, claim: Claim) -> Result<u64, OutOfMemory>
        ensures number { IfOk result (λ number. number ≡ length self.old) }
        ensures added { OnOk result
            (self.new ≡ self.old ++ record { claim = claim; reason = reason } ∷ []) }
    {
        let number = self.inferences.len() as u64;
        self.inferences.push(Inference { claim, reason })?;
        Ok(number)
    }

    /// Whether an inference leads to an assumption, a leaf of the proof, discharged or not.
    pub fn leads_to(&self, alloc: Global, inference: u64, leaf: u64) -> Result<bool, OutOfMemory>
        ensures without { IfOk result (λ leads. leads ≡ false
            → (nodes : List Node) (context : Tree) (assumed : List ℕ) (tope : Tree)
            → Proves nodes context self.now (leaf ∷ assumed) inference tope
            → Proves nodes context self.now assumed inference tope) }
        ensures exact { IfOk result (λ leads. (marks : List Bool)
            → length marks ≡ length self.now → AreMarks self.now leaf marks
            → leads ≡ is_marked marks inference) }
    {
        let mut leads: Vec<bool> = Vec::new(alloc);
        for (number, step) in self.inferences.iter().enumerate() {
            let found = number as u64 == leaf || leads_by(&step.reason, &leads);
            leads.push(found)?;
        }
        Ok(is_marked(&leads, inference))
    }
}

/// Whether a premise is marked.
fn is_marked(marks: &[bool], premise: u64) -> bool
    ensures { result ≡ is_marked marks.now premise }
{
    marks.get(premise as usize).copied().unwrap_or(false)
}

/// Whether a premise of an inference is marked.
fn leads_by(reason: &Reason, marks: &[bool]) -> bool
    ensures { result ≡ leads_by marks.now reason.now }
{
    match reason {
        Reason::Hypothesis(_) | Reason::Assumption | Reason::Axiom(_) => false,
        Reason::One(_, premise) => is_marked(marks, *premise),
        Reason::Two(_, first, second) => is_marked(marks, *first) || is_marked(marks, *second),
        Reason::Cases { cover, left, right } => {
            is_marked(marks, *cover) || is_marked(marks, left.1) || is_marked(marks, right.1)
        }
    }
}
