//! What holds of every step, run and comparison.

ghost use Rattle.std.specs.Prelude.{◌≡◌, ◌≢◌, ◌↔◌, ◌<◌, ◌≤◌, ◌+◌, ℕ, zero, suc};
ghost use Rattle.std.specs.Prelude.{All, List, [], ◌∷◌, ◌++◌, Some, length};
ghost use Rattle.std.specs.Bool.{Decides};
ghost use Rattle.rz_rules.specs.declared.verdicts.Limit.TheVariants.{Depth};
ghost use Rattle.rz_rules.specs.declared.kinds.Sort.TheVariants.{Context, Term};
ghost use Rattle.rz_rules.specs.Cube.{binders_of, cube_two};
ghost use Rattle.rz_rules.specs.Tope.{IsPointOf};
ghost use Rattle.rz_rules.specs.Tree.{Tree, IsTree};
ghost use Rattle.rz_rules.specs.Validity.{IsValid, occurring, Entailment, Valid, Invalid, coordinates_limit, entailment};
ghost use Rattle.rz_rules.specs.Same.{same_tree};
ghost use Rattle.rz_rules.specs.Coordinate.{point_of};
ghost use Rattle.rz_reduction.specs.Views.{Eliminator, elimination, whole, spine};
ghost use Rattle.rz_reduction.specs.Views.{introduction, introduced, former, formed_by};
ghost use Rattle.rz_reduction.specs.Piece.{Question, Piece};
ghost use Rattle.rz_reduction.specs.Step.{Redex, redex, meeting, inside, next_piece};
ghost use Rattle.rz_reduction.specs.Step.{step, Ask, NoStep};
ghost use Rattle.rz_reduction.specs.Place.{IsOffFace, AreOffFaces, DoesNotMeet, step_inside};
ghost use Rattle.rz_reduction.specs.Outcome.{Comparison, Limited, Stops, outcome_of};
ghost use Rattle.rz_reduction.specs.Run.{Reached, Stopped, at_limit, run_for, run};
ghost use Rattle.rz_reduction.specs.Comparison.{Answered, conversion, reach};
ghost use Rattle.rz_reduction.specs.Comparison.{depth_of_asks, depth_of_comparison};
ghost use Rattle.rz_reduction.specs.Turn.{EndsRun, Reaches, StepsTo, after_next, after_outcome};
ghost use Rattle.rz_reduction.specs.Turn.{after_step, remainder, run_from};

/// The test of two trees tells whether they are one.
pub fn one_tree()
    ensures { (s t : Tree) → Decides (same_tree s t) (s ≡ t) }
{}

/// What is read off a term is the term: its head within its eliminators, the introduction that it
/// is, and the term of a former.
pub fn views()
    ensures spine { (t : Tree) → IsTree Term t → whole (spine t).head (spine t).eliminators ≡ t }
    ensures introduction { (t : Tree) → IsTree Term t → introduced t (introduction t) ≡ t }
    ensures former { (t : Tree) → IsTree Term t → formed_by t (former t) ≡ t }
{}

/// Each coordinate that occurs in the topes of a context or in another tope is a point of the
/// directed interval over the context.
pub fn coordinates()
    ensures { (context tope : Tree) → IsTree Context context
        → All (λ c. IsPointOf (binders_of context) cube_two (point_of c)) (occurring context tope) }
{}

/// What is answered of a tope: valid and invalid are what every rank list says, where at most eight
/// coordinates occur, and otherwise their number is given.
pub fn questions()
    ensures valid { (C phi : Tree) → (entailment C phi ≡ Valid
        ↔ (length (occurring C phi) ≤ coordinates_limit) × IsValid C phi) }
    ensures invalid { (C phi : Tree) → (entailment C phi ≡ Invalid
        ↔ (length (occurring C phi) ≤ coordinates_limit) × (IsValid C phi → ⊥)) }
    ensures wide { (C phi : Tree) (count : ℕ) → (entailment C phi ≡ Entailment.Over count
        ↔ (coordinates_limit < count) × (count ≡ length (occurring C phi))) }
{}

/// A step at the root of a term is the step at its place: where a term stands within eliminators,
/// and the innermost doesn't meet it, the whole has the term's step, with the same pieces and asks,
/// and a new tree within the eliminators. At each function on a shape among the eliminators the
/// face is asked for the point, and is invalid: neither valid nor too wide.
///
/// What an eliminator makes meets no eliminator. Where the innermost meets the term, that is the
/// step.
pub fn place()
    ensures redexes { (C t : Tree) (es : List Eliminator) → AreOffFaces C es
        → DoesNotMeet C t es → redex C (whole t es) ≡ inside es (redex C t) }
    ensures steps { (C t : Tree) (es : List Eliminator) (answered : ℕ) → AreOffFaces C es
        → DoesNotMeet C t es
        → step C (whole t es) answered ≡ step_inside es (step C t answered) }
    ensures elimination { (C t : Tree) (e : Eliminator) (es : List Eliminator)
        → DoesNotMeet C (elimination e t) es }
    ensures meets { (C t : Tree) (e : Eliminator) (es : List Eliminator) (found : Redex)
        → AreOffFaces C (e ∷ es) → meeting C e (introduction t) ≡ Some found
        → redex C (whole t (e ∷ es)) ≡ inside es found }
{}

/// A step asks for at most three comparisons.
pub fn asks()
    ensures { (C t : Tree) (answered : ℕ) (q : Question)
        → step C t answered ≡ Ask q → answered < 3 }
{}

/// Steps in a row, each of which makes a new tree: two rows join to one, and where a row begins at
/// what so many new trees reach, they and the row's reach what it leads to.
pub fn steps()
    ensures append { (C t u v : Tree) (count more answered : ℕ)
        → StepsTo C (suc count) t answered u → StepsTo C more u 0 v
        → StepsTo C (suc count + more) t answered v }
    ensures reach { (C start t u : Tree) (made count answered : ℕ)
        → Reaches C made start t → StepsTo C count t answered u
        → Reaches C (made + count) start u }
{}

/// What a list of pieces comes to is told by the piece that stands next, where so many comparisons
/// are answered Equal; and by two parts of the list in turn.
pub fn pieces()
    ensures begin { (pieces : List Piece) → remainder 0 pieces ≡ pieces }
    ensures go_on { (below : Question → Comparison) (answered : ℕ) (pieces : List Piece)
        → outcome_of below (remainder answered pieces)
        ≡ after_next below (next_piece answered pieces)
        (outcome_of below (remainder (suc answered) pieces)) }
    ensures append { (below : Question → Comparison) (pieces more : List Piece)
        → outcome_of below (pieces ++ more)
        ≡ after_outcome (outcome_of below pieces) (outcome_of below more) }
{}

/// A run is told by its steps.
///
/// It begins with no ask answered. A new tree is run in its turn, with one less to make and no ask
/// answered; an ask is compared, and where that is Equal, the run goes on from the same term with
/// one more ask answered; each other step ends it. Where no new tree may be made, a new tree and an
/// ask are the limit of steps. So where steps make new trees, without an ask between, the run is
/// the one from the last of them. A term that a run reaches has no step.
pub fn runs()
    ensures begins { (below : Question → Comparison) (left : ℕ) (C t : Tree)
        → run_for below left C t ≡ run_from below left 0 C t }
    ensures goes_on { (below : Question → Comparison) (left answered : ℕ) (C t : Tree)
        → run_from below (suc left) answered C t
        ≡ after_step below t (step C t answered) (λ tree. run_from below left 0 C tree)
        (run_from below (suc left) (suc answered) C t) }
    ensures follows { (below : Question → Comparison) (left count answered : ℕ) (C t u : Tree)
        → StepsTo C (suc count) t answered u
        → run_from below (suc (left + count)) answered C t ≡ run_from below left 0 C u }
    ensures ends { (below : Question → Comparison) (left answered : ℕ) (C t : Tree)
        → EndsRun (step C t answered)
        → run_from below left answered C t ≡ at_limit t (step C t answered) }
    ensures limit { (below : Question → Comparison) (answered : ℕ) (C t : Tree)
        → run_from below zero answered C t ≡ at_limit t (step C t answered) }
    ensures normal { (below : Question → Comparison) (answered : ℕ) (C t u : Tree)
        → run below C t ≡ Reached u → step C u answered ≡ NoStep }
{}

/// A greater depth changes no answer but the limit of depth, the two trees of a clash included. So
/// the bound on depth only withholds answers, and a limit of depth is one at each lesser depth. The
/// same holds of runs, and of what sets two terms apart: the two terms after their runs, and the
/// piece that fails. The asks of a reading's run are one less deep than its comparison.
pub fn depth()
    ensures comparisons { (low high : ℕ) (q : Question) → low ≤ high
        → conversion low q ≢ Limited Depth → conversion high q ≡ conversion low q }
    ensures runs { (low high : ℕ) (C t : Tree) → low ≤ high
        → run (conversion low) C t ≢ Stopped Depth
        → run (conversion high) C t ≡ run (conversion low) C t }
    ensures reaches { (low high : ℕ) (q : Question) → low ≤ high
        → reach (conversion low) q ≢ Answered (Limited Depth)
        → reach (conversion high) q ≡ reach (conversion low) q }
    ensures outcomes { (low high : ℕ) (pieces : List Piece) → low ≤ high
        → outcome_of (conversion low) pieces ≢ Stops Depth
        → outcome_of (conversion high) pieces ≡ outcome_of (conversion low) pieces }
    ensures limits { (low high : ℕ) (q : Question) → low ≤ high
        → conversion high q ≡ Limited Depth → conversion low q ≡ Limited Depth }
    ensures run_limits { (low high : ℕ) (C t : Tree) → low ≤ high
        → run (conversion high) C t ≡ Stopped Depth → run (conversion low) C t ≡ Stopped Depth }
    ensures reading { depth_of_comparison ≡ suc depth_of_asks }
{}
