//! A law of sequents, whoever reads them.

ghost use Rattle.std.specs.Prelude.{◌≡◌, ℕ, List};
ghost use Rattle.rz_tope_query.specs.Sequent.{Sequent, SaysSequent};

/// A text says one sequent at most.
pub fn one_sequent()
    ensures { (text : List ℕ) (this that : Sequent)
        → SaysSequent text this → SaysSequent text that → this ≡ that }
{
    rz_syntax::one_sequent();
}
