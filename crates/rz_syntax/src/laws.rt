//! Laws of the grammar, whoever reads tokens by it.

ghost use Rattle.std.specs.Prelude.{◌≡◌, ℕ, List};
ghost use Rattle.rz_lex.specs.declared.token.Tok.{Tok};
ghost use Rattle.rz_lex.specs.declared.token.Token.{Token};
ghost use Rattle.rz_syntax.specs.declared.action.Step.{Step};
ghost use Rattle.rz_syntax.specs.declared.grammar.Rule.TheVariants as rule;
ghost use Rattle.rz_syntax.specs.declared.forms.Commands.{Commands};
ghost use Rattle.rz_syntax.specs.declared.forms.RawSequent.{RawSequent};
ghost use Rattle.rz_syntax.specs.Grammar.{Gives};
ghost use Rattle.rz_syntax.specs.Source.{IsFile, IsSequent};

/// The grammar is unambiguous: tokens are a file in one way, and say one list of commands.
pub fn one_reading()
    ensures steps { (kinds : List Tok) (these those : List Step)
        → Gives rule.File kinds these → Gives rule.File kinds those → these ≡ those }
    ensures commands { (text : List ℕ) (tokens : List Token) (these those : Commands)
        → IsFile text tokens these → IsFile text tokens those → these ≡ those }
{}

/// The grammar of sequents is unambiguous: tokens are a sequent in one way, and say one.
pub fn one_sequent()
    ensures steps { (kinds : List Tok) (these those : List Step)
        → Gives rule.Sequent kinds these → Gives rule.Sequent kinds those → these ≡ those }
    ensures sequents { (text : List ℕ) (tokens : List Token) (this that : RawSequent)
        → IsSequent text tokens this → IsSequent text tokens that → this ≡ that }
{}
