//! Laws of texts, whoever writes them.

ghost use Rattle.std.specs.Prelude.{◌≡◌, ℕ, List, [], ◌∷◌};
ghost use Rattle.rz_lex.specs.declared.token.Token.{Token};
ghost use Rattle.rz_lex.specs.Text.{Lexed};
ghost use Rattle.rz_syntax.specs.declared.forms.Raw.{Raw};
ghost use Rattle.rz_syntax.specs.declared.forms.Shape.{Shape};
ghost use Rattle.rz_syntax.specs.declared.forms.Form.{Form};
ghost use Rattle.rz_syntax.specs.declared.forms.Commands.{Commands};
ghost use Rattle.rz_syntax.specs.Source.{IsFile};
ghost use Rattle.rz_print.specs.Layout.{term};
ghost use Rattle.rz_print.specs.Text.{Word, text_of};
ghost use Rattle.rz_print.specs.Words.{Spells};
ghost use Rattle.rz_print.specs.Reading.{HaveNames, ReadsAs};
ghost use Rattle.rz_print.specs.Meaning.{IsTerm, NameReadable, Tree};

/// The text of the words of a form is read as these words, by the definition of the tokens of a
/// text, where its names are names.
pub fn words_are_read()
    ensures { (shapes : List Shape) (forms : List Form) (raw : Raw) (words : List Word)
        → Spells shapes forms (term raw ∷ []) words → HaveNames words
        → ReadsAs (text_of words) words }
{}

/// A text is read as one term at most.
pub fn one_term()
    ensures { (text : List ℕ) (these those : Tree)
        → IsTerm text these → IsTerm text those → these ≡ those }
{
    rz_lex::one_reading();
    rz_syntax::one_reading();
}

/// Each form that a command of a file names has a text that is read as it, and so can be printed.
pub fn parsed_forms_are_readable()
    ensures { (text : List ℕ) (tokens : List Token) (commands : Commands)
        → Lexed text tokens → IsFile text tokens commands
        → NameReadable commands.shapes commands.forms commands.list }
{}
