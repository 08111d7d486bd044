//! Laws of the tokens of a text, whoever reads it.

ghost use Rattle.std.specs.Prelude.{◌≡◌, ℕ, List, All};
ghost use Rattle.std.specs.Str.{IsUtf8};
ghost use Rattle.rz_lex.specs.declared.token.Token.{Token};
ghost use Rattle.rz_lex.specs.Text.{Lexed, IsBadAt, IsWhole};

/// A text has at most one list of tokens.
pub fn one_reading()
    ensures { (text : List ℕ) (these those : List Token)
        → Lexed text these → Lexed text those → these ≡ those }
{}

/// A text has at most one bad token, and none if it has tokens.
pub fn one_ending()
    ensures apart { (text : List ℕ) (tokens : List Token) (line column : ℕ)
        → Lexed text tokens → IsBadAt text line column → ⊥ }
    ensures one { (text : List ℕ) (line column line' column' : ℕ)
        → IsBadAt text line column → IsBadAt text line' column'
        → (line ≡ line') × (column ≡ column') }
{}

/// The tokens of a text that is UTF-8 cut no character, so the text may be sliced by their spans.
pub fn whole_characters()
    ensures { (text : List ℕ) (tokens : List Token)
        → IsUtf8 text → Lexed text tokens → All (IsWhole text) tokens }
{}
