//! Words of the derivation file: each item of a table has one, and no two have the same.

ghost use Rattle.std.specs.Prelude.{◌≡◌, ℕ, List, Some, IfSome, find};
ghost use Rattle.std.specs.Str.{bytes_eq};

/// A table of items with words.
pub trait Worded: Copy + 'static {
    /// The word of an item.
    ghost word_of: { Self → List ℕ };

    /// All items.
    ghost all: { List Self };

    /// The word of an item, in ASCII.
    fn word(&self) -> &'static str
        ensures { result.now ≡ word_of self.now };

    /// All items, in the order of the table.
    fn every() -> &'static [Self]
        ensures { result.now ≡ all };

    /// The item with this word; `None` where no item has it.
    final fn of_word(word: &[u8]) -> Option<Self>
        ensures found { IfSome result (λ item. word_of item ≡ word.now) }
        ensures only { (item : Self) → word_of item ≡ word.now → result ≡ Some item }
    {
        for item in Self::every() {
            if item.word().as_bytes() == word {
                return Some(*item);
            }
        }
        None
    }

    /// The items are told apart by their words, and none is left out.
    ghost words_are_distinct: { (item : Self) → find (λ other. bytes_eq (word_of other) (word_of item)) all ≡ Some item };
}
