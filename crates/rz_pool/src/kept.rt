//! Answers that are kept, as many as there is room for: those that were of use last.

ghost use Rattle.std.specs.Prelude.{◌≡◌, [], ◌⊎◌, ℕ, Option, IfSome, Contains};
ghost use Rattle.rz_pool.specs.declared.questions.Question.{Question};
ghost use Rattle.rz_pool.specs.Kept.{pairs_of};

use crate::keys::HashKey;
use crate::questions::Question;
use lru::LruCache;
use std::alloc::Global;
use std::num::NonZeroUsize;

/// How many answers are kept.
const ROOM: usize = 4096;

/// Questions with their answers: the id of the tree that is asked for, or none where an index in it
/// would be too large.
#[derive(Debug, Drop)]
pub struct Kept {
    /// The table, once there is an answer to keep.
    pub table: Option<LruCache<Question, Option<u64>, HashKey>>,
}

impl Kept {
    /// Nothing is kept.
    pub fn nothing() -> Kept
        ensures { pairs_of result.table ≡ [] }
    {
        Kept { table: None }
    }

    /// The answer of a question, if it is kept. It becomes the last one that was of use.
    pub fn find(&mut self, question: Question) -> Option<Option<u64>>
        ensures found { IfSome result (λ answer. Contains (pairs_of self.old.table) (question, answer)) }
        ensures kept { (other : Question) (answer : Option ℕ)
            → Contains (pairs_of self.new.table) (other, answer)
            → Contains (pairs_of self.old.table) (other, answer) }
    {
        match &mut self.table {
            Some(table) => find_in(table, question),
            None => None,
        }
    }

    /// Keeps an answer, unless memory is wanting.
    pub fn put(&mut self, alloc: Global, key: HashKey, question: Question, answer: Option<u64>)
        ensures { (other : Question) (found : Option ℕ)
            → Contains (pairs_of self.new.table) (other, found)
            → Contains (pairs_of self.old.table) (other, found)
            ⊎ ((other ≡ question) × (found ≡ answer)) }
    {
        self.begin(alloc, key);
        if let Some(table) = &mut self.table {
            put_in(table, question, answer);
        }
    }

    /// Makes the table where there is none yet, unless memory is wanting.
    fn begin(&mut self, alloc: Global, key: HashKey)
        ensures { pairs_of self.new.table ≡ pairs_of self.old.table }
    {
        if self.table.is_none() {
            self.table = new_table(alloc, key);
        }
    }

    /// Lets all answers go.
    pub fn clear(&mut self)
        ensures { pairs_of self.new.table ≡ [] }
    {
        if let Some(table) = &mut self.table {
            table.clear();
        }
    }
}

/// An empty table, unless memory is wanting.
fn new_table(alloc: Global, key: HashKey) -> Option<LruCache<Question, Option<u64>, HashKey>>
    ensures { pairs_of result ≡ [] }
{
    let room = NonZeroUsize::new(ROOM)?;
    LruCache::with_hasher(alloc, room, key).ok()
}

/// The answer of a question in a table.
fn find_in(
    table: &mut LruCache<Question, Option<u64>, HashKey>,
    question: Question,
) -> Option<Option<u64>>
    ensures found { IfSome result (λ answer. Contains table.old.entries (question, answer)) }
    ensures kept { (other : Question) (answer : Option ℕ)
        → Contains table.new.entries (other, answer)
        → Contains table.old.entries (other, answer) }
{
    table.get(&question).copied()
}

/// Puts an answer into a table, unless memory is wanting.
fn put_in(
    table: &mut LruCache<Question, Option<u64>, HashKey>,
    question: Question,
    answer: Option<u64>,
)
    ensures { (other : Question) (found : Option ℕ)
        → Contains table.new.entries (other, found)
        → Contains table.old.entries (other, found)
        ⊎ ((other ≡ question) × (found ≡ answer)) }
{
    let _ = table.put(question, answer);
}
