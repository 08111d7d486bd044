//! Answers that a pool keeps, of questions on its trees.

ghost use Rattle.std.specs.Prelude.{◌≡◌, IfSome};
ghost use Rattle.rz_pool.specs.Pool.{IsPool};
ghost use Rattle.rz_pool.specs.Asking.{IsRight};

use crate::pool::Pool;
use crate::questions::Question;

impl Pool {
    /// The answer of a question, where it is known from before: the id of the tree that is asked
    /// for, or none where an index in that tree would reach 2^32.
    pub fn known_answer(&mut self, question: Question) -> Option<Option<u64>>
        ensures right { IfSome result (IsRight self.new.nodes question) }
        ensures nodes { self.new.nodes ≡ self.old.nodes }
        ensures spare { self.new.spare ≡ self.old.spare }
        ensures pool { IsPool self.new.nodes }
    {
        self.kept.find(question)
    }

    /// Lets the answer of a question be known, as long as there is room for it.
    pub fn keep_answer(&mut self, question: Question, answer: Option<u64>)
        requires { IsRight self.old.nodes question answer }
        ensures nodes { self.new.nodes ≡ self.old.nodes }
        ensures spare { self.new.spare ≡ self.old.spare }
        ensures pool { IsPool self.new.nodes }
    {
        let alloc = self.allocator();
        let key = self.hash_key();
        self.kept.put(alloc, key, question, answer);
    }
}
