//! The key of the function by which a pool finds an equal node.

ghost use Rattle.std.specs.Prelude.{◌≡◌};
ghost use Rattle.std.specs.List.{fold};
ghost use Rattle.std.specs.Hash as fed;
ghost use Rattle.std.specs.Hash.FoldHasher.{initial, write};

use std::hash::{BuildHasher, FoldHasher, Hasher};

/// The key of a hash function, that of std's `FoldHasher` begun with two words of any value.
///
/// Who knows the key can choose nodes that meet in the pool's table, which makes it slow and no
/// answer wrong. A pool that holds what a stranger wrote is to have a key that the stranger can't
/// choose or foresee, such as a digest of all that was written.
#[derive(Clone, Copy, Debug)]
pub struct HashKey {
    pub first: u64,
    pub second: u64,
}

impl HashKey {
    /// A key that everybody knows, for nodes that nobody chose to meet.
    pub const KNOWN: HashKey = HashKey {
        first: 0,
        second: 0,
    };
}

impl BuildHasher for HashKey {
    type Hasher = FoldHasher;

    ghost build_hasher = { λ key.
        fold write (fold write initial (fed.u64 key.first)) (fed.u64 key.second) };

    fn build_hasher(&self) -> FoldHasher {
        let mut hasher = FoldHasher::default();
        hasher.write_u64(self.first);
        hasher.write_u64(self.second);
        hasher
    }
}
