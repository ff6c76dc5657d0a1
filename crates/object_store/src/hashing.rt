//! Hashes of keys.

ghost use Rattle.std.specs.Prelude.{◌≡◌};

use std::hash::{BuildHasher, FoldHasher, Hasher};

/// How tables hash their keys: from a seed. Who does not know it can't choose URLs that all fall on one place of a table.
#[derive(Clone, Copy)]
pub struct KeyHashes {
    // What each hash begins with.
    begin: FoldHasher,
}

impl KeyHashes {
    /// Hashes from this seed, which is to be a random number where others choose the URLs.
    pub fn seeded(seed: u64) -> KeyHashes {
        let mut begin = FoldHasher::default();
        begin.write_u64(seed);
        KeyHashes { begin }
    }
}

impl BuildHasher for KeyHashes {
    type Hasher = FoldHasher;

    ghost build_hasher = { λ hashes. hashes.begin };

    fn build_hasher(&self) -> FoldHasher {
        self.begin
    }
}
