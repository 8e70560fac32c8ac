//! How tables hash keys that somebody else chooses.
#![tactic(auto)]

use std::hash::{BuildHasher, DefaultHasher, Hasher};

/// Begins the hash of each key where that of the text that they stand in ended (SipHash-1-3, of 256 bits of state). So whoever
/// chooses the keys changes all hashes with each change of one key, and cannot choose keys one by one that fall into one bucket.
#[derive(Clone, Copy)]
pub struct Keyed {
    begun: DefaultHasher,
}

impl Keyed {
    /// Behind these bytes.
    pub fn behind(bytes: &[u8]) -> Keyed {
        let mut begun = DefaultHasher::new();
        begun.write(bytes);
        Keyed { begun }
    }
}

impl BuildHasher for Keyed {
    type Hasher = DefaultHasher;

    ghost build_hasher = { λ s. s.begun };

    fn build_hasher(&self) -> DefaultHasher {
        self.begun
    }
}
