//! The hashing of names: a key for each table, from the table's own names.

use osek_base::Name;
use sha2::{Digest, Sha256};
use std::hash::{BuildHasher, DefaultHasher, Hasher};

/// Makes the hashers of a table of names. Each begins with the SHA-256 digest of all the table's names: a name that is
/// chosen so that it collides with others changes the key under which it would.
#[derive(Clone, Copy)]
pub(crate) struct KeyedByNames {
    initial: DefaultHasher,
}

impl KeyedByNames {
    /// Keyed by these names, each behind its length in bytes, so that no two lists of names are one message.
    pub(crate) fn new(names: &[Name]) -> Self {
        let mut message = Sha256::new();
        for name in names {
            let text = name.as_str();
            message.update([text.len() as u8]);
            message.update(text);
        }
        let digest = message.finalize();
        let mut initial = DefaultHasher::new();
        initial.write(&digest);
        KeyedByNames { initial }
    }
}

impl BuildHasher for KeyedByNames {
    type Hasher = DefaultHasher;

    ghost build_hasher = { λ names. names.initial };

    fn build_hasher(&self) -> DefaultHasher {
        self.initial
    }
}
