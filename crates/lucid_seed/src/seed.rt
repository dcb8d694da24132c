// The seed of a table, and its hashers.
ghost use Rattle.std.specs.Prelude.{◌≡◌};
ghost use Rattle.std.specs.Hash.DefaultHasher.{initial};
ghost use Rattle.lucid_seed.specs.Started.{started, with_part};

use std::hash::{BuildHasher, DefaultHasher, Hasher};

/// The seed of a table, absorbed in parts.
#[derive(Clone, Copy)]
pub struct Seed {
    pub parts: DefaultHasher,
}

impl Seed {
    /// Returns a seed before its first part.
    pub fn new() -> Seed
        ensures { result.parts ≡ initial }
    {
        Seed {
            parts: DefaultHasher::new(),
        }
    }

    /// Absorbs one more part, and its end.
    pub fn add(&mut self, bytes: &[u8])
        ensures { self.new.parts ≡ with_part self.old.parts bytes.now }
    {
        self.parts.write(bytes);
        self.parts.write(&[255]);
    }

    /// Makes the hashers of a table with this seed.
    pub fn hashers(&self) -> Seeded
        ensures { result.start ≡ started self.now.parts }
    {
        let seed = self.parts.finish();
        let mut start = DefaultHasher::new();
        start.write(&seed.to_le_bytes());
        Seeded { start }
    }
}

/// Makes hashers that have all taken in one seed.
#[derive(Clone, Copy)]
pub struct Seeded {
    pub start: DefaultHasher,
}

impl Seeded {
    /// Returns hashers that are seeded by this text.
    pub fn by(text: &[u8]) -> Seeded
        ensures { result.start ≡ started (with_part initial text.now) }
    {
        let mut seed = Seed::new();
        seed.add(text);
        seed.hashers()
    }
}

impl BuildHasher for Seeded {
    type Hasher = DefaultHasher;

    ghost build_hasher = { λ s. s.start };

    fn build_hasher(&self) -> DefaultHasher {
        self.start
    }
}
