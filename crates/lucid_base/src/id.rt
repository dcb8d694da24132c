// Names of a program: arrays, events, functions and the texts of prints. They compare, and hash, as their texts do.
ghost use Rattle.std.specs.Prelude.{◌≡◌, ◌<◌, Some, IfOk, refl};
ghost use Rattle.std.specs.List.{All};
ghost use Rattle.std.specs.Str.{bytes_eq};
ghost use Rattle.std.specs.Hash as fed;
ghost use Rattle.std.specs.Ordering.{nat_cmp};
ghost use Rattle.std.specs.Cmp.{partial_equiv_from_equiv};
ghost use Rattle.std.specs.Cmp.Lexicographic.{slice_cmp, nat_list_eq_equiv, nat_list_cmp_total, texts_ties, texts_po};
ghost use Rattle.std.specs.Cmp.Rules.{hashing};
ghost use Rattle.std.proofs.Common.{rules};

use crate::Memory;
use smallvec::SmallVec;
use std::alloc::Global;
use std::cmp::Ordering;
use std::hash::{Hash, Hasher};
use std::marker::Model;

/// An ASCII text. Contracts see it as its bytes. Up to 23 bytes are stored in the value itself and take no memory of their own.
#[derive(Debug, Drop)]
pub struct Id {
    bytes: SmallVec<u8, 23>,
}

impl Model for Id {
    ghost use Rattle.std.specs.Prelude.{List, ℕ, ◌<◌};
    ghost use Rattle.std.specs.List.{All};

    ghost Value = { List ℕ };

    ghost view = { λ id. id.bytes.items };

    ghost invariant = { λ id. All (λ b. b < 128) id.bytes.items };
}

impl Id {
    /// Returns the name of these bytes, which are ASCII. Memory is its one error.
    pub fn new(alloc: Global, bytes: &[u8]) -> Result<Id, Memory>
        requires { All (λ b. b < 128) bytes.now }
        ensures { IfOk result (λ id. id ≡ bytes.now) }
    {
        let bytes = SmallVec::from_slice(alloc, bytes)?;
        Ok(Id { bytes })
    }

    /// Returns the bytes of the name.
    pub fn bytes(&self) -> &[u8]
        ensures value { result.now ≡ self.now }
        ensures ascii { All (λ b. b < 128) result.now }
    {
        self.bytes.as_slice()
    }

    /// Returns the name as a text.
    pub fn as_str(&self) -> &str
        ensures { result.now ≡ self.now }
    {
        let bytes = self.bytes.as_slice();
        // SAFETY: each byte is ASCII, and so their text is UTF-8.
        unsafe { std::str::from_utf8_unchecked(bytes) }
    }

    /// Returns a copy of the name, in memory of its own if it is longer than 23 bytes.
    pub fn copy(&self, alloc: Global) -> Result<Id, Memory>
        ensures { IfOk result (λ id. id ≡ self.now) }
    {
        Id::new(alloc, self.bytes.as_slice())
    }
}

impl PartialEq for Id {
    ghost eq = { bytes_eq };

    ghost laws = { partial_equiv_from_equiv nat_list_eq_equiv };

    fn eq(&self, other: &Id) -> bool {
        self.bytes.as_slice() == other.bytes.as_slice()
    }
}

impl Eq for Id {
    ghost laws = { nat_list_eq_equiv };
}

impl PartialOrd for Id {
    ghost partial_cmp = { λ x y. Some (slice_cmp nat_cmp x y) };

    ghost laws = { texts_po };

    fn partial_cmp(&self, other: &Id) -> Option<Ordering> {
        Some(self.cmp(other))
    }
}

impl Ord for Id {
    ghost cmp = { slice_cmp nat_cmp };

    ghost total = { nat_list_cmp_total };

    ghost matches_partial_cmp = { λ x y. refl };

    ghost matches_eq = { texts_ties };

    fn cmp(&self, other: &Id) -> Ordering {
        self.as_str().cmp(other.as_str())
    }
}

impl Hash for Id {
    ghost hash_input = { fed.str };

    ghost respects_eq = { Prim.search (hashing, rules) };

    fn hash<H: Hasher>(&self, state: &mut H) {
        self.as_str().hash(state);
    }
}
