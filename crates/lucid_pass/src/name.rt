// The name of a pass: a short text that takes no memory.
ghost use Rattle.std.specs.Prelude.{◌≡◌, ◌≤◌, ◌<◌, ◌∷◌, ◌++◌, [], length, IsTrue, nat_lt};
ghost use Rattle.std.specs.List.{list_all};

use std::marker::Model;

/// At most 16 bytes, each of them ASCII, which contracts see as their list. The cells past the last are 0.
#[derive(Clone, Copy)]
pub struct Name {
    cells: [u8; 16],
    len: usize,
}

impl Model for Name {
    ghost use Rattle.std.specs.Prelude.{ℕ, List, length, take};
    ghost use Rattle.lucid_base.specs.Small.{IsSmall, padded, length-used, padded-used};

    ghost Value = { List ℕ };

    ghost view = { λ n. take n.len n.cells };

    ghost invariant = { λ n. IsSmall 16 0 n.len n.cells };

    ghost inverse = { λ xs. record { cells = padded 16 0 xs; len = length xs } };

    ghost inverse_ok = { λ n small. Prim.rw (padded-used 16 0 n.len n.cells small, length-used 16 0 n.len n.cells small) };
}

impl Name {
    /// This text, which has at most 16 bytes.
    pub fn new(text: &str) -> Name
        requires short { length text.now ≤ 16 }
        requires ascii { IsTrue (list_all (λ b. nat_lt b 128) text.now) }
        ensures { result ≡ text.now }
    {
        let mut name = Name {
            cells: [0; 16],
            len: 0,
        };
        for byte in text.as_bytes() {
            name.push(*byte);
        }
        name
    }

    fn push(&mut self, byte: u8)
        requires { length self.old < 16 }
        ensures { self.new ≡ self.old ++ byte ∷ [] }
    {
        self.cells[self.len] = byte;
        self.len += 1;
    }

    /// Returns the text's bytes.
    pub fn bytes(&self) -> &[u8]
        ensures value { result.now ≡ self.now }
        ensures bound { length result.now ≤ 16 }
    {
        &self.cells[..self.len]
    }
}
