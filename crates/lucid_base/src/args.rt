// The arguments of an event or of a print.
ghost use Rattle.std.specs.Prelude.{◌≡◌, ◌<◌, ◌≤◌, [], ◌∷◌, ◌++◌, length};

use std::marker::Model;

/// At most 8 numbers, which contracts see as their list. The cells past the last are 0, so equal lists are equal values.
#[derive(Clone, Copy, Debug, PartialEq, Eq)]
pub struct Args {
    cells: [u64; 8],
    len: usize,
}

impl Model for Args {
    ghost use Rattle.std.specs.Prelude.{ℕ, List, length, take};
    ghost use Rattle.lucid_base.specs.Small.{IsSmall, padded, length-used, padded-used};

    ghost Value = { List ℕ };

    ghost view = { λ a. take a.len a.cells };

    ghost invariant = { λ a. IsSmall 8 0 a.len a.cells };

    ghost inverse = { λ xs. record { cells = padded 8 0 xs; len = length xs } };

    ghost inverse_ok = { λ a small. Prim.rw (padded-used 8 0 a.len a.cells small, length-used 8 0 a.len a.cells small) };
}

impl Args {
    /// Returns an empty list.
    pub fn new() -> Args
        ensures { result ≡ [] }
    {
        Args {
            cells: [0; 8],
            len: 0,
        }
    }

    /// Returns these numbers, of which there are at most 8.
    pub fn from_slice(numbers: &[u64]) -> Args
        requires { length numbers.now ≤ 8 }
        ensures { result ≡ numbers.now }
    {
        let mut args = Args::new();
        for number in numbers {
            args.push(*number);
        }
        args
    }

    /// Appends `v` to fewer than 8 numbers.
    pub fn push(&mut self, v: u64)
        requires { length self.old < 8 }
        ensures { self.new ≡ self.old ++ v ∷ [] }
    {
        self.cells[self.len] = v;
        self.len += 1;
    }

    /// Returns the numbers, from the first to the last.
    pub fn as_slice(&self) -> &[u64]
        ensures value { result.now ≡ self.now }
        ensures bound { length result.now ≤ 8 }
    {
        &self.cells[..self.len]
    }
}
