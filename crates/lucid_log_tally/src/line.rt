// The first bytes of a line, in a fixed room.
ghost use Rattle.std.specs.Prelude.{◌≡◌, []};
ghost use Rattle.lucid_log_tally.specs.Line.{kept_with};

use std::marker::Model;

// How many bytes of a line are kept: those of an ending of three numbers of 20 digits.
const ROOM: usize = 83;

/// The bytes that are kept of a line.
#[derive(Drop)]
pub(crate) struct Line {
    room: [u8; ROOM],
    len: usize,
}

impl Model for Line {
    ghost use Rattle.std.specs.Prelude.{ℕ, ◌≤◌, List, take};

    ghost Value = { List ℕ };

    ghost view = { λ l. take l.len l.room };

    ghost invariant = { λ l. l.len ≤ 83 };
}

impl Line {
    /// Returns an empty line.
    pub(crate) fn new() -> Line
        ensures { result ≡ [] }
    {
        Line {
            room: [0; ROOM],
            len: 0,
        }
    }

    /// Returns the kept bytes.
    pub(crate) fn bytes(&self) -> &[u8]
        ensures { result.now ≡ self.now }
    {
        &self.room[..self.len]
    }

    /// One byte more, if there is room.
    pub(crate) fn push(&mut self, byte: u8)
        ensures { self.new ≡ kept_with self.old byte }
    {
        if self.len < ROOM {
            self.room[self.len] = byte;
            self.len += 1;
        }
    }

    /// Empties the line.
    pub(crate) fn clear(&mut self)
        ensures { self.new ≡ [] }
    {
        self.len = 0;
    }
}
