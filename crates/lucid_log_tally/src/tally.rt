// A sink that counts and hashes its bytes, and keeps the beginning of the last line.
ghost use Rattle.std.specs.Prelude.{◌≡◌, ◌<◌, ◌+◌, ◌^◌, [], Some, length};
ghost use Rattle.lucid_base.specs.Hash.{fnv_1a};
ghost use Rattle.lucid_log_tally.specs.Line.{last_line};
ghost use Rattle.lucid_log_tally.specs.Tally.{with_more};

use crate::history::History;
use crate::line::Line;
use lucid_base::{hash_byte, hash_start};
use lucid_io::{Failed, Sink};
use std::marker::Model;

/// A sink that keeps no bytes: of all that was written, which contracts see, it has the count, the hash and the first 83 bytes of the last
/// line. It takes no memory.
#[derive(Drop)]
pub struct Tally {
    count: u64,
    hash: u64,
    line: Line,
    ended: bool,
    faults: u64,
    bytes: History<u8>,
}

impl Model for Tally {
    ghost use Rattle.lucid_log_tally.specs.Tally.{TallyView};

    ghost Value = { TallyView };

    ghost use Rattle.std.specs.Prelude.{◌≡◌, length};
    ghost use Rattle.lucid_base.specs.Hash.{fnv_1a};
    ghost use Rattle.lucid_log_tally.specs.Line.{lines};

    ghost view = { λ t. record { bytes = t.bytes.items; faults = t.faults } };

    ghost invariant = { λ t. (t.count ≡ length t.bytes.items) × (t.hash ≡ fnv_1a t.bytes.items) ×
        (record { kept = t.line; ended = t.ended } ≡ lines t.bytes.items) };
}

impl Tally {
    /// Returns the tally of an empty text.
    pub fn new() -> Tally
        ensures { result ≡ record { bytes = []; faults = 0 } }
    {
        Tally {
            count: 0,
            hash: hash_start(),
            line: Line::new(),
            ended: true,
            faults: 0,
            bytes: History::new(),
        }
    }

    /// Returns how many bytes were written.
    pub fn count(&self) -> u64
        ensures { result ≡ length self.now.bytes }
    {
        self.count
    }

    /// FNV-1a of 64 bits over all written bytes.
    pub fn hash(&self) -> u64
        ensures { result ≡ fnv_1a self.now.bytes }
    {
        self.hash
    }

    /// Returns the first 83 bytes of the last line that was written, without its line feed.
    pub fn line(&self) -> &[u8]
        ensures { result.now ≡ last_line self.now.bytes }
    {
        self.line.bytes()
    }

    // Takes one byte more.
    fn put(&mut self, byte: u8)
        requires { length self.old.bytes + 1 < 2 ^ 64 }
        ensures { self.new ≡ with_more self.old byte }
    {
        self.count += 1;
        self.hash = hash_byte(self.hash, byte);
        if self.ended {
            self.line.clear();
        }
        self.ended = byte == b'\n';
        if !self.ended {
            self.line.push(byte);
        }
        self.bytes = self.bytes.and(&byte);
    }
}

impl Sink for Tally {
    ghost written = { λ t. Some t.bytes };

    ghost faults = { λ t. t.faults };

    /// Takes the whole piece, and no memory. Fails only if 2^64 - 1 bytes would be passed.
    fn write(&mut self, piece: &[u8]) -> Result<usize, Failed> {
        if u64::MAX - self.count() < piece.len() as u64 {
            self.faults = self.faults.saturating_add(1);
            return Err(Failed);
        }
        for byte in piece {
            self.put(*byte);
        }
        Ok(piece.len())
    }
}
