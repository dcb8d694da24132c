// A sink in memory with a bounded capacity, which fails at the writes that its maker chooses. Its content is specified.
ghost use Rattle.std.specs.Prelude.{◌≡◌, ◌↔◌, ◌-◌, ◌<◌, ◌≤◌, Some, [], length, IsTrue, IsErr, IfOk, OnOk, OnErr};
ghost use Rattle.std.specs.Io.{WritesAtMost};
ghost use Rattle.std.specs.Io.KnownBytes.{WriteAppends};
ghost use Rattle.lucid_io.specs.Counts.{Rose};
ghost use Rattle.lucid_io.specs.MemSink.{write_fails, taken_of, after_write, after_failed_write};

use crate::counts::{next_fails, raise};
use crate::files::Failed;
use crate::sink::Sink;
use lucid_base::Memory;
use std::alloc::Global;
use std::marker::Model;

/// Bytes in memory, up to a capacity.
///
/// Contracts see a `MemSinkView` of specs/MemSink, which also defines the effect of each write.
#[derive(Drop)]
pub struct MemSink {
    bytes: Vec<u8>,
    room: usize,
    fails: Vec<u64>,
    calls: u64,
    faults: u64,
}

impl Model for MemSink {
    ghost use Rattle.std.specs.Prelude.{◌≤◌, length, vec_capacity};
    ghost use Rattle.lucid_io.specs.MemSink.{MemSinkView};

    ghost Value = { MemSinkView };

    ghost view = { λ s. record { bytes = s.bytes.items; room = s.room; fails = s.fails.items; calls = s.calls; faults = s.faults } };

    ghost invariant = { λ s. (length s.bytes.items ≤ s.room) × (s.room ≤ vec_capacity s.bytes) };
}

impl MemSink {
    /// Makes an empty sink for `room` bytes, which are allocated here. The writes whose numbers are in `fails` fail; they are numbered
    /// from 0, and the number stays at the last u64.
    pub fn new(alloc: Global, room: usize, fails: Vec<u64>) -> Result<MemSink, Memory>
        ensures { IfOk result (λ s. s ≡ record { bytes = []; room = room; fails = fails.items; calls = 0; faults = 0 }) }
    {
        Ok(MemSink {
            bytes: Vec::with_capacity(alloc, room)?,
            room,
            fails,
            calls: 0,
            faults: 0,
        })
    }

    /// Returns the bytes written, in order.
    pub fn bytes(&self) -> &[u8]
        ensures { result.now ≡ self.now.bytes }
    {
        self.bytes.as_slice()
    }

    // `write`, in exact terms.
    fn put(&mut self, piece: &[u8]) -> Result<usize, Failed>
        ensures fails { IsErr result ↔ IsTrue (write_fails self.old piece.now) }
        ensures taken { IfOk result (λ n. n ≡ taken_of self.old piece.now) }
        ensures ok { OnOk result (self.new ≡ after_write self.old piece.now) }
        ensures err { OnErr result (self.new ≡ after_failed_write self.old) }
    {
        let fails = next_fails(&self.fails, &mut self.calls);
        let left = self.room - self.bytes.len();
        if fails || (0 < piece.len() && left == 0) {
            raise(&mut self.faults);
            return Err(Failed);
        }
        let count = piece.len().min(left);
        match self.bytes.extend_from_slice(&piece[..count]) {
            Ok(()) => Ok(count),
            Err(_) => unreachable!(),
        }
    }
}

impl Sink for MemSink {
    ghost written = { λ s. Some s.bytes };

    ghost faults = { λ s. s.faults };

    /// Allocates nothing. Fails exactly if the write's number is in `fails`, or its piece isn't empty and the sink is full; otherwise
    /// takes as many bytes of the piece as fit.
    fn write(&mut self, piece: &[u8]) -> Result<usize, Failed>
        // exactly
        ensures fails { IsErr result ↔ IsTrue (write_fails self.old piece.now) }
        ensures taken { IfOk result (λ n. n ≡ taken_of self.old piece.now) }
        ensures ok { OnOk result (self.new ≡ after_write self.old piece.now) }
        ensures err { OnErr result (self.new ≡ after_failed_write self.old) }

        // as every sink
        ensures bound { WritesAtMost result piece.now }
        ensures some { 0 < length piece.now → IfOk result (λ n. 0 < n) }
        ensures bytes { WriteAppends (Some self.old.bytes) (Some self.new.bytes) result piece.now }
        ensures later { self.old.faults ≤ self.new.faults }
        ensures quiet { OnOk result (self.new.faults ≡ self.old.faults) }
        ensures cause { OnErr result (Rose self.old.faults self.new.faults) }
    {
        self.put(piece)
    }
}
