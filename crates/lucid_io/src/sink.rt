// Where bytes are written, one piece after another. Every printer above goes by these clauses alone.
ghost use Rattle.std.specs.Prelude.{◌≡◌, ℕ, ◌<◌, ◌≤◌, List, length, IfOk, OnOk, OnErr, Option};
ghost use Rattle.std.specs.Io.{WritesAtMost};
ghost use Rattle.std.specs.Io.KnownBytes.{WriteAppends};
ghost use Rattle.lucid_io.specs.Counts.{Rose};

use crate::files::Failed;

/// A sink of bytes. Written bytes stay, and more are added only at the end.
pub trait Sink {
    /// All bytes that were written, if they are specified.
    ghost written: { Self → Option (List ℕ) };

    /// The number of faults of the sink. It never falls, and may stop at the last u64.
    ghost faults: { Self → ℕ };

    /// Appends the first bytes of the piece, at least one of a piece that isn't empty, and answers how many.
    /// `Failed` appends nothing, and is returned only if the count rose in this call.
    fn write(&mut self, piece: &[u8]) -> Result<usize, Failed>
        ensures bound { WritesAtMost result piece.now }
        ensures some { 0 < length piece.now → IfOk result (λ n. 0 < n) }
        ensures bytes { WriteAppends (written self.old) (written self.new) result piece.now }

        // the count
        ensures later { faults self.old ≤ faults self.new }
        ensures quiet { OnOk result (faults self.new ≡ faults self.old) }
        ensures cause { OnErr result (Rose (faults self.old) (faults self.new)) };
}
