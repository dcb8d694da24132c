// A sink with the history of what it took: its content is all bytes that the sink below accepted.
ghost use Rattle.std.specs.Prelude.{◌≡◌, ◌<◌, ◌≤◌, Some, [], length, IfOk, OnOk, OnErr};
ghost use Rattle.std.specs.Io.{WritesAtMost};
ghost use Rattle.std.specs.Io.KnownBytes.{WriteAppends};
ghost use Rattle.lucid_io.specs.Counts.{Rose};

use crate::files::Failed;
use crate::past::{Note, Past};
use crate::sink::Sink;

/// A sink over another, with no buffer of its own. The content is specified, also where that of the other is not.
#[derive(Drop)]
pub struct RealOut<S: Sink + Drop> {
    sink: S,
    past: Past,
}

impl<S: Sink + Drop> RealOut<S> {
    /// Returns a sink over this one, with nothing taken yet.
    pub fn new(sink: S) -> RealOut<S>
        ensures written { ⟦<RealOut<S> as Sink>⟧.written result ≡ Some [] }
        ensures faults { ⟦<RealOut<S> as Sink>⟧.faults result ≡ S.faults sink }
    {
        RealOut {
            sink,
            past: Past::new(),
        }
    }
}

impl<S: Sink + Drop> Sink for RealOut<S> {
    ghost written = { λ s. Some s.past.taken };

    ghost faults = { λ s. S.faults s.sink };

    /// Writes to the sink below, once.
    fn write(&mut self, piece: &[u8]) -> Result<usize, Failed>
        // the content of the sink below grew by the bytes that are recorded here
        ensures below { WriteAppends (S.written self.old.sink) (S.written self.new.sink) result piece.now }

        // as every sink
        ensures bound { WritesAtMost result piece.now }
        ensures some { 0 < length piece.now → IfOk result (λ n. 0 < n) }
        ensures bytes { WriteAppends (Some self.old.past.taken) (Some self.new.past.taken) result piece.now }
        ensures later { S.faults self.old.sink ≤ S.faults self.new.sink }
        ensures quiet { OnOk result (S.faults self.new.sink ≡ S.faults self.old.sink) }
        ensures cause { OnErr result (Rose (S.faults self.old.sink) (S.faults self.new.sink)) }
    {
        match self.sink.write(piece) {
            Ok(count) => {
                self.past = self.past.then(&Note::Took(piece, count));
                Ok(count)
            }
            Err(failed) => Err(failed),
        }
    }
}
