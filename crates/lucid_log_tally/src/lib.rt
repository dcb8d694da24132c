// A text in one line: its length, its hash and the beginning of its last line. `Tally` is the sink for such a text: contracts see every
// byte that was written (specs/Tally.antt), and it keeps none of them, so it takes no memory. `put_bench` writes the line
// (specs/Bench.antt). The line has the whole ending of a network's log, by a law on a function that does nothing (specs/Endings.antt).
// Used by lucid_top and lucid_top_laws. Promises of the program rest on its definitions (docs/TRUSTED.md). Bodies and proofs may change; a
// public clause may only get stronger.
#![tactic(auto)]

mod bench_line;
mod history;
mod laws;
mod line;
mod tally;

pub use bench_line::put_bench;
pub use laws::ending_is_kept;
pub use tally::Tally;
