// Runs a scenario on pipelines: a network with a pipeline for each switch, or the steps of a scenario on one pipeline. The output is the log
// of handlers that run whole, and the watch is shown the pipes.
// A body that runs handlers whole has no pipes to show, so the clause `shown` refuses it.
// Used by lucid_top. Promises of the program rest on its definitions (docs/TRUSTED.md). Bodies and proofs may change; a public clause may
// only get stronger.
#![tactic(auto)]

mod causes;
mod drive;
mod network;

pub use causes::of_net;
pub use drive::drive_on_pipe;
pub use network::run_on_pipes;
