// Laws of networks whose packets are in flight.
// Promises: for any stages that do what the events do (specs/Stages.antt), the pipeline of each switch is the picture of the events that
// entered it (specs/Flying.antt, Draining.antt). The queue lacks exactly the events still to be sent by packets in flight
// (specs/Behind.antt). The log is that of whole handlers, `stages` ticks later (specs/Runs.antt).
// For placed code that represents a program, a traversal of all stages does one step of the program (specs/Does.antt, Rows.antt,
// PipeStages.antt).
// It has no code but the functions that state the laws.
// Used by lucid_net and lucid_top_laws. Promises of the program rest on its definitions (docs/TRUSTED.md). Proofs may change; a law may
// only get stronger.
#![tactic(auto)]

mod laws;
mod pipes;

pub use laws::{packets_are_behind, texts_come_later};
pub use pipes::pass_does_as;
