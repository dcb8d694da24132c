// One pipeline, driven by hand: the steps of a scenario enter events, move packets from stage to stage and look at cells, in any order.
// Promises: `drive` writes the log of handlers that run whole, one event after another in the order of entry (specs/Drive). After each step
// it shows a watch the pipe that these runs determine (specs/Sights). Each call writes its part of the log, and the pipe is at the state
// that the call returns (specs/State). No call allocates.
// Sources: whole.rt has the whole drive, calls.rt its calls (a step, a move of the oldest packet, the end), and state.rt its progress.
// moves.rt has the steps as moves of the pipe, and happened.rt their outcomes. put.rt and ending.rt write the text. laws.rt has the state
// at the beginning and a drive worked by hand.
// Definitions: Flush (how the packets in flight finish), Changes (the effect of a call on the pipe), Happened (the outcome of a step),
// Driven and Standing (a pipe at the state of a drive), Examples (the drive worked by hand).
// Used by lucid_snap, lucid_top_pipes, lucid_top and lucid_top_laws. Promises of the program rest on its definitions (docs/TRUSTED.md).
// Bodies and proofs may change; a public clause may only get stronger.
#![tactic(auto)]

mod calls;
mod ending;
mod happened;
mod law;
mod laws;
mod moves;
mod put;
mod state;
mod whole;

pub use calls::{drive_end, drive_flush, drive_step};
pub use laws::new_stands;
pub use state::DriveState;
pub use whole::{drive, drive_steps};
