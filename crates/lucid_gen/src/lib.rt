// Large inputs from a number: a program, the limits of a target and a scenario, as texts that specs/ defines (Program.antt, Limits.antt,
// Scene.antt). The same seed gives the same text: its choices are in specs/Draws.antt and specs/Choices.antt.
// Used by lucid_top and lucid_top_laws. Promises of the program rest on its definitions (docs/TRUSTED.md). Bodies and proofs may change; a
// public clause may only get stronger.
#![tactic(auto)]

mod choices;
mod limits;
mod numbers;
mod program;
mod scene;

pub use limits::make_limits;
pub use program::make_program;
pub use scene::make_scene;
