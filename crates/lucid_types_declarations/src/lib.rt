// Declarations: each is added to those before it, as the typing function does, or has no rule.
// Used by lucid_types. Bodies and proofs may change; a public clause may only get stronger.
#![tactic(auto)]

mod arrays;
mod constants;
mod declaration;
mod events;
mod functions;
mod groups;
mod known;
mod memops;
mod parameters;

pub use declaration::declare;
pub use known::Known;
