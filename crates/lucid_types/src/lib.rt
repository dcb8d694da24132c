// The elaborator: the core of a tree. `elaborate` succeeds exactly if the typing rules derive a core, with that core, which is valid;
// otherwise it reports the first declaration that is refused, its line, and the limit that it exceeds, if any.
// Used by lucid_top_program and lucid_top_laws. Bodies and proofs may change; a public clause may only get stronger.
#![tactic(auto)]

mod error;
mod law;
mod limit;
mod parts;
mod program;

pub use error::TypeError;
pub use lucid_types_spec::What;
pub use program::elaborate;
