// The content of the files of a call: the program of a text, by its expansion, its tokens, its tree, its types and the order of arrays; the
// limits of a target; and the scenario of a network. Each part prepares something or refuses, as specs/Program and specs/Settings define
// it. The result is the one answer of the text, unless memory runs out.
// Used by lucid_top and lucid_top_laws. Promises of the program rest on its definitions (docs/TRUSTED.md). Bodies and proofs may change; a
// public clause may only get stronger.
#![tactic(auto)]

mod causes;
mod law;
mod laws;
mod order;
mod program;
mod settings;
mod source;

pub use laws::touches_rise_in_texts;
pub use program::accepted;
pub use settings::{limits, scenario};
pub use source::Source;
