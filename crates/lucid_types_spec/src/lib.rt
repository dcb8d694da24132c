// The typing rules of the language: the core of a tree, as relations with a constructor for each rule (specs/), and the content of a
// refusal. It has no code but the types that the rules share with the crates that compute them.
// Used by many crates. Promises of the program rest on its definitions (docs/TRUSTED.md). Proofs may change; a law may only get stronger.
#![tactic(auto)]

mod body;
mod examples;
mod laws;
mod limit;
mod scope;

pub use body::{Body, Destination, Sending};
pub use laws::the_first_refusal_is_found;
pub use limit::What;
pub use scope::{Entry, Named, Param, ValueType};
