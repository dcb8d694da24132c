// The queue of a network: pending events, of which a switch takes the ready one with the least key. A pop removes only that event, and a
// failed push leaves the queue unchanged.
// Used by lucid_net_spec, lucid_net_laws and lucid_net. Promises of the program rest on its definitions (docs/TRUSTED.md). Bodies and
// proofs may change; a public clause may only get stronger.
#![tactic(auto)]

mod pending;
mod queue;
mod switches;
mod turns;

pub use pending::{PendKey, Pending};
pub use queue::Queue;
