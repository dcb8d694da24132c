// Snapshots of a pipe whose packets move: the arrays after exactly the events that entered before the snapshot, though later packets pass
// stages meanwhile. Each stage is copied when the last packet that entered before leaves it; no packet waits. A snapshot follows its pipe
// (`Follows` of specs/Snap) through all entries and moves, and then has the cells of whole handlers. `snap` writes the drive log and then
// these cells (`snap_log` of specs/Log). snapshot.rt has the snapshot, copy.rt its rows, driven.rt a drive with a snapshot, laws.rt the law
// for entries. In specs/, Calls defines the effect of the calls, and Writes the text written before an error.
// Used by lucid_top and lucid_top_laws. Promises of the program rest on its definitions (docs/TRUSTED.md). Bodies and proofs may change; a
// public clause may only get stronger.
#![tactic(auto)]

mod copy;
mod driven;
mod error;
mod law;
mod laws;
mod snapshot;

pub use driven::snap;
pub use error::SnapError;
pub use laws::enter_keeps;
pub use snapshot::Snap;
