// Two of the JSON files of a call: limits of a target, and scenarios of a network.
// Promises: specs/Tables.antt has a table for each file: its keys, and the values that each key may have. `limits_of` and `scene_of` read
// the bytes as JSON and return the values, or the fault, that the table determines. A fault names the first key of the table whose value
// is bad. If that value is a JSON array, the fault also names the first bad item (specs/Items.antt has the rules of an item). The
// invariants of an accepted file, which no caller tests again, are in specs/Kept.antt.
// Used by many crates. Promises of Copperfinch rest on the definitions of this crate (docs/TRUSTED.md). Bodies and proofs may change; a
// public clause may only get stronger.
#![tactic(auto)]

mod down;
mod error;
mod events;
mod items;
mod key;
mod laws;
mod limits;
mod links;
mod names;
mod reading;
mod scenario;
mod scene;
mod steps;

pub use error::ConfError;
pub use key::Key;
pub use laws::plain_scenarios_stay;
pub use limits::{Limits, limits_of};
pub use scenario::scene_of;
pub use scene::{Down, FileEvent, Link, Scene, Step};
