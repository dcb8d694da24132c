// JSON values, read by serde_json, and the functions that look into them or move parts out. Each function returns the result of
// serde_json's definition of its name, and its clause says so. The condition on the keys of an object is in specs/Keys.antt, for every file
// that is read.
// Used by lucid_conf and lucid_audit. Promises of the program rest on its definitions (docs/TRUSTED.md). Bodies and proofs may change; a
// public clause may only get stronger.
#![tactic(auto)]

mod look;
mod read;
mod taking;

pub use look::{at, get, items_in, members_in, number_in, text_in};
pub use read::{Unread, value_of};
pub use serde_json::{Map, Value};
pub use taking::{into_items, take};
