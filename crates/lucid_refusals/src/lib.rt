// Tables that grow: a table of a stage is merged with another, and the shapes of the rows that it refused are remembered, so that nothing
// is merged in vain again.
// Promises: `Grown::grow` returns exactly the merge within a number of rows, as `merge` of lucid_merge does; what it remembers only saves time.
// Read specs/Refusal and specs/Readings.
// Used by lucid_layout. Bodies, definitions and proofs may change; a public clause may only get stronger.
#![tactic(auto)]

mod growing;
mod implying;
mod law;
mod literals;
mod readings;
mod refusal;
mod shape;

pub use growing::Grown;
