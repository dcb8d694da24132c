// Passes that rewrite operations: `Fold` and `Copies` replace operands and acts, `Direct` and `Sources` replace tests in guards, and `Merge`
// lets a call write the field that its answer is moved to.
// lucid_pass_spec and lucid_pass_more_spec define their results, and have the laws that these may replace the code.
// Promises: each pass makes exactly its definition, and counts the operations that it removed (the trait `Pass` of lucid_pass). Each runs
// in time linear in the literals and operands of code whose guards begin like those of their neighbours, as those of lucid_normal do.
// Used by lucid_main. Bodies, definitions and proofs may change; a public clause may only get stronger.
#![tactic(auto)]

mod changed;
mod comparisons;
mod copies;
mod covering;
mod direct;
mod fold;
mod guards;
mod looks;
mod merge;
mod readers;
mod settle;
mod sources;
mod trail;
mod writers;

pub use copies::Copies;
pub use direct::Direct;
pub use fold::Fold;
pub use merge::Merge;
pub use sources::Sources;
