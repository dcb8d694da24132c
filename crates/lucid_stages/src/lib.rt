// Nodes of code, and the stages that they fill, for each way to place nodes: the nodes in their order, the fields that each reads and
// writes, its table, the counts that have limits, and a stage with one more node.
// Promises: each function returns exactly its definition. `test_counts` returns Ok exactly if all counts keep their limits, and otherwise
// the first that does not. A lemma says when stages are those of a placed code (`keeps` of proofs/PlacingLemmas).
// Read specs/NodeWorks, specs/NodeTables, specs/Marks, specs/Counts, specs/Stage and specs/Placing.
// Used by many crates. Promises of the program rest on its definitions (docs/TRUSTED.md). Bodies and proofs may change; a public clause
// may only get stronger.
#![tactic(auto)]

mod count_error;
mod counts;
mod examples;
mod marks;
mod node;
mod node_order;
mod node_tables;
mod node_works;
mod placing;
mod stage;

pub use count_error::CountError;
pub use counts::{bits_of, test_counts};
pub use marks::{any_past, ends, floor_of, no_marks, raise};
pub use node::Work;
pub use node_order::nodes;
pub use node_tables::node_table;
pub use node_works::{work, works};
pub use placing::{arrays_in, stage_codes};
pub use stage::{Pair, Seat, Stage};
