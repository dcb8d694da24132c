// The cores of expressions: the result of the typing function at a place that requires a type and at a free place, or none.
// Used by lucid_types_statements, lucid_types_declarations and lucid_types. Bodies and proofs may change; a public clause may only get
// stronger.
#![tactic(auto)]

mod array;
mod expressions;
mod fault;
mod lead;
mod names;
mod node;
mod operator;

pub use expressions::{all_free, call, expression, free, given, touch};
pub use fault::Fault;
pub use lead::{bare, free_width};
pub use operator::comparison;
