// A statement in its block.
use lucid_base::Items;
use lucid_core::{Expr, Stmt};
use lucid_types_spec::Body;

/// The effect of a statement on those after it: steps of its own, or a test with a first branch that always returns, whose second branch
/// is all the rest.
#[derive(Drop)]
pub enum Part {
    Does(Body),
    Guard(Expr, Items<Stmt>),
}
