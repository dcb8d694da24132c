// The arguments of a call.
use lucid_base::{ArrayName, Items};
use lucid_core::Expr;

/// The arrays and the values that are given for parameters, each in the order of the parameters.
#[derive(Drop)]
pub struct Arguments {
    pub names: Items<ArrayName>,
    pub values: Items<Expr>,
}
