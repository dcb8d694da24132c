// The laws that functions here call for their proofs. A call of a law does nothing when it runs.
pub(crate) use lucid_merge::{guards_contradict, products_act, products_name};
