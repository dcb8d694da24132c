// The laws that functions here call for their proofs. A call of a law does nothing when it runs.
pub(crate) use lucid_inline_spec::{flat_is_valid, keeps_order, keeps_steps};
