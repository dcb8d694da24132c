// The laws that functions here call for their proofs. A call of a law does nothing when it runs.
pub(crate) use lucid_size::{expansions_are_read, plain_text_stays};
