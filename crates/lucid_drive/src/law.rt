// The laws that functions here call for their proofs. A call of a law does nothing when it runs.
pub(crate) use lucid_core::{cells_stay_fit, outs_fit};
