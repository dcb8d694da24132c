// The laws that functions here call for their proofs. A call of a law does nothing when it runs.
pub(crate) use lucid_core::outs_fit;
pub(crate) use lucid_pipe::moves_as_rows;
