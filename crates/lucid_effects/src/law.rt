// The laws that functions here call for their proofs. A call of a law does nothing when it runs.
pub(crate) use lucid_effects_spec::touches_rise;
