// The laws that functions here call for their proofs. A call of a law does nothing when it runs.
pub(crate) use lucid_types_laws::declarations_are_computed;
pub(crate) use lucid_types_limits::only_the_new_counts;
pub(crate) use lucid_types_spec::the_first_refusal_is_found;
