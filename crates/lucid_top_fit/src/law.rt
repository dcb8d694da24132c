// The laws that functions here call for their proofs. A call of a law does nothing when it runs.
pub(crate) use lucid_audit::audits_are_one;
pub(crate) use lucid_layout_laws::{layouts_are_one, stuck_for_room};
pub(crate) use lucid_pass::lists_keep_the_laws;
pub(crate) use lucid_pass_laws::{code_stands, counts_are_exact};
