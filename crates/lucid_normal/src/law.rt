// The laws that functions here call for their proofs. A call of a law does nothing when it runs.
pub(crate) use lucid_normal_laws::{
    normal_form_follows_writes, normal_form_has_its_length, normal_form_is_valid,
    normal_form_stands,
};
