// The laws that functions here call for their proofs. A call of a law does nothing when it runs.
pub(crate) use lucid_size::plain_text_stays;
pub(crate) use lucid_top_program::touches_rise_in_texts;
