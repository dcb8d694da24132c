// The output and the scratch state of a walk over a body.
use crate::notes::Note;
use lucid_code::Op;

/// The operations so far, and the undo log.
#[derive(Drop)]
pub struct Work {
    pub ops: Vec<Op>,
    pub notes: Vec<Note>,
}
