// A body that is counted: which of its locals are held, and which were assigned.
ghost use Rattle.std.specs.Prelude.{◌≡◌};
ghost use Rattle.lucid_inline_count.specs.Branches.{followed};

use crate::counts::Counts;

/// The counts of statements, the local that they assign for later ones, and whether they return on some path, and with a value.
#[derive(Clone, Copy)]
pub struct Part {
    pub counts: Counts,
    pub sets: Option<u32>,
    pub returns: bool,
    pub value: bool,
}

impl Part {
    /// Adds the part of statements that follow.
    pub fn and(self, more: Part) -> Part
        ensures { result ≡ followed self more }
    {
        Part {
            counts: self.counts.and(more.counts),
            sets: None,
            returns: self.returns || more.returns,
            value: self.value || more.value,
        }
    }
}

/// The locals that have a value, being parameters or assigned earlier in an enclosing block, and those assigned so far, behind an `if` each once.
#[derive(Drop)]
pub struct Body {
    pub held: Vec<bool>,
    pub assigned: Vec<u32>,
}
