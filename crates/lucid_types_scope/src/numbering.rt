// The locals and texts that a body numbers.
ghost use Rattle.std.specs.Prelude.{◌≡◌, IfOk, OnOk, length};
ghost use Rattle.lucid_types_spec.specs.Block.{one_local};
ghost use Rattle.lucid_types_scope.specs.Numbered.{numbered_of};

use crate::numbers::number;
use crate::texts::Texts;
use lucid_base::{Items, Memory, Width};

/// The widths of a body's locals so far, and the texts of the program so far.
#[derive(Drop)]
pub struct Numbering {
    pub locals: Items<Width>,
    pub forms: Texts,
}

impl Numbering {
    /// Returns the number of the next local. Memory is the answer past the last number that there is.
    pub fn next_local(&self) -> Result<u32, Memory>
        ensures { IfOk result (λ i. i ≡ length self.now.locals) }
    {
        number(self.locals.len())
    }

    /// Adds a local of this width.
    pub fn add_local(&mut self, width: Width) -> Result<(), Memory>
        ensures { OnOk result (numbered_of self.new ≡ one_local width (numbered_of self.old)) }
    {
        self.locals.push(width)?;
        Ok(())
    }
}
