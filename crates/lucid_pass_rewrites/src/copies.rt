// The pass that puts a field in place of another that it was moved to (`copies` of lucid_pass_spec).
ghost use Rattle.std.specs.Prelude.{◌≡◌};

use crate::changed::changed;
use crate::looks::Looks;
use lucid_base::Memory;
use lucid_code::Code;
use lucid_pass::{Name, Pass, replaced};
use std::alloc::Global;

/// The pass `copies`. A field that is moved from another which is no wider is read as that other field.
#[derive(Drop)]
pub struct Copies {
    removed: u64,
}

impl Copies {
    /// Returns the pass, with a count of 0.
    pub fn new() -> Copies
        ensures { result.removed ≡ 0 }
    {
        Copies { removed: 0 }
    }
}

impl Pass for Copies {
    ghost use Rattle.std.specs.Prelude.{codes};
    ghost use Rattle.lucid_pass_spec.specs.Looks.{copies};
    ghost use Rattle.lucid_pass_spec.proofs.Looking.{copies_replaces};

    ghost called = { λ _. codes "copies" };

    ghost count = { λ p. p.removed };

    ghost gives = { λ _. record { makes = copies; keeps = copies_replaces } };

    fn name(&self) -> Name {
        Name::new("copies")
    }

    fn removed(&self) -> u64 {
        self.removed
    }

    fn run(&mut self, alloc: Global, code: &Code) -> Result<Code, Memory> {
        let ops = changed(alloc, Looks::Copied, code.fields(), code.ops())?;
        let (new, gone) = replaced(alloc, code, ops)?;
        self.removed = self.removed.saturating_add(gone);
        Ok(new)
    }
}
