// The pass that replaces fields by numbers, and computes on numbers at compile time (`folded` of lucid_pass_spec).
ghost use Rattle.std.specs.Prelude.{◌≡◌};

use crate::changed::changed;
use crate::looks::Looks;
use lucid_base::Memory;
use lucid_code::Code;
use lucid_pass::{Name, Pass, replaced};
use std::alloc::Global;

/// The pass `fold`. A field that is moved from a number is read as that number, and a computation on numbers alone becomes a move of its
/// result.
#[derive(Drop)]
pub struct Fold {
    removed: u64,
}

impl Fold {
    /// Returns the pass, with a count of 0.
    pub fn new() -> Fold
        ensures { result.removed ≡ 0 }
    {
        Fold { removed: 0 }
    }
}

impl Pass for Fold {
    ghost use Rattle.std.specs.Prelude.{codes};
    ghost use Rattle.lucid_pass_spec.specs.Looks.{folded};
    ghost use Rattle.lucid_pass_spec.proofs.Looking.{fold_replaces};

    ghost called = { λ _. codes "fold" };

    ghost count = { λ p. p.removed };

    ghost gives = { λ _. record { makes = folded; keeps = fold_replaces } };

    fn name(&self) -> Name {
        Name::new("fold")
    }

    fn removed(&self) -> u64 {
        self.removed
    }

    fn run(&mut self, alloc: Global, code: &Code) -> Result<Code, Memory> {
        let ops = changed(alloc, Looks::Constant, code.fields(), code.ops())?;
        let (new, gone) = replaced(alloc, code, ops)?;
        self.removed = self.removed.saturating_add(gone);
        Ok(new)
    }
}
