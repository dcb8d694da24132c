// Lists of passes: those that the program uses, and a pass of the caller.
use lucid_base::Memory;
use lucid_code::Code;
use lucid_pass::{Dead, Name, Pass};
use lucid_pass_rewrites::{Copies, Direct, Fold};
use std::alloc::Global;
use std::process::Abort;

/// A pass of a list: one of the program, `Same`, or a `Same` that runs out of memory.
#[derive(Clone, Copy)]
pub(crate) enum Listed {
    Fold,
    Copies,
    Dead,
    Direct,
    Same,
    Failing,
}

/// The passes that the program uses.
pub(crate) const PROGRAM: [Listed; 4] = [
    Listed::Fold,
    Listed::Copies,
    Listed::Dead,
    Listed::Direct,
];

/// A pass that gives the code itself, or runs out of memory.
#[derive(Drop)]
struct Same {
    removed: u64,
    fails: bool,
}

impl Same {
    fn new(fails: bool) -> Same {
        Same { removed: 0, fails }
    }
}

impl Pass for Same {
    ghost use Rattle.std.specs.Prelude.{codes};
    ghost use Rattle.lucid_pass_spec.proofs.Replaces.{same_replaces};

    ghost called = { λ _. codes "same" };

    ghost count = { λ p. p.removed };

    ghost gives = { λ _. record { makes = λ code. code; keeps = same_replaces } };

    fn name(&self) -> Name {
        Name::new("same")
    }

    fn removed(&self) -> u64 {
        self.removed
    }

    fn run(&mut self, alloc: Global, code: &Code) -> Result<Code, Memory> {
        if self.fails {
            return Err(Memory);
        }
        let new = code.copy()?;
        self.removed = self.removed.saturating_add(0);
        Ok(new)
    }
}

fn boxed(rt: &impl Abort, alloc: Global, kind: Listed) -> Box<dyn Pass> {
    match kind {
        Listed::Fold => Box::new(alloc, Fold::new()).expect(rt, "memory"),
        Listed::Copies => Box::new(alloc, Copies::new()).expect(rt, "memory"),
        Listed::Dead => Box::new(alloc, Dead::new()).expect(rt, "memory"),
        Listed::Direct => Box::new(alloc, Direct::new()).expect(rt, "memory"),
        Listed::Same => Box::new(alloc, Same::new(false)).expect(rt, "memory"),
        Listed::Failing => Box::new(alloc, Same::new(true)).expect(rt, "memory"),
    }
}

/// The list of these passes.
pub(crate) fn list(rt: &impl Abort, alloc: Global, kinds: &[Listed]) -> Vec<Box<dyn Pass>> {
    let mut passes = Vec::new(alloc);
    for kind in kinds {
        let pass = boxed(rt, alloc, *kind);
        passes.push(pass).expect(rt, "memory");
    }
    passes
}
