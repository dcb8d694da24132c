// The pass that turns casts into moves (`uncast` of lucid_pass_more_spec).
ghost use Rattle.std.specs.Prelude.{◌≡◌, IfOk};
ghost use Rattle.lucid_pass_more_spec.specs.Casts.{uncast_op, uncast_ops, without_cast};

use lucid_base::Memory;
use lucid_code::{Act, Code, Op};
use lucid_pass::{Name, Pass, replaced};
use std::alloc::Global;

/// The pass `casts`. A cast becomes a move, which writes the same.
#[derive(Drop)]
pub struct Casts {
    removed: u64,
}

impl Casts {
    /// Returns the pass, with a count of 0.
    pub fn new() -> Casts
        ensures { result.removed ≡ 0 }
    {
        Casts { removed: 0 }
    }
}

impl Pass for Casts {
    ghost use Rattle.std.specs.Prelude.{codes};
    ghost use Rattle.lucid_pass_more_spec.specs.Casts.{uncast};
    ghost use Rattle.lucid_pass_more_spec.proofs.CastsLemmas.{casts_replace};

    ghost called = { λ _. codes "casts" };

    ghost count = { λ p. p.removed };

    ghost gives = { λ _. record { makes = uncast; keeps = casts_replace } };

    fn name(&self) -> Name {
        Name::new("casts")
    }

    fn removed(&self) -> u64 {
        self.removed
    }

    fn run(&mut self, alloc: Global, code: &Code) -> Result<Code, Memory> {
        let ops = uncast_ops(alloc, code.ops())?;
        let (new, gone) = replaced(alloc, code, ops)?;
        self.removed = self.removed.saturating_add(gone);
        Ok(new)
    }
}

/// Returns the operations with moves in place of casts.
fn uncast_ops(alloc: Global, ops: &[Op]) -> Result<Vec<Op>, Memory>
    ensures { IfOk result (λ new. new.items ≡ uncast_ops ops.now) }
{
    let mut new = Vec::new(alloc);
    for op in ops {
        new.push(uncast_op(alloc, op)?)?;
    }
    Ok(new)
}

fn uncast_op(alloc: Global, op: &Op) -> Result<Op, Memory>
    ensures { IfOk result (λ new. new ≡ uncast_op op.now) }
{
    Ok(Op {
        guard: op.guard.share()?,
        level: op.level,
        act: without_cast(op.act.copy(alloc)?),
    })
}

fn without_cast(act: Act) -> Act
    ensures { result ≡ without_cast act }
{
    match act {
        Act::Cast(a, k) => Act::Move(a, k),
        other => other,
    }
}
