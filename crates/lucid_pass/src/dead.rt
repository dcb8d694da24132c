// The pass that removes the writers of fields that no operation reads (`alive` of lucid_pass_spec).
ghost use Rattle.std.specs.Prelude.{◌≡◌, ◌++◌, ◌∷◌, [], true, false, if◌then◌else◌, IfOk, OnOk, IsTrue};
ghost use Rattle.std.specs.List.{list_all};
ghost use Rattle.lucid_code.specs.Uses.{read_by, only_writes};
ghost use Rattle.lucid_pass_spec.specs.Dead.{live};
ghost use Rattle.lucid_pass.specs.Marks.{marked, is_marked, writes_below};

use crate::marks::{is_set, mark_all};
use crate::run::replaced;
use crate::{Name, Pass};
use lucid_base::Memory;
use lucid_code::{Act, Code, Op};
use std::alloc::Global;

/// The pass `dead`. Removes the writers of fields that no operation reads, until there are none; calls of arrays, events and prints stay.
#[derive(Drop)]
pub struct Dead {
    removed: u64,
}

impl Dead {
    /// Returns the pass, with a count of 0.
    pub fn new() -> Dead
        ensures { result.removed ≡ 0 }
    {
        Dead { removed: 0 }
    }
}

impl Pass for Dead {
    ghost use Rattle.std.specs.Prelude.{codes};
    ghost use Rattle.lucid_pass_spec.specs.Dead.{alive};
    ghost use Rattle.lucid_pass_spec.proofs.Gone.{dead_replaces};

    ghost called = { λ _. codes "dead" };

    ghost count = { λ p. p.removed };

    ghost gives = { λ _. record { makes = alive; keeps = dead_replaces } };

    fn name(&self) -> Name {
        Name::new("dead")
    }

    fn removed(&self) -> u64 {
        self.removed
    }

    fn run(&mut self, alloc: Global, code: &Code) -> Result<Code, Memory> {
        let ops = live(alloc, code.ops(), code.fields().len())?;
        let (new, gone) = replaced(alloc, code, ops)?;
        self.removed = self.removed.saturating_add(gone);
        Ok(new)
    }
}

/// Returns the needed operations, which name only fields below `fields`: goes from the last to the first, with a mark for each field that
/// the kept ones read.
fn live(alloc: Global, ops: &[Op], fields: usize) -> Result<Vec<Op>, Memory>
    requires { IsTrue (list_all (writes_below fields) ops.now) }
    ensures { IfOk result (λ kept. kept.items ≡ live ops.now) }
{
    let mut read = vec![in alloc; false; fields]?;
    let mut kept = Vec::new(alloc);
    let mut reads = Vec::new(alloc);
    for turn in 0..ops.len() {
        let op = &ops[ops.len() - 1 - turn];
        keep(alloc, op, &mut read, &mut kept, &mut reads)?;
    }
    kept.reverse();
    Ok(kept)
}

fn keep(
    alloc: Global,
    op: &Op,
    read: &mut Vec<bool>,
    kept: &mut Vec<Op>,
    reads: &mut Vec<u32>,
) -> Result<(), Memory>
    ensures kept { OnOk result (kept.new.items ≡ if is_marked read.old.items op.now then kept.old.items ++ op.now ∷ [] else kept.old.items) }
    ensures read { OnOk result (read.new.items ≡ if is_marked read.old.items op.now then marked (read_by op.now) read.old.items else read.old.items) }
{
    if is_marked(read.as_slice(), op) {
        reads.clear();
        op.put_reads(reads)?;
        mark_all(read, reads.as_slice());
        kept.push(op.copy(alloc)?)?;
    }
    Ok(())
}

fn is_marked(read: &[bool], op: &Op) -> bool
    ensures { result ≡ is_marked read.now op.now }
{
    match only_writes(&op.act) {
        None => true,
        Some(k) => is_set(read, k as usize),
    }
}

/// Returns the field that an act writes which does nothing else.
fn only_writes(act: &Act) -> Option<u32>
    ensures { result ≡ only_writes act.now }
{
    match act {
        Act::Touch { .. } => None,
        _ => act.written(),
    }
}
