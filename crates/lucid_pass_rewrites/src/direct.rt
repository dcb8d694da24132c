// The pass that tests a field in place of a comparison of it (`direct` of lucid_pass_spec).
ghost use Rattle.std.specs.Prelude.{◌≡◌, length, IfOk, OnOk, IsTrue, true};
ghost use Rattle.std.specs.List.{filter, list_all};
ghost use Rattle.lucid_code.specs.Uses.{read_by};
ghost use Rattle.lucid_pass_spec.specs.Direct.{direct_ops};
ghost use Rattle.lucid_pass.specs.Marks.{marked, writes_below};
ghost use Rattle.lucid_pass_rewrites.specs.Comparisons.{ReadMarks, is_still_needed};

use crate::comparisons::tests_of;
use crate::trail::{directed, test_in};
use crate::writers::writers_of;
use lucid_base::{Memory, Width};
use lucid_code::{Code, Op};
use lucid_pass::{Name, Pass, is_set, mark_all, replaced};
use lucid_pass_spec::Test;
use std::alloc::Global;

/// The pass `direct`. A literal of a field that only compares another field with a number becomes a literal of that other field, and such
/// comparisons that no operation reads any more go.
#[derive(Drop)]
pub struct Direct {
    removed: u64,
}

impl Direct {
    /// Returns the pass, with a count of 0.
    pub fn new() -> Direct
        ensures { result.removed ≡ 0 }
    {
        Direct { removed: 0 }
    }
}

impl Pass for Direct {
    ghost use Rattle.std.specs.Prelude.{codes};
    ghost use Rattle.lucid_pass_spec.specs.Direct.{direct};
    ghost use Rattle.lucid_pass_spec.proofs.DirectRuns.{direct_replaces};

    ghost called = { λ _. codes "direct" };

    ghost count = { λ p. p.removed };

    ghost gives = { λ _. record { makes = direct; keeps = direct_replaces } };

    fn name(&self) -> Name {
        Name::new("direct")
    }

    fn removed(&self) -> u64 {
        self.removed
    }

    fn run(&mut self, alloc: Global, code: &Code) -> Result<Code, Memory> {
        let ops = direct_ops(alloc, code.fields(), code.ops())?;
        let (new, gone) = replaced(alloc, code, ops)?;
        self.removed = self.removed.saturating_add(gone);
        Ok(new)
    }
}

/// Returns the operations with direct tests. They write fields that are there.
fn direct_ops(alloc: Global, widths: &[Width], ops: &[Op]) -> Result<Vec<Op>, Memory>
    requires { IsTrue (list_all (writes_below (length widths.now)) ops.now) }
    ensures { IfOk result (λ new. new.items ≡ direct_ops widths.now ops.now) }
{
    let writers = writers_of(alloc, ops, widths.len())?;
    let table = tests_of(alloc, widths, ops, writers.as_slice())?;
    let now = directed(alloc, table.as_slice(), ops)?;
    let read = read_of(alloc, now.as_slice(), widths.len())?;
    let kept = needed(table.as_slice(), read.as_slice(), now);
    Ok(kept)
}

/// Returns a mark for each field that the operations read.
fn read_of(alloc: Global, ops: &[Op], fields: usize) -> Result<Vec<bool>, Memory>
    ensures { IfOk result (λ read. ReadMarks fields read.items ops.now) }
{
    let mut read = vec![in alloc; false; fields]?;
    let mut reads = Vec::new(alloc);
    for op in ops {
        mark_reads(op, &mut read, &mut reads)?;
    }
    Ok(read)
}

fn mark_reads(op: &Op, read: &mut Vec<bool>, reads: &mut Vec<u32>) -> Result<(), Memory>
    ensures { OnOk result (read.new.items ≡ marked (read_by op.now) read.old.items) }
{
    reads.clear();
    op.put_reads(reads)?;
    mark_all(read, reads.as_slice());
    Ok(())
}

/// Returns the operations other than comparisons that represent a test and have no reader.
fn needed(table: &[Option<Test>], read: &[bool], ops: Vec<Op>) -> Vec<Op>
    ensures { result.items ≡ filter (is_still_needed table.now read.now) ops.items }
{
    let mut kept = ops;
    kept.retain(|op| is_still_needed(table, read, op));
    kept
}

fn is_still_needed(table: &[Option<Test>], read: &[bool], op: &Op) -> bool
    ensures { result ≡ is_still_needed table.now read.now op.now }
{
    match op.act.written() {
        None => true,
        Some(k) => match test_in(table, k) {
            None => true,
            Some(_) => is_set(read, k as usize),
        },
    }
}
