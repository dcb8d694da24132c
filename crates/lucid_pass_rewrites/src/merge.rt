// The pass that merges calls of arrays with the moves of their answers (`merged` of lucid_pass_more_spec).
ghost use Rattle.std.specs.Prelude.{◌≡◌, ◌&&◌, None, Some, length, nat_eq, slice_index, if◌then◌else◌, IfOk, IsTrue};
ghost use Rattle.std.specs.List.{list_all};
ghost use Rattle.std.specs.Option.{option_and_then, option_map_or};
ghost use Rattle.lucid_code.specs.declared.op.Act.TheVariants as act;
ghost use Rattle.lucid_code.specs.declared.op.Operand.TheVariants.{Field};
ghost use Rattle.lucid_pass.specs.Marks.{writes_below};
ghost use Rattle.lucid_pass_more_spec.specs.Merge.{answers_for, is_call, merged_act, merged_op, merged_ops, moved_to, same_guards};
ghost use Rattle.lucid_pass_rewrites.specs.Readers.{TellReads};
ghost use Rattle.lucid_pass_rewrites.specs.Writers.{Tells, found_at};

use crate::guards::includes;
use crate::looks::width;
use crate::readers::readers_of;
use crate::writers::{Writer, who_writes, writers_of};
use lucid_base::{Memory, Width};
use lucid_code::{Act, Code, Op, Operand};
use lucid_pass::{Name, Pass, replaced};
use std::alloc::Global;

/// The pass `merge`. A call of an array writes the field that its answer is moved to. The move becomes one of 0 to the field of the answer,
/// which nobody reads.
#[derive(Drop)]
pub struct Merge {
    removed: u64,
}

impl Merge {
    /// Returns the pass, with a count of 0.
    pub fn new() -> Merge
        ensures { result.removed ≡ 0 }
    {
        Merge { removed: 0 }
    }
}

impl Pass for Merge {
    ghost use Rattle.std.specs.Prelude.{codes};
    ghost use Rattle.lucid_pass_more_spec.specs.Merge.{merged};
    ghost use Rattle.lucid_pass_more_spec.proofs.MergeLemmas.{merge_replaces};

    ghost called = { λ _. codes "merge" };

    ghost count = { λ p. p.removed };

    ghost gives = { λ _. record { makes = merged; keeps = merge_replaces } };

    fn name(&self) -> Name {
        Name::new("merge")
    }

    fn removed(&self) -> u64 {
        self.removed
    }

    fn run(&mut self, alloc: Global, code: &Code) -> Result<Code, Memory> {
        let ops = merged_ops(alloc, code.fields(), code.ops())?;
        let (new, gone) = replaced(alloc, code, ops)?;
        self.removed = self.removed.saturating_add(gone);
        Ok(new)
    }
}

/// The operations, and the writer and the reader of each field.
#[derive(Clone, Copy)]
struct Uses<'a> {
    widths: &'a [Width],
    ops: &'a [Op],
    writers: &'a [Writer],
    readers: &'a [Writer],
}

/// Returns the operations with merged calls. They write fields that are there.
fn merged_ops(alloc: Global, widths: &[Width], ops: &[Op]) -> Result<Vec<Op>, Memory>
    requires { IsTrue (list_all (writes_below (length widths.now)) ops.now) }
    ensures { IfOk result (λ new. new.items ≡ merged_ops widths.now ops.now) }
{
    let writers = writers_of(alloc, ops, widths.len())?;
    let readers = readers_of(alloc, ops, widths.len())?;
    let mut new = Vec::new(alloc);
    for op in ops {
        let uses = Uses {
            widths,
            ops,
            writers: writers.as_slice(),
            readers: readers.as_slice(),
        };
        new.push(merged_op(alloc, uses, op)?)?;
    }
    Ok(new)
}

fn merged_op(alloc: Global, uses: Uses, op: &Op) -> Result<Op, Memory>
    requires all { IsTrue (list_all (writes_below (length uses.widths.now)) uses.ops.now) }
    requires writers { Tells uses.ops.now uses.writers.now }
    requires readers { TellReads (length uses.widths.now) uses.ops.now uses.readers.now }
    ensures { IfOk result (λ new. new ≡ merged_op (answers_for uses.entry.widths.now uses.entry.ops.now) op.now) }
{
    Ok(Op {
        guard: op.guard.share()?,
        level: op.level,
        act: merged_act(uses, op.act.copy(alloc)?),
    })
}

fn merged_act(uses: Uses, act: Act) -> Act
    requires all { IsTrue (list_all (writes_below (length uses.widths.now)) uses.ops.now) }
    requires writers { Tells uses.ops.now uses.writers.now }
    requires readers { TellReads (length uses.widths.now) uses.ops.now uses.readers.now }
    ensures { result ≡ merged_act (answers_for uses.entry.widths.now uses.entry.ops.now) act }
{
    match act {
        Act::Touch {
            array,
            index,
            get,
            get_arg,
            set,
            set_arg,
            to: Some(t),
        } => Act::Touch {
            array,
            index,
            get,
            get_arg,
            set,
            set_arg,
            to: Some(answer_for(uses, t)),
        },
        Act::Move(Operand::Field(t), x) => moved(uses, t, x),
        other => other,
    }
}

/// Returns the field that a call writes in place of `t`.
fn answer_for(uses: Uses, t: u32) -> u32
    requires all { IsTrue (list_all (writes_below (length uses.widths.now)) uses.ops.now) }
    requires writers { Tells uses.ops.now uses.writers.now }
    requires readers { TellReads (length uses.widths.now) uses.ops.now uses.readers.now }
    ensures { result ≡ option_map_or (λ x. x) (answers_for uses.entry.widths.now uses.entry.ops.now t) t }
{
    match answers_for(uses, t) {
        None => t,
        Some(x) => x,
    }
}

/// Returns the act in place of a move from field `t` to `x`.
fn moved(uses: Uses, t: u32, x: u32) -> Act
    requires all { IsTrue (list_all (writes_below (length uses.widths.now)) uses.ops.now) }
    requires writers { Tells uses.ops.now uses.writers.now }
    requires readers { TellReads (length uses.widths.now) uses.ops.now uses.readers.now }
    ensures { result ≡ merged_act (answers_for uses.entry.widths.now uses.entry.ops.now) (act.Move (Field t) x) }
{
    match answers_for(uses, t) {
        None => Act::Move(Operand::Field(t), x),
        Some(_) => Act::Move(Operand::Fixed(0), t),
    }
}

/// Returns the field that the answer in field `t` is for.
fn answers_for(uses: Uses, t: u32) -> Option<u32>
    requires all { IsTrue (list_all (writes_below (length uses.widths.now)) uses.ops.now) }
    requires writers { Tells uses.ops.now uses.writers.now }
    requires readers { TellReads (length uses.widths.now) uses.ops.now uses.readers.now }
    ensures { result ≡ answers_for uses.entry.widths.now uses.entry.ops.now t }
{
    answer_by(
        uses,
        t,
        who_writes(uses.writers, t),
        who_writes(uses.readers, t),
    )
}

fn answer_by(uses: Uses, t: u32, writer: Writer, reader: Writer) -> Option<u32>
    ensures { result ≡ option_and_then (λ w. option_and_then (λ v. if is_call w.act && same_guards w v then moved_to uses.entry.widths.now t v.act else None) (found_at uses.entry.ops.now reader)) (found_at uses.entry.ops.now writer) }
{
    match writer {
        Writer::Nobody => None,
        Writer::One(at) => match uses.ops.get(at) {
            None => None,
            Some(call) => answer_of(uses, t, call, reader),
        },
        Writer::Many => None,
    }
}

/// Returns the field that the answer of this call in field `t` is for.
fn answer_of(uses: Uses, t: u32, call: &Op, reader: Writer) -> Option<u32>
    ensures { result ≡ option_and_then (λ v. if is_call call.now.act && same_guards call.now v then moved_to uses.entry.widths.now t v.act else None) (found_at uses.entry.ops.now reader) }
{
    match reader {
        Writer::Nobody => None,
        Writer::One(at) => match uses.ops.get(at) {
            None => None,
            Some(mover) => answer_to(uses.widths, t, call, mover),
        },
        Writer::Many => None,
    }
}

fn answer_to(widths: &[Width], t: u32, call: &Op, mover: &Op) -> Option<u32>
    ensures { result ≡ if is_call call.now.act && same_guards call.now mover.now then moved_to widths.now t mover.now.act else None }
{
    if is_call(&call.act) && same_guards(call, mover) {
        moved_to(widths, t, &mover.act)
    } else {
        None
    }
}

fn is_call(act: &Act) -> bool
    ensures { result ≡ is_call act.now }
{
    match act {
        Act::Touch { .. } => true,
        _ => false,
    }
}

fn same_guards(o: &Op, p: &Op) -> bool
    ensures { result ≡ same_guards o.now p.now }
{
    includes(o.guard.as_slice(), p.guard.as_slice())
        && includes(p.guard.as_slice(), o.guard.as_slice())
}

fn moved_to(widths: &[Width], t: u32, act: &Act) -> Option<u32>
    ensures { result ≡ moved_to widths.now t act.now }
{
    match act {
        Act::Move(Operand::Field(s), x) => target(widths, t, *s, *x),
        _ => None,
    }
}

fn target(widths: &[Width], t: u32, s: u32, x: u32) -> Option<u32>
    ensures { result ≡ if nat_eq s t && nat_eq (slice_index widths.now t) (slice_index widths.now x) then Some x else None }
{
    if s == t && width(widths, t) == width(widths, x) {
        Some(x)
    } else {
        None
    }
}
