// The fields that are tested outside the guard of their writer. Guards of neighbours mostly begin alike, so only the new part of a guard
// is looked at.
ghost use Rattle.std.specs.Prelude.{◌≡◌, ◌+◌, ◌<◌, length, true, slice_get, if◌then◌else◌, slice_set, IfOk};
ghost use Rattle.std.specs.Option.{option_map_or};
ghost use Rattle.lucid_pass_spec.specs.Looks.{includes};
ghost use Rattle.lucid_pass_rewrites.specs.Covering.{Nested, NestedBefore, Uncovered, is_under, mark_each};
ghost use Rattle.lucid_pass_rewrites.specs.Writers.{Tells};

use crate::guards::{includes, shared};
use crate::writers::{Writer, who_writes};
use lucid_base::Memory;
use lucid_code::{Literal, Op};
use lucid_pass::mark;
use std::alloc::Global;

/// Returns a mark for each field that just one operation writes and another tests whose guard hasn't all literals of that one's guard.
pub(crate) fn uncovered(alloc: Global, ops: &[Op], writers: &[Writer]) -> Result<Vec<bool>, Memory>
    requires { Tells ops.now writers.now }
    ensures { IfOk result (λ marks. Uncovered ops.now (length writers.now) (length ops.now) marks.items) }
{
    let mut marks = vec![in alloc; false; writers.len()]?;
    let mut nested = 0;
    for i in 0..ops.len() {
        nested = turn(ops, writers, i, nested, &mut marks);
    }
    Ok(marks)
}

/// One operation more: the number of its first literals that are under the guards of their writers.
fn turn(ops: &[Op], writers: &[Writer], i: usize, nested: usize, marks: &mut Vec<bool>) -> usize
    requires tells { Tells ops.now writers.now }
    requires there { i < length ops.now }
    requires nested { NestedBefore ops.now i nested }
    requires marks { Uncovered ops.now (length writers.now) i marks.old.items }
    ensures nested { NestedBefore ops.now (i + 1) result }
    ensures marks { Uncovered ops.now (length writers.now) (i + 1) marks.new.items }
{
    let before = &ops[i.saturating_sub(1)];
    let op = &ops[i];
    let guard = op.guard.as_slice();
    let kept = shared(before.guard.as_slice(), guard, nested);
    let nested = nested_from(ops, writers, guard, kept);
    mark_each(ops, writers, guard, &guard[nested..], marks);
    nested
}

/// Returns the number of first literals that are under the guards of their writers, if the first `from` are.
fn nested_from(ops: &[Op], writers: &[Writer], guard: &[Literal], from: usize) -> usize
    requires tells { Tells ops.now writers.now }
    requires nested { Nested ops.now guard.now from }
    ensures { Nested ops.now guard.now result }
{
    for at in from..guard.len() {
        if !is_under(ops, writers, &guard[..at], guard[at].field) {
            return at;
        }
    }
    guard.len()
}

/// Marks the field of each of these literals whose writer's guard is not part of the guard.
fn mark_each(
    ops: &[Op],
    writers: &[Writer],
    guard: &[Literal],
    literals: &[Literal],
    marks: &mut Vec<bool>,
)
    requires { Tells ops.now writers.now }
    ensures { marks.new.items ≡ mark_each ops.now guard.now literals.now marks.old.items }
{
    for literal in literals {
        mark_uncovered(ops, writers, guard, literal.field, marks);
    }
}

fn mark_uncovered(ops: &[Op], writers: &[Writer], guard: &[Literal], k: u32, marks: &mut Vec<bool>)
    requires { Tells ops.now writers.now }
    ensures { marks.new.items ≡ if is_under ops.now guard.now k then marks.old.items else slice_set marks.old.items k true }
{
    if !is_under(ops, writers, guard, k) {
        mark(marks, k);
    }
}

/// Returns whether the guard of the one operation that writes field `k`, if there is one, is part of this guard.
fn is_under(ops: &[Op], writers: &[Writer], guard: &[Literal], k: u32) -> bool
    requires { Tells ops.now writers.now }
    ensures { result ≡ is_under ops.now guard.now k }
{
    match who_writes(writers, k) {
        Writer::Nobody => true,
        Writer::One(at) => has_guard_of(ops, at, guard),
        Writer::Many => true,
    }
}

fn has_guard_of(ops: &[Op], at: usize, guard: &[Literal]) -> bool
    ensures { result ≡ option_map_or (λ w. includes guard.now w.guard) (slice_get ops.now at) true }
{
    match ops.get(at) {
        None => true,
        Some(op) => includes(guard, op.guard.as_slice()),
    }
}
