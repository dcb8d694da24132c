// Guards with direct tests. The guard that was made last is kept, and the next one, which mostly begins alike, is made from where they differ.
ghost use Rattle.std.specs.Prelude.{◌≡◌, ◌+◌, ◌<◌, length, map, take, slice_get, slice_index_or, Some, IfOk, OnOk};
ghost use Rattle.lucid_pass_spec.specs.Direct.{direct_literal, direct_op, says};
ghost use Rattle.lucid_pass_rewrites.specs.Comparisons.{direct_by};
ghost use Rattle.lucid_pass_rewrites.specs.Trail.{Trail, TrailBefore, renewed, with_new};

use crate::guards::{are_same, shared, stands};
use lucid_base::Memory;
use lucid_code::{Guard, Literal, Op};
use lucid_pass_spec::Test;
use std::alloc::Global;

/// Returns the operations with direct tests in their guards.
pub(crate) fn directed(alloc: Global, table: &[Option<Test>], ops: &[Op]) -> Result<Vec<Op>, Memory>
    ensures { IfOk result (λ new. new.items ≡ map (direct_op (direct_by table.now)) ops.now) }
{
    let mut new = Vec::new(alloc);
    let mut made = Vec::new(alloc);
    let mut ends = Vec::new(alloc);
    ends.push(0)?;
    let mut long = 0;
    for i in 0..ops.len() {
        long = turn(table, ops, i, long, &mut made, &mut ends)?;
        let op = with_guard(alloc, new.last(), made.as_slice(), &ops[i])?;
        new.push(op)?;
    }
    Ok(new)
}

/// One operation more: the number of literals of its guard, and their replacements.
fn turn(
    table: &[Option<Test>],
    ops: &[Op],
    i: usize,
    long: usize,
    made: &mut Vec<Literal>,
    ends: &mut Vec<usize>,
) -> Result<usize, Memory>
    requires there { i < length ops.now }
    requires trail { TrailBefore (direct_by table.now) ops.now i long made.old.items ends.old.items }
    ensures trail { IfOk result (λ long. TrailBefore (direct_by table.now) ops.now (i + 1) long made.new.items ends.new.items) }
    ensures made { OnOk result ((o : Op) → slice_get ops.now i ≡ Some o → made.new.items ≡ renewed (direct_by table.now) o.guard) }
{
    let before = &ops[i.saturating_sub(1)];
    let op = &ops[i];
    let guard = op.guard.as_slice();
    let kept = shared(before.guard.as_slice(), guard, long);
    cut(made, ends, kept);
    extend(table, guard, kept, made, ends)?;
    Ok(guard.len())
}

/// The replacements of the first `kept` literals.
fn cut(made: &mut Vec<Literal>, ends: &mut Vec<usize>, kept: usize)
    requires { kept < length ends.old.items }
    ensures made { made.new.items ≡ take (slice_index_or ends.old.items kept 0) made.old.items }
    ensures ends { ends.new.items ≡ take (kept + 1) ends.old.items }
{
    made.truncate(ends[kept]);
    ends.truncate(kept + 1);
}

/// Returns the replacements of the others.
fn extend(
    table: &[Option<Test>],
    guard: &[Literal],
    from: usize,
    made: &mut Vec<Literal>,
    ends: &mut Vec<usize>,
) -> Result<(), Memory>
    requires { Trail (direct_by table.now) guard.now from made.old.items ends.old.items }
    ensures { OnOk result (Trail (direct_by table.now) guard.now (length guard.now) made.new.items ends.new.items) }
{
    for at in from..guard.len() {
        push_new(made, directed_literal(table, guard[at]))?;
        ends.push(made.len())?;
    }
    Ok(())
}

fn push_new(made: &mut Vec<Literal>, literal: Literal) -> Result<(), Memory>
    ensures { OnOk result (made.new.items ≡ with_new literal made.old.items) }
{
    if !stands(made.as_slice(), literal) {
        made.push(literal)?;
    }
    Ok(())
}

/// Returns the operation with these literals as its guard. `before` is the new operation before it, which may share its guard.
pub(crate) fn with_guard(
    alloc: Global,
    before: Option<&Op>,
    literals: &[Literal],
    op: &Op,
) -> Result<Op, Memory>
    ensures { IfOk result (λ new. new ≡ record { guard = literals.now; level = op.now.level; act = op.now.act }) }
{
    Ok(Op {
        guard: guard_of(alloc, before, literals)?,
        level: op.level,
        act: op.act.copy(alloc)?,
    })
}

/// Returns the guard of these literals: that of the operation before if it has the same.
fn guard_of(alloc: Global, before: Option<&Op>, literals: &[Literal]) -> Result<Guard, Memory>
    ensures { IfOk result (λ guard. guard ≡ literals.now) }
{
    if let Some(op) = before
        && are_same(op.guard.as_slice(), literals)
    {
        return op.guard.share();
    }
    Guard::from_slice(alloc, literals)
}

fn directed_literal(table: &[Option<Test>], l: Literal) -> Literal
    ensures { result ≡ direct_literal (direct_by table.now) l }
{
    match test_in(table, l.field) {
        None => l,
        Some(test) => Literal {
            field: test.field,
            equal: says(l),
            value: test.value,
        },
    }
}

/// Returns the test that field `c` represents.
pub(crate) fn test_in(table: &[Option<Test>], c: u32) -> Option<Test>
    ensures { result ≡ direct_by table.now c }
{
    match table.get(c as usize) {
        None => None,
        Some(test) => *test,
    }
}

/// Returns whether a literal of a comparison's field says that the comparison holds.
pub(crate) fn says(l: Literal) -> bool
    ensures { result ≡ says l }
{
    if l.equal { l.value == 1 } else { l.value == 0 }
}
