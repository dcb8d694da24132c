// The test that the field of a comparison represents.
ghost use Rattle.std.specs.Prelude.{◌≡◌, ◌&&◌, ◌^◌, nat_eq, nat_lt, not, Option, None, Some, slice_index, if◌then◌else◌, IfOk};
ghost use Rattle.lucid_pass_spec.specs.Direct.{tested};
ghost use Rattle.lucid_pass_rewrites.specs.Comparisons.{Stands, test_at};
ghost use Rattle.lucid_pass_rewrites.specs.Writers.{Tells};

use crate::covering::uncovered;
use crate::writers::Writer;
use lucid_base::{CmpOp, Memory, Width};
use lucid_code::{Act, Op, Operand};
use lucid_pass::is_set;
use lucid_pass_spec::Test;
use std::alloc::Global;

/// For each field the test that it represents.
pub(crate) fn tests_of(
    alloc: Global,
    widths: &[Width],
    ops: &[Op],
    writers: &[Writer],
) -> Result<Vec<Option<Test>>, Memory>
    requires { Tells ops.now writers.now }
    ensures { IfOk result (λ table. Stands widths.now ops.now table.items) }
{
    let uncovered = uncovered(alloc, ops, writers)?;
    let mut table = Vec::new(alloc);
    for (c, writer) in writers.iter().enumerate() {
        let other = is_set(uncovered.as_slice(), c);
        let test = test_of(widths, ops, *writer, other);
        table.push(test)?;
    }
    Ok(table)
}

fn test_of(widths: &[Width], ops: &[Op], writer: Writer, uncovered: bool) -> Option<Test>
    ensures { result ≡ test_at widths.now ops.now writer uncovered }
{
    match writer {
        Writer::Nobody => None,
        Writer::One(at) => match ops.get(at) {
            None => None,
            Some(op) => test_by(widths, op, uncovered),
        },
        Writer::Many => None,
    }
}

fn test_by(widths: &[Width], op: &Op, uncovered: bool) -> Option<Test>
    ensures { result ≡ if not uncovered then tested widths.now op.now.act else None }
{
    if uncovered {
        None
    } else {
        tested(widths, &op.act)
    }
}

fn tested(widths: &[Width], act: &Act) -> Option<Test>
    ensures { result ≡ tested widths.now act.now }
{
    match act {
        Act::Cmp(CmpOp::Eq, w, Operand::Field(f), Operand::Fixed(v), _) => test(widths, *w, *f, *v),
        _ => None,
    }
}

fn test(widths: &[Width], w: Width, field: u32, value: u64) -> Option<Test>
    ensures { result ≡ if nat_eq w (slice_index widths.now field) && nat_lt value (2 ^ w) then Some (record { field = field; value = value }) else None }
{
    if is_width(widths, w, field) && w.fits(value) {
        Some(Test { field, value })
    } else {
        None
    }
}

/// Returns whether the field has this width.
pub(crate) fn is_width(widths: &[Width], w: Width, field: u32) -> bool
    ensures { result ≡ nat_eq w (slice_index widths.now field) }
{
    match widths.get(field as usize) {
        None => false,
        Some(found) => w == *found,
    }
}
