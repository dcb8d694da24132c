// Operands that are replaced by the sources of their moves.
ghost use Rattle.std.specs.Prelude.{◌≡◌, Option, None, slice_get, slice_index, IfOk};
ghost use Rattle.std.specs.Option.{option_and_then};
ghost use Rattle.lucid_base.specs.Ops.{low_of};
ghost use Rattle.lucid_code.specs.Uses.{with_operands};
ghost use Rattle.lucid_pass_spec.specs.Looks.{seen, moved, moved_from, looked};
ghost use Rattle.lucid_pass_rewrites.specs.Changed.{put_of, standing};
ghost use Rattle.lucid_pass_rewrites.specs.Writers.{Tells};

use crate::guards::includes;
use crate::writers::{Writer, who_writes};
use lucid_base::{Bits, Memory, Width};
use lucid_code::{Act, Literal, Op, Operand, Rename};
use std::alloc::Global;

/// The replacement: a field that is no wider, or the number of the field.
#[derive(Clone, Copy)]
pub(crate) enum Looks {
    Copied,
    Constant,
}

/// The operations at this point: those that are changed already, followed by the old ones.
#[derive(Clone, Copy)]
pub(crate) struct Now<'a> {
    pub(crate) looks: Looks,
    pub(crate) widths: &'a [Width],
    pub(crate) writers: &'a [Writer],
    pub(crate) done: &'a [Op],
    pub(crate) ops: &'a [Op],
}

/// A reader of operands, by its guard.
#[derive(Clone, Copy)]
struct Reader<'a> {
    now: Now<'a>,
    guard: &'a [Literal],
    ghost tells: { Tells (standing now.done.now now.ops.now) now.writers.now },
}

impl Rename for Reader<'_> {
    ghost use Rattle.lucid_pass_spec.specs.Looks.{looked};
    ghost use Rattle.lucid_pass_rewrites.specs.Changed.{put_of, standing};

    ghost operand_of = { λ r. looked (put_of r.now.looks r.now.widths.now) (standing r.now.done.now r.now.ops.now) r.guard.now };

    ghost field_of = { λ _ k. k };

    fn rename(&self, operand: Operand) -> Operand {
        looked(self.now, self.guard, operand)
    }

    fn rename_field(&self, field: u32) -> u32 {
        field
    }
}

/// Returns the act with other operands, for a reader with this guard.
#[tactic(auto, using(lucid_code::proofs::RenameLemmas::keeps_field))]
pub(crate) fn looked_act(
    alloc: Global,
    now: Now,
    guard: &[Literal],
    act: &Act,
) -> Result<Act, Memory>
    requires { Tells (standing now.done.now now.ops.now) now.writers.now }
    ensures { IfOk result (λ new. new ≡ with_operands (looked (put_of now.entry.looks now.entry.widths.now) (standing now.entry.done.now now.entry.ops.now) guard.now) act.now) }
{
    act.map(alloc, &Reader { now, guard })
}

fn looked(now: Now, guard: &[Literal], operand: Operand) -> Operand
    requires { Tells (standing now.done.now now.ops.now) now.writers.now }
    ensures { result ≡ looked (put_of now.entry.looks now.entry.widths.now) (standing now.entry.done.now now.entry.ops.now) guard.now operand }
{
    match operand {
        Operand::Fixed(v) => Operand::Fixed(v),
        Operand::Field(k) => match moved_from(now, guard, k) {
            None => Operand::Field(k),
            Some(a) => put(now.looks, now.widths, k, a),
        },
    }
}

/// Returns the source of the move to field `k`.
fn moved_from(now: Now, guard: &[Literal], k: u32) -> Option<Operand>
    requires { Tells (standing now.done.now now.ops.now) now.writers.now }
    ensures { result ≡ moved_from (standing now.entry.done.now now.entry.ops.now) guard.now k }
{
    match who_writes(now.writers, k) {
        Writer::Nobody => None,
        Writer::One(at) => seen_at(now.done, now.ops, guard, at),
        Writer::Many => None,
    }
}

fn seen_at(done: &[Op], ops: &[Op], guard: &[Literal], at: usize) -> Option<Operand>
    ensures { result ≡ option_and_then (seen guard.now) (slice_get (standing done.now ops.now) at) }
{
    if at < done.len() {
        seen_in(done, guard, at)
    } else {
        seen_in(ops, guard, at)
    }
}

fn seen_in(ops: &[Op], guard: &[Literal], at: usize) -> Option<Operand>
    ensures { result ≡ option_and_then (seen guard.now) (slice_get ops.now at) }
{
    match ops.get(at) {
        None => None,
        Some(op) => seen(guard, op),
    }
}

fn seen(guard: &[Literal], op: &Op) -> Option<Operand>
    ensures { result ≡ seen guard.now op.now }
{
    if includes(guard, op.guard.as_slice()) {
        moved(&op.act)
    } else {
        None
    }
}

fn moved(act: &Act) -> Option<Operand>
    ensures { result ≡ moved act.now }
{
    match act {
        Act::Move(a, _) => Some(*a),
        _ => None,
    }
}

fn put(looks: Looks, widths: &[Width], k: u32, a: Operand) -> Operand
    ensures { result ≡ put_of looks widths.now k a }
{
    match looks {
        Looks::Copied => match a {
            Operand::Fixed(_) => Operand::Field(k),
            Operand::Field(j) => if width(widths, j) <= width(widths, k) {
                Operand::Field(j)
            } else {
                Operand::Field(k)
            },
        },
        Looks::Constant => match a {
            Operand::Fixed(v) => Operand::Fixed(low(widths, k, v)),
            Operand::Field(_) => Operand::Field(k),
        },
    }
}

/// Returns the width of a field, and 0 past the fields.
pub(crate) fn width(widths: &[Width], k: u32) -> u8
    ensures { result ≡ slice_index widths.now k }
{
    match widths.get(k as usize) {
        None => 0,
        Some(width) => width.get(),
    }
}

/// Returns the low bits of a number by the width of a field.
fn low(widths: &[Width], k: u32, v: u64) -> u64
    ensures { result ≡ low_of (slice_index widths.now k) v }
{
    match widths.get(k as usize) {
        None => 0,
        Some(width) => Bits::low(*width, v).value,
    }
}
