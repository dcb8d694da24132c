// An act of a stage, on registers and cells.
ghost use Rattle.std.specs.Prelude.{◌≡◌, ◌≤◌, length};
ghost use Rattle.lucid_base.specs.Bool.{bit_of};
ghost use Rattle.lucid_base.specs.Ops.{bin_of, cmp_of, low_of, un_of};
ghost use Rattle.lucid_base.specs.declared.event.Out.TheVariants as out;
ghost use Rattle.lucid_code.specs.Run.{run_act, target_of, value, values};
ghost use Rattle.lucid_pipe.specs.Blocks.{on_registers, CanAct};

use crate::read::{arguments, hash, put, target, value};
use crate::sent::Sent;
use lucid_base::{
    BinOp, Bits, Cells, CmpOp, Event, Out, UnOp, Width, apply_bin, apply_un, compare,
};
use lucid_code::{Act, Operand};

/// Does an act on the registers. Each register has its width.
pub(crate) fn act(
    widths: &[Width],
    act: &Act,
    registers: &mut [u64],
    cells: &mut Cells,
    sent: &mut Sent,
)
    requires long { length widths.now ≡ length registers.old }
    requires can { CanAct (length registers.old) act.now }
    ensures machine { on_registers registers.new cells.new sent.new ≡ run_act widths.now act.now (on_registers registers.old cells.old sent.old) }
    ensures long { length registers.new ≡ length registers.old }
{
    match act {
        Act::Un(op, width, a, k) => {
            let v = unary(registers, *op, *width, *a);
            put(widths, registers, *k, v);
        }
        Act::Bin(op, width, a, b, k) => {
            let v = binary(registers, *op, *width, *a, *b);
            put(widths, registers, *k, v);
        }
        Act::Cmp(op, width, a, b, k) => {
            let v = comparison(registers, *op, *width, *a, *b);
            put(widths, registers, *k, v);
        }
        Act::Cast(a, k) => {
            let v = value(registers, *a);
            put(widths, registers, *k, v);
        }
        Act::Hash(xs, k) => {
            let v = hash(registers, xs.as_slice());
            put(widths, registers, *k, v);
        }
        Act::Move(a, k) => {
            let v = value(registers, *a);
            put(widths, registers, *k, v);
        }
        Act::Touch {
            array,
            index,
            get,
            get_arg,
            set,
            set_arg,
            to,
        } => {
            let cell = value(registers, *index);
            let get_arg = value(registers, *get_arg);
            let set_arg = value(registers, *set_arg);
            match to {
                None => {
                    cells.set_by(*array, cell, set, set_arg);
                }
                Some(k) => {
                    let touched = cells.touch(*array, cell, get, get_arg, set, set_arg);
                    put(widths, registers, *k, touched.answer.value);
                }
            }
        }
        Act::Gen {
            slot,
            event,
            args,
            delay,
            to,
        } => {
            let out = generated(registers, *event, args.as_slice(), *delay, *to);
            sent.put(*slot, out);
        }
        Act::Say { slot, form, args } => {
            let args = arguments(registers, args.as_slice());
            sent.put(*slot, Out::Say { form: *form, args });
        }
    }
}

fn unary(registers: &[u64], op: UnOp, width: Width, a: Operand) -> u64
    ensures { result ≡ un_of op width (low_of width (value registers.now a)) }
{
    apply_un(op, Bits::low(width, value(registers, a))).value
}

fn binary(registers: &[u64], op: BinOp, width: Width, a: Operand, b: Operand) -> u64
    ensures { result ≡ bin_of op width (low_of width (value registers.now a)) (low_of width (value registers.now b)) }
{
    let a = Bits::low(width, value(registers, a));
    let b = Bits::low(width, value(registers, b));
    apply_bin(op, a, b).value
}

/// Returns 1 if the comparison holds.
fn comparison(registers: &[u64], op: CmpOp, width: Width, a: Operand, b: Operand) -> u64
    ensures { result ≡ bit_of (cmp_of op (low_of width (value registers.now a)) (low_of width (value registers.now b))) }
{
    let a = Bits::low(width, value(registers, a));
    let b = Bits::low(width, value(registers, b));
    Bits::from_bool(compare(op, a, b)).value
}

/// Returns the out of an event with these arguments.
fn generated(
    registers: &[u64],
    event: u32,
    args: &[Operand],
    delay: Operand,
    to: Option<Operand>,
) -> Out
    requires { length args.now ≤ 8 }
    ensures { result ≡ out.Gen (record { id = event; args = values registers.now args.now }) (value registers.now delay) (target_of registers.now to) }
{
    let event = Event {
        id: event,
        args: arguments(registers, args),
    };
    Out::Gen {
        event,
        delay: value(registers, delay),
        to: target(registers, to),
    }
}
