// Operations that compute, one at a time: each writes a new field.
ghost use Rattle.std.specs.Prelude.{◌≡◌, [], ◌∷◌, IfOk, OnOk, length};
ghost use Rattle.lucid_code.specs.declared.op.Act.TheVariants as act;
ghost use Rattle.lucid_core.specs.Computations.{array_of};
ghost use Rattle.lucid_normal_spec.specs.Translate.{bit_field, emit, moved as moved_by, new_field, op as op_of, touch_made, with_field};
ghost use Rattle.lucid_normal_steps.specs.Added.{added};

use crate::context::{Context, next, put};
use lucid_base::{ArrayName, BinOp, CmpOp, Items, Memory, UnOp, Width};
use lucid_code::{Act, Op, Operand};
use lucid_core::Touch;
use lucid_normal_spec::{Env, Typed};

/// An operation that writes field `k`, the next one, of this width.
fn write(
    context: Context,
    ops: &mut Vec<Op>,
    env: &mut Env,
    width: Width,
    k: u32,
    act: Act,
) -> Result<Option<Typed>, Memory>
    requires { k ≡ length env.old.widths }
    ensures value { IfOk result (λ t. t ≡ Some (new_field env.old width)) }
    ensures env { OnOk result (env.new ≡ with_field env.old width) }
    ensures ops { OnOk result (ops.new.items ≡ added context.entry.guard.now ops.old.items (op_of env.old.place act ∷ [])) }
{
    put(context, ops, env.place, act)?;
    env.widths.push(width)?;
    Ok(Some(Typed {
        operand: Operand::Field(k),
        width,
    }))
}

/// The unary operation, by the width of its operand.
pub fn unary(
    context: Context,
    ops: &mut Vec<Op>,
    env: &mut Env,
    o: UnOp,
    a: Typed,
) -> Result<Option<Typed>, Memory>
    ensures value { IfOk result (λ t. t ≡ (emit a.width (act.Un o a.width a.operand) env.old).value) }
    ensures env { OnOk result (env.new ≡ (emit a.width (act.Un o a.width a.operand) env.old).env) }
    ensures ops { OnOk result (ops.new.items
        ≡ added context.entry.guard.now ops.old.items (emit a.width (act.Un o a.width a.operand) env.old).ops) }
{
    let k = next(&env.widths)?;
    write(
        context,
        ops,
        env,
        a.width,
        k,
        Act::Un(o, a.width, a.operand, k),
    )
}

/// The binary operation, by the width of its first operand.
pub fn binary(
    context: Context,
    ops: &mut Vec<Op>,
    env: &mut Env,
    o: BinOp,
    a: Typed,
    b: Typed,
) -> Result<Option<Typed>, Memory>
    ensures value { IfOk result (λ t. t ≡ (emit a.width (act.Bin o a.width a.operand b.operand) env.old).value) }
    ensures env { OnOk result (env.new ≡ (emit a.width (act.Bin o a.width a.operand b.operand) env.old).env) }
    ensures ops { OnOk result (ops.new.items
        ≡ added context.entry.guard.now ops.old.items (emit a.width (act.Bin o a.width a.operand b.operand) env.old).ops) }
{
    let k = next(&env.widths)?;
    let act = Act::Bin(o, a.width, a.operand, b.operand, k);
    write(context, ops, env, a.width, k, act)
}

/// The comparison, by the width of its first operand.
pub fn compare(
    context: Context,
    ops: &mut Vec<Op>,
    env: &mut Env,
    o: CmpOp,
    a: Typed,
    b: Typed,
) -> Result<Option<Typed>, Memory>
    ensures value { IfOk result (λ t. t ≡ (emit 1 (act.Cmp o a.width a.operand b.operand) env.old).value) }
    ensures env { OnOk result (env.new ≡ (emit 1 (act.Cmp o a.width a.operand b.operand) env.old).env) }
    ensures ops { OnOk result (ops.new.items
        ≡ added context.entry.guard.now ops.old.items (emit 1 (act.Cmp o a.width a.operand b.operand) env.old).ops) }
{
    let k = next(&env.widths)?;
    let act = Act::Cmp(o, a.width, a.operand, b.operand, k);
    write(context, ops, env, Width::bool(), k, act)
}

/// The low bits of the operand.
pub fn cast(
    context: Context,
    ops: &mut Vec<Op>,
    env: &mut Env,
    width: Width,
    a: Typed,
) -> Result<Option<Typed>, Memory>
    ensures value { IfOk result (λ t. t ≡ (emit width (act.Cast a.operand) env.old).value) }
    ensures env { OnOk result (env.new ≡ (emit width (act.Cast a.operand) env.old).env) }
    ensures ops { OnOk result (ops.new.items
        ≡ added context.entry.guard.now ops.old.items (emit width (act.Cast a.operand) env.old).ops) }
{
    let k = next(&env.widths)?;
    write(context, ops, env, width, k, Act::Cast(a.operand, k))
}

/// The hash of these.
pub fn hash(
    context: Context,
    ops: &mut Vec<Op>,
    env: &mut Env,
    width: Width,
    xs: Items<Operand>,
) -> Result<Option<Typed>, Memory>
    ensures value { IfOk result (λ t. t ≡ (emit width (act.Hash xs) env.old).value) }
    ensures env { OnOk result (env.new ≡ (emit width (act.Hash xs) env.old).env) }
    ensures ops { OnOk result (ops.new.items ≡ added context.entry.guard.now ops.old.items (emit width (act.Hash xs) env.old).ops) }
{
    let k = next(&env.widths)?;
    write(context, ops, env, width, k, Act::Hash(xs, k))
}

/// The declared array that is named. In a flat core each is.
fn array_at(name: ArrayName) -> u32
    ensures { result ≡ array_of [] name }
{
    match name {
        ArrayName::Global(a) => a,
        ArrayName::Param(_) => 0,
    }
}

/// A call of an array, with its operands.
pub fn call_array(
    context: Context,
    ops: &mut Vec<Op>,
    env: &mut Env,
    t: &Touch,
    index: Typed,
    get_arg: Typed,
    set_arg: Typed,
) -> Result<Option<Typed>, Memory>
    ensures value { IfOk result (λ x. x
        ≡ (touch_made (array_of [] t.now.array) t.now.get t.now.set t.now.answers (index, (get_arg, set_arg)) env.old).value) }
    ensures env { OnOk result (env.new
        ≡ (touch_made (array_of [] t.now.array) t.now.get t.now.set t.now.answers (index, (get_arg, set_arg)) env.old).env) }
    ensures ops { OnOk result (ops.new.items ≡ added context.entry.guard.now ops.old.items
        (touch_made (array_of [] t.now.array) t.now.get t.now.set t.now.answers (index, (get_arg, set_arg)) env.old).ops) }
{
    let array = array_at(t.array);
    let Some(place) = array.checked_add(1) else {
        return Err(Memory);
    };
    if t.answers {
        let k = next(&env.widths)?;
        let act = Act::Touch {
            array,
            index: index.operand,
            get: t.get,
            get_arg: get_arg.operand,
            set: t.set,
            set_arg: set_arg.operand,
            to: Some(k),
        };
        let value = write(context, ops, env, t.get.width, k, act)?;
        env.place = place;
        Ok(value)
    } else {
        let act = Act::Touch {
            array,
            index: index.operand,
            get: t.get,
            get_arg: get_arg.operand,
            set: t.set,
            set_arg: set_arg.operand,
            to: None,
        };
        put(context, ops, env.place, act)?;
        env.place = place;
        Ok(None)
    }
}

/// The field of one bit that holds a condition: a new one if the condition needs a move.
pub fn bit(
    context: Context,
    ops: &mut Vec<Op>,
    env: &mut Env,
    needs_move: bool,
    t: Typed,
) -> Result<u32, Memory>
    ensures value { IfOk result (λ k. k ≡ (bit_field needs_move t.operand t env.old).value) }
    ensures env { OnOk result (env.new ≡ (bit_field needs_move t.operand t env.old).env) }
    ensures ops { OnOk result (ops.new.items ≡ added context.entry.guard.now ops.old.items (bit_field needs_move t.operand t env.old).ops) }
{
    match t.operand {
        Operand::Fixed(_) => moved(context, ops, env, t),
        Operand::Field(k) => {
            if needs_move {
                moved(context, ops, env, t)
            } else {
                Ok(k)
            }
        }
    }
}

/// A move to a new field of one bit.
fn moved(context: Context, ops: &mut Vec<Op>, env: &mut Env, t: Typed) -> Result<u32, Memory>
    ensures value { IfOk result (λ k. k ≡ (moved_by t env.old).value) }
    ensures env { OnOk result (env.new ≡ (moved_by t env.old).env) }
    ensures ops { OnOk result (ops.new.items ≡ added context.entry.guard.now ops.old.items (moved_by t env.old).ops) }
{
    let k = next(&env.widths)?;
    write(context, ops, env, Width::bool(), k, Act::Move(t.operand, k))?;
    Ok(k)
}
