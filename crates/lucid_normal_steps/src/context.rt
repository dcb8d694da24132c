// Where operations are built.
ghost use Rattle.std.specs.Prelude.{◌≡◌, [], ◌∷◌, ◌++◌, IfOk, OnOk, length, true};
ghost use Rattle.lucid_normal_spec.specs.Translate.{op as op_of};
ghost use Rattle.lucid_normal_steps.specs.Added.{added};

use lucid_base::{Items, Memory, Width};
use lucid_code::{Act, Guard, Literal, Op};
use std::alloc::Global;

/// The memory that operations take, and the guard that all of them have, its outermost literal first.
#[derive(Clone, Copy)]
pub struct Context<'a> {
    pub alloc: Global,
    pub guard: &'a Guard,
}

/// An operation of this level.
pub fn put(context: Context, ops: &mut Vec<Op>, level: u32, act: Act) -> Result<(), Memory>
    ensures { OnOk result (ops.new.items ≡ added context.entry.guard.now ops.old.items (op_of level act ∷ [])) }
{
    ops.push(Op {
        guard: context.guard.share()?,
        level,
        act,
    })?;
    Ok(())
}

/// The guard of all operations here, and that the field has this value.
pub fn within(context: Context, field: u32, value: u64) -> Result<Guard, Memory>
    ensures { IfOk result (λ guard. guard ≡ context.entry.guard.now ++ record { field = field; equal = true; value = value } ∷ []) }
{
    let outer = context.guard.as_slice();
    let mut literals = Vec::with_capacity(context.alloc, outer.len().saturating_add(1))?;
    literals.extend_from_slice(outer)?;
    literals.push(Literal {
        field,
        equal: true,
        value,
    })?;
    Guard::new(context.alloc, Items::from_vec(literals))
}

/// The number of the next field.
pub fn next(widths: &Items<Width>) -> Result<u32, Memory>
    ensures { IfOk result (λ k. k ≡ length widths.now) }
{
    match u32::try_from(widths.len()) {
        Err(_) => Err(Memory),
        Ok(k) => Ok(k),
    }
}
