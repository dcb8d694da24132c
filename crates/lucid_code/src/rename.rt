// Acts with other operands and other written fields.
ghost use Rattle.std.specs.Prelude.{◌≡◌, map, IfOk};
ghost use Rattle.std.specs.Option.{option_map};
ghost use Rattle.lucid_code.specs.declared.op.Act.TheVariants as act;
ghost use Rattle.lucid_code.specs.Rename.{renamed};

use crate::{Act, Operand};
use lucid_base::{Items, MemAlu, Memory};
use std::alloc::Global;

/// The operands and written fields that replace those of acts.
pub trait Rename {
    ghost use Rattle.std.specs.Prelude.{ℕ};
    ghost use Rattle.lucid_code.specs.declared.op.Operand.{Operand};

    ghost operand_of: { Self → Operand → Operand };

    ghost field_of: { Self → ℕ → ℕ };

    /// Returns the operand that replaces this one.
    fn rename(&self, operand: Operand) -> Operand
        ensures { result ≡ operand_of self.now operand };

    /// Returns the written field that replaces this one.
    fn rename_field(&self, field: u32) -> u32
        ensures { result ≡ field_of self.now field };
}

impl Act {
    /// Returns the act with other operands and another written field.
    pub fn map<R: Rename>(&self, alloc: Global, names: &R) -> Result<Act, Memory>
        ensures { IfOk result (λ new. new ≡ renamed (R.operand_of names.now) (R.field_of names.now) self.now) }
    {
        match self {
            Act::Un(op, width, a, k) => Ok(Act::Un(
                *op,
                *width,
                names.rename(*a),
                names.rename_field(*k),
            )),
            Act::Bin(op, width, a, b, k) => Ok(Act::Bin(
                *op,
                *width,
                names.rename(*a),
                names.rename(*b),
                names.rename_field(*k),
            )),
            Act::Cmp(op, width, a, b, k) => Ok(Act::Cmp(
                *op,
                *width,
                names.rename(*a),
                names.rename(*b),
                names.rename_field(*k),
            )),
            Act::Cast(a, k) => Ok(Act::Cast(names.rename(*a), names.rename_field(*k))),
            Act::Hash(xs, k) => map_hash(alloc, names, xs.as_slice(), *k),
            Act::Move(a, k) => Ok(Act::Move(names.rename(*a), names.rename_field(*k))),
            Act::Touch {
                array,
                index,
                get,
                get_arg,
                set,
                set_arg,
                to,
            } => Ok(map_touch(names, *array, *index, *get, *get_arg, *set, *set_arg, *to)),
            Act::Gen {
                slot,
                event,
                args,
                delay,
                to,
            } => map_gen(alloc, names, *slot, *event, args.as_slice(), *delay, *to),
            Act::Say { slot, form, args } => {
                map_say(alloc, names, *slot, *form, args.as_slice())
            }
        }
    }
}

fn map_hash<R: Rename>(alloc: Global, names: &R, xs: &[Operand], k: u32) -> Result<Act, Memory>
    ensures { IfOk result (λ new. new ≡ renamed (R.operand_of names.now) (R.field_of names.now) (act.Hash xs.now k)) }
{
    Ok(Act::Hash(map_all(alloc, names, xs)?, names.rename_field(k)))
}

fn map_touch<R: Rename>(
    names: &R,
    array: u32,
    index: Operand,
    get: MemAlu,
    get_arg: Operand,
    set: MemAlu,
    set_arg: Operand,
    to: Option<u32>,
) -> Act
    ensures { result ≡ renamed (R.operand_of names.now) (R.field_of names.now) (act.Touch array index get get_arg set set_arg to) }
{
    Act::Touch {
        array,
        index: names.rename(index),
        get,
        get_arg: names.rename(get_arg),
        set,
        set_arg: names.rename(set_arg),
        to: map_field(names, to),
    }
}

fn map_gen<R: Rename>(
    alloc: Global,
    names: &R,
    slot: u32,
    event: u32,
    args: &[Operand],
    delay: Operand,
    to: Option<Operand>,
) -> Result<Act, Memory>
    ensures { IfOk result (λ new. new ≡ renamed (R.operand_of names.now) (R.field_of names.now) (act.Gen slot event args.now delay to)) }
{
    Ok(Act::Gen {
        slot,
        event,
        args: map_all(alloc, names, args)?,
        delay: names.rename(delay),
        to: map_target(names, to),
    })
}

fn map_say<R: Rename>(
    alloc: Global,
    names: &R,
    slot: u32,
    form: u32,
    args: &[Operand],
) -> Result<Act, Memory>
    ensures { IfOk result (λ new. new ≡ renamed (R.operand_of names.now) (R.field_of names.now) (act.Say slot form args.now)) }
{
    Ok(Act::Say {
        slot,
        form,
        args: map_all(alloc, names, args)?,
    })
}

fn map_all<R: Rename>(
    alloc: Global,
    names: &R,
    operands: &[Operand],
) -> Result<Items<Operand>, Memory>
    ensures { IfOk result (λ new. new ≡ map (R.operand_of names.now) operands.now) }
{
    let mut new = Items::new(alloc);
    for operand in operands {
        new.push(names.rename(*operand))?;
    }
    Ok(new)
}

fn map_field<R: Rename>(names: &R, to: Option<u32>) -> Option<u32>
    ensures { result ≡ option_map (R.field_of names.now) to }
{
    match to {
        None => None,
        Some(k) => Some(names.rename_field(k)),
    }
}

fn map_target<R: Rename>(names: &R, to: Option<Operand>) -> Option<Operand>
    ensures { result ≡ option_map (R.operand_of names.now) to }
{
    match to {
        None => None,
        Some(operand) => Some(names.rename(operand)),
    }
}
