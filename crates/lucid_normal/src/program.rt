// The normal form of a whole flat core.
ghost use Rattle.std.specs.Prelude.{◌≡◌, IfOk, IsTrue, length};
ghost use Rattle.lucid_code.specs.Nodes.{nodes_follow_writes};
ghost use Rattle.lucid_code.specs.Valid.{IsValid};
ghost use Rattle.lucid_core.specs.Length.{program_length};
ghost use Rattle.lucid_effects_spec.specs.Order.{IsAccepted};
ghost use Rattle.lucid_normal_spec.specs.Program.{translate};
ghost use Rattle.lucid_normal_spec.specs.Stands.{StandsFor};

use crate::handlers::build;
use crate::inputs::{arg_widths, input_widths};
use crate::law;
use lucid_base::{ArrayDef, Memory};
use lucid_code::{Code, Inputs};
use lucid_core::Flat;
use std::alloc::Global;

/// Translates an accepted flat core into valid code that represents it, with as many operations as are counted over it. Every node that
/// writes a field precedes each other node that reads it. Translation never rejects a program; its only error is out of memory.
pub fn normal(alloc: Global, flat: &Flat) -> Result<Code, Memory>
    requires { IsAccepted flat.now }
    ensures code { IfOk result (λ code. code ≡ translate flat.now) }
    ensures valid { IfOk result (λ code. IsValid code) }
    ensures stands { IfOk result (λ code. StandsFor code flat.now) }
    ensures length { IfOk result (λ code. length code.ops ≡ program_length flat.now) }
    ensures follows { IfOk result (λ code. IsTrue (nodes_follow_writes code.ops)) }
{
    law::normal_form_is_valid(flat);
    law::normal_form_stands(flat);
    law::normal_form_has_its_length(flat);
    law::normal_form_follows_writes(flat);
    translated(alloc, flat)
}

fn translated(alloc: Global, flat: &Flat) -> Result<Code, Memory>
    requires { IsAccepted flat.now }
    ensures { IfOk result (λ code. code ≡ translate flat.now) }
{
    law::normal_form_is_valid(flat);
    let args = arg_widths(alloc, flat.events())?;
    let inputs = inputs_of(args.len())?;
    let widths = input_widths(alloc, args)?;
    let built = build(alloc, flat, widths)?;
    let fields = Vec::from_slice(alloc, built.widths.as_slice())?;
    let arrays = copy_arrays(alloc, flat.arrays())?;
    Ok(Code::of_valid(fields, inputs, arrays, built.ops))
}

/// The event, the tick and the switch, and then this many arguments.
fn inputs_of(args: usize) -> Result<Inputs, Memory>
    ensures { IfOk result (λ inputs. inputs ≡ record { event = 0; now = 1; me = 2; args = args }) }
{
    match u32::try_from(args) {
        Err(_) => Err(Memory),
        Ok(args) => Ok(Inputs {
            event: 0,
            now: 1,
            me: 2,
            args,
        }),
    }
}

fn copy_arrays(alloc: Global, arrays: &[ArrayDef]) -> Result<Vec<ArrayDef>, Memory>
    ensures { IfOk result (λ copies. copies.items ≡ arrays.now) }
{
    let mut copies = Vec::new(alloc);
    for array in arrays {
        copies.push(array.copy(alloc)?)?;
    }
    Ok(copies)
}
