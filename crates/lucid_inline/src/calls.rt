// Calls: the body of a function is inlined at the next locals.
ghost use Rattle.std.specs.Prelude.{◌≡◌, ◌++◌, IfOk, OnOk, drop, length, map};
ghost use Rattle.std.specs.List.{enumerate_from};
ghost use Rattle.lucid_core.specs.Computations.{array_of};
ghost use Rattle.lucid_inline.specs.Bodies.{Leads, after_all, entered, last, left, with_call};

use crate::expressions::inlined;
use crate::group::numbered;
use crate::machine::{Caller, Machine};
use crate::site::{arrays_at, earlier, next_number};
use crate::stack::Stack;
use crate::task::Task;
use lucid_base::{ArrayName, Items, Memory};
use lucid_core::{Expr, FunDef};
use std::mem;

/// Calls function `k` with the last `n` operands.
pub fn call<'a>(
    tasks: &mut Stack<Task<'a>>,
    machine: &mut Machine<'a>,
    k: u32,
    names: &'a [ArrayName],
    n: usize,
) -> Result<(), Memory>
    ensures { Leads (after_all tasks.old (with_call k names.now n machine.old)) tasks.new machine.new result }
{
    let given = take_given(machine, n)?;
    let funs = machine.funs;
    match earlier(funs, k) {
        None => inlined(machine, given),
        Some((before, f)) => {
            enter(machine, names, given, before, f)?;
            tasks.push(Task::Leave)?;
            tasks.push(Task::Block(f.body.as_slice()))
        }
    }
}

/// Removes the last `n` operands, and returns them with the next locals.
fn take_given(machine: &mut Machine, n: usize) -> Result<Items<(u32, Expr)>, Memory>
    ensures given { IfOk result (λ given. given ≡ enumerate_from (length machine.old.locals) (last n machine.old.operands)) }
    ensures rest { OnOk result (machine.new ≡ record machine.old { operands = drop n machine.old.operands }) }
{
    let first = next_number(machine.locals.len(), n)?;
    let args = machine.operands.take(n)?;
    numbered(machine.alloc, first, args)
}

/// Enters the body of a function, whose first locals hold these arguments.
fn enter<'a>(
    machine: &mut Machine<'a>,
    names: &'a [ArrayName],
    given: Items<(u32, Expr)>,
    before: &'a [FunDef],
    f: &'a FunDef,
) -> Result<(), Memory>
    ensures { OnOk result (machine.new ≡ entered names.now given (length machine.old.locals) before.entry f.now machine.old) }
{
    match begin_body(machine, names, f) {
        Ok((first, arrays)) => machine.callers.push(Caller {
            given,
            arrays: mem::replace(&mut machine.arrays, arrays),
            first: mem::replace(&mut machine.first, first),
            funs: mem::replace(&mut machine.funs, before),
            block: mem::replace(&mut machine.block, Items::new(machine.alloc)),
        }),
        Err(memory) => {
            drop(given);
            Err(memory)
        }
    }
}

/// Adds the locals of a function, and returns the number of the first one and the arrays that are passed to it.
fn begin_body(
    machine: &mut Machine,
    names: &[ArrayName],
    f: &FunDef,
) -> Result<(u32, Items<u32>), Memory>
    ensures first { IfOk result (λ both. both.0 ≡ length machine.old.locals) }
    ensures arrays { IfOk result (λ both. both.1 ≡ map (array_of machine.old.arrays) names.now) }
    ensures locals { OnOk result (machine.new ≡ record machine.old { locals = machine.old.locals ++ f.now.locals }) }
{
    let first = next_number(machine.locals.len(), 0)?;
    machine
        .locals
        .append(Items::from_slice(machine.alloc, f.locals.as_slice())?)?;
    let arrays = arrays_at(machine.alloc, machine.arrays.as_slice(), names)?;
    Ok((first, arrays))
}

/// Ends a call.
pub fn leave(machine: &mut Machine) -> Result<(), Memory>
    ensures { OnOk result (machine.new ≡ left machine.old.callers machine.old) }
{
    let Some(caller) = machine.callers.pop() else {
        return Err(Memory);
    };
    let Caller {
        given,
        arrays,
        first,
        funs,
        block,
    } = caller;
    machine.arrays = arrays;
    machine.first = first;
    machine.funs = funs;
    let body = mem::replace(&mut machine.block, block);
    machine.operands.push(Expr::Inlined(given, body))
}
