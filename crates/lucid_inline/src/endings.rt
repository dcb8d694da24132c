// The ends of statements: each is built of the last operands and branches, and appended to the block.
ghost use Rattle.std.specs.Prelude.{◌≡◌, ◌∷◌, ◌++◌, [], IfOk, OnOk, drop};
ghost use Rattle.lucid_core.specs.declared.body.Stmt.TheVariants as stmt;
ghost use Rattle.lucid_inline.specs.Sites.{sent_to_all};
ghost use Rattle.lucid_inline.specs.Bodies.{branched, ended, grouped, last, popped, sent_to_each, sent_to_one, with_stmt};

use crate::group::group;
use crate::machine::Machine;
use crate::site::shifted;
use crate::stack::Stack;
use crate::task::Ending;
use lucid_base::{Items, Memory};
use lucid_core::{Expr, Stmt};
use std::mem;

/// Ends a statement.
pub fn end(machine: &mut Machine, ending: &Ending) -> Result<(), Memory>
    ensures { OnOk result (machine.new ≡ ended ending.now machine.old.operands machine.old) }
{
    match ending {
        Ending::Assign(i) => {
            let local = shifted(machine.first, *i)?;
            let x = operand(&mut machine.operands)?;
            append(machine, Stmt::Assign(local, x))
        }
        Ending::Drop => {
            let x = operand(&mut machine.operands)?;
            append(machine, Stmt::Drop(x))
        }
        Ending::Branch => join(machine),
        Ending::Gen {
            event,
            n,
            delay,
            to,
            delay_first,
        } => send(machine, *event, *n, *delay, *to, *delay_first),
        Ending::Multi {
            event,
            n,
            delay,
            members,
        } => send_to_each(machine, *event, *n, *delay, members),
        Ending::Say { form, n } => {
            let args = Items::from_vec(machine.operands.take(*n)?);
            append(machine, Stmt::Say { form: *form, args })
        }
        Ending::Return => {
            let x = operand(&mut machine.operands)?;
            append(machine, Stmt::Return(Some(x)))
        }
    }
}

/// Appends a statement to the block.
pub fn append(machine: &mut Machine, stmt: Stmt) -> Result<(), Memory>
    ensures { OnOk result (machine.new ≡ with_stmt stmt machine.old.operands machine.old) }
{
    Ok(machine.block.push(stmt)?)
}

/// Removes the last operand.
fn operand(operands: &mut Stack<Expr>) -> Result<Expr, Memory>
    ensures { IfOk result (λ x. operands.old ≡ x ∷ operands.new) }
{
    match operands.pop() {
        None => Err(Memory),
        Some(x) => Ok(x),
    }
}

/// Removes the last operand where there is one.
fn operand_if(operands: &mut Stack<Expr>, there: bool) -> Result<Option<Expr>, Memory>
    ensures { IfOk result (λ x. popped there operands.old ≡ record { value = x; rest = operands.new }) }
{
    if there {
        let x = operand(operands)?;
        Ok(Some(x))
    } else {
        Ok(None)
    }
}

/// Ends an `if`.
fn join(machine: &mut Machine) -> Result<(), Memory>
    ensures { OnOk result (machine.new ≡ branched machine.old.operands machine.old.outer machine.old) }
{
    let test = operand(&mut machine.operands)?;
    match inner(&mut machine.outer, &mut machine.block) {
        Ok((yes, no)) => append(machine, Stmt::If(test, yes, no)),
        Err(memory) => {
            drop(test);
            Err(memory)
        }
    }
}

/// Ends two branches and returns them: the block and the one round it. The block becomes that in which they are.
fn inner(
    outer: &mut Stack<Items<Stmt>>,
    block: &mut Items<Stmt>,
) -> Result<(Items<Stmt>, Items<Stmt>), Memory>
    ensures outer { IfOk result (λ both. outer.old ≡ both.0 ∷ block.new ∷ outer.new) }
    ensures last { IfOk result (λ both. both.1 ≡ block.old) }
{
    let Some(first) = outer.pop() else {
        return Err(Memory);
    };
    match outer.pop() {
        Some(before) => {
            let second = mem::replace(block, before);
            Ok((first, second))
        }
        None => {
            drop(first);
            Err(Memory)
        }
    }
}

/// Ends an event to one switch.
fn send(
    machine: &mut Machine,
    event: u32,
    n: usize,
    delay: bool,
    to: bool,
    delay_first: bool,
) -> Result<(), Memory>
    ensures { OnOk result (machine.new ≡ sent_to_one event n delay to delay_first machine.old) }
{
    if delay_first {
        let (first, second) = operands_if(&mut machine.operands, delay, to)?;
        send_with(machine, event, n, first, second, true)
    } else {
        let (first, second) = operands_if(&mut machine.operands, to, delay)?;
        send_with(machine, event, n, second, first, false)
    }
}

/// Removes the last two operands where there are such, the second one first.
fn operands_if(
    operands: &mut Stack<Expr>,
    first: bool,
    second: bool,
) -> Result<(Option<Expr>, Option<Expr>), Memory>
    ensures { IfOk result (λ both. let last = popped second operands.old in
        (last.value ≡ both.1) × (popped first last.rest ≡ record { value = both.0; rest = operands.new })) }
{
    let last = operand_if(operands, second)?;
    match operand_if(operands, first) {
        Ok(first) => Ok((first, last)),
        Err(memory) => {
            drop(last);
            Err(memory)
        }
    }
}

/// Appends an event with a delay and a target, whose arguments are the last `n` operands.
fn send_with(
    machine: &mut Machine,
    event: u32,
    n: usize,
    delay: Option<Expr>,
    to: Option<Expr>,
    delay_first: bool,
) -> Result<(), Memory>
    ensures { OnOk result (machine.new ≡ with_stmt (stmt.Gen event (last n machine.old.operands) delay to delay_first) (drop n machine.old.operands) machine.old) }
{
    match machine.operands.take(n) {
        Ok(args) => {
            let stmt = Stmt::Gen {
                event,
                args: Items::from_vec(args),
                delay,
                to,
                delay_first,
            };
            append(machine, stmt)
        }
        Err(memory) => {
            drop(delay);
            drop(to);
            Err(memory)
        }
    }
}

/// Ends an event to several switches.
fn send_to_each(
    machine: &mut Machine,
    event: u32,
    n: usize,
    delay: bool,
    members: &[u32],
) -> Result<(), Memory>
    ensures { OnOk result (machine.new ≡ sent_to_each event n delay members.now machine.old.operands machine.old) }
{
    if delay {
        let delay = operand(&mut machine.operands)?;
        let held = take_with(&mut machine.operands, n, delay)?;
        append_group(machine, event, held, n, true, members)
    } else {
        let held = machine.operands.take(n)?;
        append_group(machine, event, held, n, false, members)
    }
}

/// Removes the last `n` operands, and returns them with another one behind them.
fn take_with(operands: &mut Stack<Expr>, n: usize, more: Expr) -> Result<Vec<Expr>, Memory>
    ensures taken { IfOk result (λ held. held.items ≡ last n operands.old ++ more ∷ []) }
    ensures rest { OnOk result (operands.new ≡ drop n operands.old) }
{
    match operands.take(n) {
        Ok(taken) => push_to(taken, more),
        Err(memory) => {
            drop(more);
            Err(memory)
        }
    }
}

fn push_to(items: Vec<Expr>, more: Expr) -> Result<Vec<Expr>, Memory>
    ensures { IfOk result (λ held. held.items ≡ items.items ++ more ∷ []) }
{
    let mut held = items;
    match held.push(more) {
        Ok(()) => Ok(held),
        Err(failed) => {
            drop(failed);
            drop(held);
            Err(Memory)
        }
    }
}

/// Appends the statements of a group.
fn append_group(
    machine: &mut Machine,
    event: u32,
    held: Vec<Expr>,
    n: usize,
    delayed: bool,
    members: &[u32],
) -> Result<(), Memory>
    ensures { OnOk result (machine.new ≡ grouped (sent_to_all event n delayed members.now held.items machine.old.locals) machine.old.operands machine.old) }
{
    let made = group(
        machine.alloc,
        &mut machine.locals,
        event,
        held,
        n,
        delayed,
        members,
    )?;
    Ok(machine.block.append(made)?)
}
