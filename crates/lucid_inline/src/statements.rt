// Statements: each is begun, and its operands and branches are made before it ends.
ghost use Rattle.std.specs.Prelude.{◌≡◌, OnOk};
ghost use Rattle.lucid_core.specs.declared.body.Stmt.TheVariants as stmt;
ghost use Rattle.lucid_inline.specs.Bodies.{Leads, after_all, both_valued, done, if_valued, ran};
ghost use Rattle.lucid_inline.specs.declared.machine.Machine.{Machine};

use crate::endings::append;
use crate::expressions::{evaluate, evaluate_all};
use crate::machine::Machine;
use crate::stack::Stack;
use crate::task::{Ending, Task};
use lucid_base::{Items, Memory};
use lucid_core::{Expr, Stmt};

/// Appends statements to the block.
pub fn block<'a>(
    tasks: &mut Stack<Task<'a>>,
    machine: &mut Machine<'a>,
    stmts: &'a [Stmt],
) -> Result<(), Memory>
    ensures { Leads (after_all tasks.old (ran stmts.now machine.old)) tasks.new machine.new result }
{
    match stmts.split_first() {
        None => Ok(()),
        Some((stmt, rest)) => {
            tasks.push(Task::Block(rest))?;
            statement(tasks, machine, stmt)
        }
    }
}

/// Begins a statement.
fn statement<'a>(
    tasks: &mut Stack<Task<'a>>,
    machine: &mut Machine<'a>,
    stmt: &'a Stmt,
) -> Result<(), Memory>
    ensures { Leads (after_all tasks.old (done stmt.now machine.old)) tasks.new machine.new result }
{
    match stmt {
        Stmt::Assign(i, e) => {
            tasks.push(Task::End(Ending::Assign(*i)))?;
            evaluate(tasks, machine, e)
        }
        Stmt::Drop(e) => {
            tasks.push(Task::End(Ending::Drop))?;
            evaluate(tasks, machine, e)
        }
        Stmt::If(e, yes, no) => begin_if(tasks, machine, e, yes, no),
        Stmt::Gen {
            event,
            args,
            delay,
            to,
            delay_first,
        } => begin_event(tasks, machine, *event, args, delay, to, *delay_first),
        Stmt::Multi {
            event,
            args,
            delay,
            members,
        } => begin_group(tasks, machine, *event, args, delay, members),
        Stmt::Say { form, args } => {
            tasks.push(Task::End(Ending::Say {
                form: *form,
                n: args.len(),
            }))?;
            evaluate_all(tasks, machine, args.as_slice())
        }
        Stmt::Return(e) => begin_return(tasks, machine, e),
    }
}

/// Begins a return.
fn begin_return<'a>(
    tasks: &mut Stack<Task<'a>>,
    machine: &mut Machine<'a>,
    e: &'a Option<Expr>,
) -> Result<(), Memory>
    ensures { Leads (after_all tasks.old (done (stmt.Return e.now) machine.old)) tasks.new machine.new result }
{
    match e {
        None => append(machine, Stmt::Return(None)),
        Some(e) => {
            tasks.push(Task::End(Ending::Return))?;
            evaluate(tasks, machine, e)
        }
    }
}

/// Begins an `if`.
fn begin_if<'a>(
    tasks: &mut Stack<Task<'a>>,
    machine: &mut Machine<'a>,
    e: &'a Expr,
    yes: &'a Items<Stmt>,
    no: &'a Items<Stmt>,
) -> Result<(), Memory>
    ensures { Leads (after_all tasks.old (done (stmt.If e.now yes.now no.now) machine.old)) tasks.new machine.new result }
{
    tasks.push(Task::End(Ending::Branch))?;
    tasks.push(Task::Block(no.as_slice()))?;
    tasks.push(Task::Open)?;
    tasks.push(Task::Block(yes.as_slice()))?;
    tasks.push(Task::Open)?;
    evaluate(tasks, machine, e)
}

/// Begins an event to one switch.
fn begin_event<'a>(
    tasks: &mut Stack<Task<'a>>,
    machine: &mut Machine<'a>,
    event: u32,
    args: &'a Items<Expr>,
    delay: &'a Option<Expr>,
    to: &'a Option<Expr>,
    delay_first: bool,
) -> Result<(), Memory>
    ensures { Leads (after_all tasks.old (done (stmt.Gen event args.now delay.now to.now delay_first) machine.old)) tasks.new machine.new result }
{
    tasks.push(Task::End(Ending::Gen {
        event,
        n: args.len(),
        delay: delay.is_some(),
        to: to.is_some(),
        delay_first,
    }))?;
    push_both(tasks, delay, to, delay_first)?;
    evaluate_all(tasks, machine, args.as_slice())
}

/// Begins an event to several switches.
fn begin_group<'a>(
    tasks: &mut Stack<Task<'a>>,
    machine: &mut Machine<'a>,
    event: u32,
    args: &'a Items<Expr>,
    delay: &'a Option<Expr>,
    members: &'a Items<u32>,
) -> Result<(), Memory>
    ensures { Leads (after_all tasks.old (done (stmt.Multi event args.now delay.now members.now) machine.old)) tasks.new machine.new result }
{
    tasks.push(Task::End(Ending::Multi {
        event,
        n: args.len(),
        delay: delay.is_some(),
        members: members.as_slice(),
    }))?;
    push_value(tasks, delay)?;
    evaluate_all(tasks, machine, args.as_slice())
}

/// Pushes the task that makes an expression an operand, if there is one.
fn push_value<'a>(tasks: &mut Stack<Task<'a>>, e: &'a Option<Expr>) -> Result<(), Memory>
    ensures { OnOk result ((machine : Machine) → after_all tasks.new machine ≡ after_all tasks.old (if_valued e.now machine)) }
{
    match e {
        None => Ok(()),
        Some(e) => tasks.push(Task::Value(e)),
    }
}

/// Pushes the tasks of a delay and a target, so that the delay is made first if the flag says so.
fn push_both<'a>(
    tasks: &mut Stack<Task<'a>>,
    delay: &'a Option<Expr>,
    to: &'a Option<Expr>,
    delay_first: bool,
) -> Result<(), Memory>
    ensures { OnOk result ((machine : Machine) → after_all tasks.new machine ≡ after_all tasks.old (both_valued delay_first delay.now to.now machine)) }
{
    if delay_first {
        push_value(tasks, to)?;
        push_value(tasks, delay)
    } else {
        push_value(tasks, delay)?;
        push_value(tasks, to)
    }
}
