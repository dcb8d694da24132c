// Statements: each function translates a part of one, and pushes what remains.
ghost use Rattle.std.specs.Prelude.{◌≡◌, [], OnOk};
ghost use Rattle.lucid_normal_spec.specs.Translate.{body_code, stmt_code};
ghost use Rattle.lucid_normal.specs.Bodies.{after_all, finished, listed, walk};
ghost use Rattle.lucid_normal.specs.declared.task.Purpose.TheVariants.{Gen};

use crate::ends::return_nothing;
use crate::expressions::express_then;
use crate::lists::list;
use crate::machine::Machine;
use crate::task::{End, Purpose, Task};
use crate::tasks::Tasks;
use lucid_base::{Items, Memory};
use lucid_core::{Expr, Stmt};
use lucid_normal_steps::needs_move;

/// Begins a block.
pub fn begin_block<'a>(
    tasks: &mut Tasks<'a>,
    machine: &mut Machine,
    stmts: &'a [Stmt],
) -> Result<(), Memory>
    ensures { OnOk result (after_all tasks.new (walk machine.new) ≡ after_all tasks.old (finished (body_code stmts.now) (walk machine.old))) }
{
    match stmts.split_first() {
        None => {
            machine.value = None;
            Ok(())
        }
        Some((stmt, rest)) => match rest.split_first() {
            None => statement(tasks, machine, stmt),
            Some(_) => {
                tasks.push(Task::Block(rest))?;
                statement(tasks, machine, stmt)
            }
        },
    }
}

/// Begins a statement.
fn statement<'a>(tasks: &mut Tasks<'a>, machine: &mut Machine, stmt: &'a Stmt) -> Result<(), Memory>
    ensures { OnOk result (after_all tasks.new (walk machine.new) ≡ after_all tasks.old (finished (stmt_code stmt.now) (walk machine.old))) }
{
    match stmt {
        Stmt::Assign(i, e) => express_then(tasks, machine, e, Task::Last(End::Assign(*i))),
        Stmt::Drop(e) => express_then(tasks, machine, e, Task::Last(End::Drop)),
        Stmt::If(e, yes, no) => {
            let task = Task::Choose {
                needs_move: needs_move(e),
                yes: yes.as_slice(),
                no: no.as_slice(),
            };
            express_then(tasks, machine, e, task)
        }
        Stmt::Gen {
            event,
            args,
            delay,
            to,
            delay_first,
        } => begin_event(tasks, machine, *event, args, delay, to, *delay_first),
        Stmt::Multi {
            event: _,
            args: _,
            delay: _,
            members: _,
        } => {
            machine.value = None;
            Ok(())
        }
        Stmt::Say { form, args } => {
            let purpose = Purpose::Say(*form);
            list(tasks, machine, args.as_slice(), &purpose)
        }
        Stmt::Return(e) => match e {
            None => return_nothing(machine),
            Some(e) => express_then(tasks, machine, e, Task::Last(End::Answer)),
        },
    }
}

/// Begins an event: translates its arguments.
fn begin_event<'a>(
    tasks: &mut Tasks<'a>,
    machine: &mut Machine,
    event: u32,
    args: &'a Items<Expr>,
    delay: &'a Option<Expr>,
    to: &'a Option<Expr>,
    delay_first: bool,
) -> Result<(), Memory>
    ensures { OnOk result (after_all tasks.new (walk machine.new)
        ≡ after_all tasks.old (listed [] args.now (Gen event delay.entry to.entry delay_first) (walk machine.old))) }
{
    let purpose = Purpose::Gen {
        event,
        delay,
        to,
        delay_first,
    };
    list(tasks, machine, args.as_slice(), &purpose)
}
