// Expressions as tasks: the first part is pushed, and before it the task that goes on with its value.
ghost use Rattle.lucid_core.specs.Meaning.{touch_of, value_of};
ghost use Rattle.lucid_core_run.specs.Interpret.{Leads, after_all, after_task, valued};

use crate::acts::set;
use crate::list::{begin_call, begin_inlined, list};
use crate::machine::Machine;
use crate::task::{Act, Purpose, Task};
use crate::tasks::Tasks;
use lucid_base::{Bits, Memory, Width};
use lucid_core::{Expr, Touch};

/// Evaluates an expression, and does a task after it.
#[inline(always)]
pub fn evaluate_then<'a>(
    tasks: &mut Tasks<'a>,
    machine: &mut Machine<'a>,
    e: &'a Expr,
    task: Task<'a>,
) -> Result<(), Memory>
    ensures { Leads (after_all tasks.old (after_task task.entry (valued (value_of e.now) machine.old))) machine.old.run.start tasks.new machine.new result }
{
    tasks.push(task)?;
    tasks.push(Task::Value(e))?;
    Ok(())
}

/// Begins an expression.
pub fn begin<'a>(
    tasks: &mut Tasks<'a>,
    machine: &mut Machine<'a>,
    e: &'a Expr,
) -> Result<(), Memory>
    ensures { Leads (after_all tasks.old (valued (value_of e.now) machine.old)) machine.old.run.start tasks.new machine.new result }
{
    match e {
        Expr::Fixed(n) => set(machine, *n),
        Expr::Local(i) => {
            let value = machine.run.local(*i);
            set(machine, value)
        }
        Expr::Now => {
            let value = Bits::low(Width::int(), machine.moment.now);
            set(machine, value)
        }
        Expr::Me => {
            let value = Bits::low(Width::int(), machine.moment.me as u64);
            set(machine, value)
        }
        Expr::Un(op, a) => evaluate_then(tasks, machine, a.get(), Task::Last(Act::Un(*op))),
        Expr::Bin(op, a, b) => {
            evaluate_then(tasks, machine, a.get(), Task::BinLeft(*op, b.get()))
        }
        Expr::Cmp(op, a, b) => {
            evaluate_then(tasks, machine, a.get(), Task::CmpLeft(*op, b.get()))
        }
        Expr::Cast(width, a) => {
            evaluate_then(tasks, machine, a.get(), Task::Last(Act::Cast(*width)))
        }
        Expr::Hash(width, operands) => {
            let purpose = Purpose::Hash(*width);
            list(tasks, machine, operands.as_slice(), 0, &purpose)
        }
        Expr::Array(t) => touch(tasks, machine, t.get()),
        Expr::Fun(k, names, args) => {
            begin_call(tasks, machine, *k, names.as_slice(), args.as_slice())
        }
        Expr::Inlined(given, stmts) => {
            begin_inlined(tasks, machine, given.as_slice(), stmts.as_slice())
        }
    }
}

/// Begins the call of an array.
fn touch<'a>(tasks: &mut Tasks<'a>, machine: &mut Machine<'a>, t: &'a Touch) -> Result<(), Memory>
    ensures { Leads (after_all tasks.old (valued (touch_of t.now) machine.old)) machine.old.run.start tasks.new machine.new result }
{
    evaluate_then(tasks, machine, &t.index, Task::TouchIndex(t))
}
