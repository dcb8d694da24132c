// Expressions: each function translates a part of one, and pushes what remains.
ghost use Rattle.std.specs.Prelude.{◌≡◌, OnOk};
ghost use Rattle.lucid_normal_spec.specs.Translate.{expr_code, touch_code};
ghost use Rattle.lucid_normal.specs.Bodies.{after_all, after_task, binary as binary_of, comparison as comparison_of, expressed, optional, second_operand, touch_at, touch_with, walk};

use crate::lists::{begin_inlined, list};
use crate::machine::Machine;
use crate::task::{End, Purpose, Task};
use crate::tasks::Tasks;
use lucid_base::{BinOp, CmpOp, Memory};
use lucid_code::Operand;
use lucid_core::{Expr, Touch};
use lucid_normal_spec::Typed;
use lucid_normal_steps::{held_at, input, needed};

/// Translates an expression: at once if it has no parts, otherwise as a task.
pub fn express<'a>(tasks: &mut Tasks<'a>, machine: &mut Machine, e: &'a Expr) -> Result<(), Memory>
    ensures { OnOk result (after_all tasks.new (walk machine.new) ≡ after_all tasks.old (expressed (expr_code e.now).made (walk machine.old))) }
{
    match e {
        Expr::Fixed(n) => {
            machine.value = Some(Typed {
                operand: Operand::Fixed(n.value),
                width: n.width,
            });
            Ok(())
        }
        Expr::Local(i) => {
            machine.value = held_at(machine.env.held.as_slice(), *i);
            Ok(())
        }
        Expr::Now => {
            machine.value = input(1);
            Ok(())
        }
        Expr::Me => {
            machine.value = input(2);
            Ok(())
        }
        _ => tasks.push(Task::Value(e)),
    }
}

/// Translates an expression, and does a task after it.
#[inline(always)]
pub fn express_then<'a>(
    tasks: &mut Tasks<'a>,
    machine: &mut Machine,
    e: &'a Expr,
    task: Task<'a>,
) -> Result<(), Memory>
    ensures { OnOk result (after_all tasks.new (walk machine.new)
        ≡ after_all tasks.old (after_task task.entry (expressed (expr_code e.now).made (walk machine.old)))) }
{
    tasks.push(task)?;
    express(tasks, machine, e)
}

/// Translates an expression if there is one, and does a task after it.
pub fn express_option_then<'a>(
    tasks: &mut Tasks<'a>,
    machine: &mut Machine,
    e: &'a Option<Expr>,
    task: Task<'a>,
) -> Result<(), Memory>
    ensures { OnOk result (after_all tasks.new (walk machine.new)
        ≡ after_all tasks.old (after_task task.entry (expressed (optional e.now) (walk machine.old)))) }
{
    tasks.push(task)?;
    match e {
        None => {
            machine.value = None;
            Ok(())
        }
        Some(e) => express(tasks, machine, e),
    }
}

/// Begins an expression that has parts.
pub fn begin<'a>(tasks: &mut Tasks<'a>, machine: &mut Machine, e: &'a Expr) -> Result<(), Memory>
    ensures { OnOk result (after_all tasks.new (walk machine.new) ≡ after_all tasks.old (expressed (expr_code e.now).made (walk machine.old))) }
{
    match e {
        Expr::Un(op, x) => express_then(tasks, machine, x.get(), Task::Last(End::Un(*op))),
        Expr::Bin(op, x, y) => {
            express_then(tasks, machine, x.get(), Task::BinLeft(*op, y.get()))
        }
        Expr::Cmp(op, x, y) => {
            express_then(tasks, machine, x.get(), Task::CmpLeft(*op, y.get()))
        }
        Expr::Cast(width, x) => {
            express_then(tasks, machine, x.get(), Task::Last(End::Cast(*width)))
        }
        Expr::Hash(width, xs) => {
            let purpose = Purpose::Hash(*width);
            list(tasks, machine, xs.as_slice(), &purpose)
        }
        Expr::Array(t) => touch(tasks, machine, t.get()),
        Expr::Fun(_, _, _) => {
            machine.value = None;
            Ok(())
        }
        Expr::Inlined(given, stmts) => {
            begin_inlined(tasks, machine, given.as_slice(), stmts.as_slice())
        }
        // No other expression has parts.
        _ => express(tasks, machine, e),
    }
}

/// Begins the call of an array.
fn touch<'a>(tasks: &mut Tasks<'a>, machine: &mut Machine, t: &'a Touch) -> Result<(), Memory>
    ensures { OnOk result (after_all tasks.new (walk machine.new) ≡ after_all tasks.old (expressed (touch_code t.now).made (walk machine.old))) }
{
    express_then(tasks, machine, &t.index, Task::TouchIndex(t))
}

/// The index of the call is translated.
pub fn touch_index<'a>(
    tasks: &mut Tasks<'a>,
    machine: &mut Machine,
    t: &'a Touch,
) -> Result<(), Memory>
    ensures { OnOk result (after_all tasks.new (walk machine.new) ≡ after_all tasks.old (touch_at t.now (walk machine.old))) }
{
    let task = Task::TouchGet(t, needed(machine.value));
    express_then(tasks, machine, &t.get_arg, task)
}

/// The argument of the first memop is translated.
pub fn touch_get<'a>(
    tasks: &mut Tasks<'a>,
    machine: &mut Machine,
    t: &'a Touch,
    index: Typed,
) -> Result<(), Memory>
    ensures { OnOk result (after_all tasks.new (walk machine.new) ≡ after_all tasks.old (touch_with t.now index (walk machine.old))) }
{
    let last = End::TouchSet(t, index, needed(machine.value));
    express_then(tasks, machine, &t.set_arg, Task::Last(last))
}

/// The first operand is translated.
pub fn bin_right<'a>(
    tasks: &mut Tasks<'a>,
    machine: &mut Machine,
    op: BinOp,
    y: &'a Expr,
) -> Result<(), Memory>
    ensures { OnOk result (after_all tasks.new (walk machine.new) ≡ after_all tasks.old (second_operand (binary_of op) y.now (walk machine.old))) }
{
    let last = End::BinRight(op, needed(machine.value));
    express_then(tasks, machine, y, Task::Last(last))
}

/// The first operand is translated.
pub fn cmp_right<'a>(
    tasks: &mut Tasks<'a>,
    machine: &mut Machine,
    op: CmpOp,
    y: &'a Expr,
) -> Result<(), Memory>
    ensures { OnOk result (after_all tasks.new (walk machine.new) ≡ after_all tasks.old (second_operand (comparison_of op) y.now (walk machine.old))) }
{
    let last = End::CmpRight(op, needed(machine.value));
    express_then(tasks, machine, y, Task::Last(last))
}
