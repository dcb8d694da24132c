// The branches of an `if`. A branch has one guard, which is dropped at its end.
ghost use Rattle.std.specs.Prelude.{◌≡◌, OnOk};
ghost use Rattle.lucid_normal.specs.Bodies.{after_all, chosen, joined, turned as turned_by, walk};
ghost use Rattle.lucid_normal_join.specs.Branches.{ends_at};

use crate::machine::Machine;
use crate::task::{End, Task};
use crate::tasks::Tasks;
use lucid_base::Memory;
use lucid_code::Guard;
use lucid_core::Stmt;
use lucid_normal_join::{Begun, Turned, begin, join, turn};
use lucid_normal_steps::{Context, bit, needed, within};
use std::mem;

/// Begins the first branch, after the condition.
pub fn choose<'a>(
    tasks: &mut Tasks<'a>,
    machine: &mut Machine,
    needs_move: bool,
    yes: &'a [Stmt],
    no: &'a [Stmt],
) -> Result<(), Memory>
    ensures { OnOk result (after_all tasks.new (walk machine.new) ≡ after_all tasks.old (chosen needs_move yes.now no.now (walk machine.old))) }
{
    let test = needed(machine.value);
    let context = Context {
        alloc: machine.alloc,
        guard: &machine.guard,
    };
    let condition = bit(
        context,
        &mut machine.work.ops,
        &mut machine.env,
        needs_move,
        test,
    )?;
    let inner = within(context, condition, 1)?;
    let begun = begin(machine.alloc, &mut machine.work, &machine.env);
    let outer = mem::replace(&mut machine.guard, inner);
    tasks.push(Task::Turn {
        begun,
        condition,
        outer,
        no,
    })?;
    tasks.push(Task::Block(yes))
}

/// Begins the second branch, after the first.
pub fn turn_back<'a>(
    tasks: &mut Tasks<'a>,
    machine: &mut Machine,
    begun: Begun,
    condition: u32,
    outer: Guard,
    no: &'a [Stmt],
) -> Result<(), Memory>
    ensures { OnOk result (after_all tasks.new (walk machine.new) ≡ after_all tasks.old (turned_by begun condition outer no.now (walk machine.old))) }
{
    let context = Context {
        alloc: machine.alloc,
        guard: &outer,
    };
    machine.guard = within(context, condition, 0)?;
    let turned = turn(machine.alloc, &mut machine.work, &mut machine.env, begun)?;
    tasks.push(Task::Last(End::Join {
        turned,
        condition,
        outer,
    }))?;
    tasks.push(Task::Block(no))
}

/// Ends an `if`, after both branches.
pub fn join_branches(
    machine: &mut Machine,
    turned: Turned,
    condition: u32,
    outer: Guard,
) -> Result<(), Memory>
    ensures { OnOk result (walk machine.new ≡ joined condition outer turned.notes.items (ends_at (walk machine.old).was turned.first) (walk machine.old)) }
{
    machine.guard = outer;
    let context = Context {
        alloc: machine.alloc,
        guard: &machine.guard,
    };
    join(
        context,
        &mut machine.work,
        &mut machine.env,
        condition,
        turned,
    )?;
    machine.value = None;
    Ok(())
}
