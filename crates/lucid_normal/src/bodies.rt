// Bodies as operations: does tasks until none remains. Nothing in it recurses, so a walk takes the same stack however deep its calls are.
ghost use Rattle.std.specs.Prelude.{◌≡◌, [], IfOk, OnOk, map};
ghost use Rattle.lucid_normal_spec.specs.Translate.{body_code, seq, stmt_code};
ghost use Rattle.lucid_normal_steps.specs.Added.{added};
ghost use Rattle.lucid_normal_steps.specs.Notes.{before};
ghost use Rattle.lucid_normal.specs.Bodies.{after_all, after_task, finished, walk};

use crate::branches::{choose, turn_back};
use crate::ends::end;
use crate::expressions::{begin, bin_right, cmp_right, touch_get, touch_index};
use crate::lists::{delay_last, go_on, go_on_given, target_last};
use crate::machine::Machine;
use crate::statements::begin_block;
use crate::task::Task;
use crate::tasks::Tasks;
use lucid_base::{Items, Memory};
use lucid_core::Stmt;
use lucid_normal_spec::Env;
use lucid_normal_steps::{Context, Work};
use std::mem;

/// Statements, each behind those before it.
pub fn block(context: Context, work: &mut Work, env: &mut Env, stmts: &[Stmt]) -> Result<(), Memory>
    ensures env { OnOk result (env.new ≡ (seq (map stmt_code stmts.now) env.old).env) }
    ensures ops { OnOk result (work.new.ops.items
        ≡ added context.entry.guard.now work.old.ops.items (seq (map stmt_code stmts.now) env.old).ops) }
    ensures back { OnOk result (before work.new.notes.items env.new.held ≡ before work.old.notes.items env.old.held) }
{
    let mut machine = begin_walk(context, work, env)?;
    let walked = run(&mut machine, stmts);
    end_walk(machine, work, env);
    walked
}

/// Begins a walk. Leaves nothing in `work` and `env`.
fn begin_walk(context: Context, work: &mut Work, env: &mut Env) -> Result<Machine, Memory>
    ensures guard { IfOk result (λ m. m.guard ≡ context.entry.guard.now) }
    ensures env { IfOk result (λ m. m.env ≡ env.old) }
    ensures work { IfOk result (λ m. m.work ≡ work.old) }
{
    let alloc = context.alloc;
    let guard = context.guard.share()?;
    let no_work = Work {
        ops: Vec::new(alloc),
        notes: Vec::new(alloc),
    };
    let no_env = Env {
        widths: Items::new(alloc),
        held: Items::new(alloc),
        answer: None,
        slot: 0,
        place: 0,
    };
    Ok(Machine {
        alloc,
        guard,
        work: mem::replace(work, no_work),
        env: mem::replace(env, no_env),
        value: None,
    })
}

/// Ends a walk.
fn end_walk(machine: Machine, work: &mut Work, env: &mut Env)
    ensures env { env.new ≡ machine.env }
    ensures work { work.new ≡ machine.work }
{
    *work = machine.work;
    *env = machine.env;
}

/// Translates a body.
fn run(machine: &mut Machine, stmts: &[Stmt]) -> Result<(), Memory>
    ensures { OnOk result (walk machine.new ≡ finished (body_code stmts.now) (walk machine.old)) }
{
    let mut tasks = Tasks::new(machine.alloc);
    let ended = run_tasks(&mut tasks, machine, stmts);
    drop(tasks);
    ended
}

/// Translates a body with a list of tasks that is empty.
fn run_tasks<'a>(
    tasks: &mut Tasks<'a>,
    machine: &mut Machine,
    stmts: &'a [Stmt],
) -> Result<(), Memory>
    requires { tasks.old ≡ [] }
    ensures { OnOk result (walk machine.new ≡ finished (body_code stmts.now) (walk machine.old)) }
{
    begin_block(tasks, machine, stmts)?;
    // No walk does this many tasks.
    for _ in 0..u64::MAX {
        let Some(task) = tasks.pop() else {
            return Ok(());
        };
        step(tasks, machine, task)?;
    }
    Err(Memory)
}

/// Does a task.
fn step<'a>(tasks: &mut Tasks<'a>, machine: &mut Machine, task: Task<'a>) -> Result<(), Memory>
    ensures { OnOk result (after_all tasks.new (walk machine.new) ≡ after_all tasks.old (after_task task.entry (walk machine.old))) }
{
    match task {
        Task::Value(e) => begin(tasks, machine, e),
        Task::BinLeft(op, y) => bin_right(tasks, machine, op, y),
        Task::CmpLeft(op, y) => cmp_right(tasks, machine, op, y),
        Task::TouchIndex(t) => touch_index(tasks, machine, t),
        Task::TouchGet(t, index) => touch_get(tasks, machine, t, index),
        Task::Next {
            done,
            rest,
            purpose,
        } => go_on(tasks, machine, done, rest, &purpose),
        Task::Given {
            held,
            local,
            rest,
            stmts,
        } => go_on_given(tasks, machine, held, local, rest, stmts),
        Task::Block(stmts) => begin_block(tasks, machine, stmts),
        Task::Choose {
            needs_move,
            yes,
            no,
        } => choose(tasks, machine, needs_move, yes, no),
        Task::Turn {
            begun,
            condition,
            outer,
            no,
        } => turn_back(tasks, machine, begun, condition, outer, no),
        Task::DelayThenTarget { event, args, to } => target_last(tasks, machine, event, args, to),
        Task::TargetThenDelay {
            event,
            args,
            targeted,
            delay,
        } => delay_last(tasks, machine, event, args, targeted, delay),
        Task::Last(last) => end(machine, last),
    }
}
