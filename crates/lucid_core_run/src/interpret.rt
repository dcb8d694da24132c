// Runs bodies and evaluates expressions as tasks, until none remains. Nothing here recurses, so the stack stays the same however deep they are.
ghost use Rattle.std.specs.Prelude.{◌≡◌, ◌++◌, ◌∷◌, [], OnOk, if◌then◌else◌, nat_eq};
ghost use Rattle.lucid_core.specs.Meaning.{effect_of, value_of};
ghost use Rattle.lucid_core_run.specs.declared.task.Purpose.TheVariants.{Gen, Multi};
ghost use Rattle.lucid_core_run.specs.Interpret.{Leads, after_all, after_task, done, inlined, listed, ran, valued};

use crate::acts::{end, set};
use crate::evaluate::{begin, evaluate_then};
use crate::list::{list, next, next_given};
use crate::machine::Machine;
use crate::operate::nothing;
use crate::task::{Act, Purpose, Task};
use crate::tasks::Tasks;
use lucid_base::{Bits, Items, Memory, Target};
use lucid_core::{Expr, Stmt};

/// Runs a body.
pub fn run_body<'a>(machine: &mut Machine<'a>, body: &'a [Stmt]) -> Result<(), Memory>
    ensures state { OnOk result (machine.new ≡ ran body.now machine.old) }
    ensures start { machine.new.run.start ≡ machine.old.run.start }
{
    run(machine, Task::Block(body))
}

/// Evaluates an expression.
pub fn run_value<'a>(machine: &mut Machine<'a>, e: &'a Expr) -> Result<(), Memory>
    ensures value { OnOk result (machine.new ≡ valued (value_of e.now) machine.old) }
    ensures start { machine.new.run.start ≡ machine.old.run.start }
{
    run(machine, Task::Value(e))
}

/// Does a task, and those that it leads to.
fn run<'a>(machine: &mut Machine<'a>, task: Task<'a>) -> Result<(), Memory>
    ensures state { OnOk result (machine.new ≡ after_task task.entry machine.old) }
    ensures start { machine.new.run.start ≡ machine.old.run.start }
{
    let mut tasks = Tasks::new(machine.alloc);
    let ended = run_first(&mut tasks, machine, task);
    drop(tasks);
    ended
}

/// The same with a list of tasks that is empty.
fn run_first<'a>(
    tasks: &mut Tasks<'a>,
    machine: &mut Machine<'a>,
    task: Task<'a>,
) -> Result<(), Memory>
    requires { tasks.old ≡ [] }
    ensures state { OnOk result (machine.new ≡ after_task task.entry machine.old) }
    ensures start { machine.new.run.start ≡ machine.old.run.start }
{
    step(tasks, machine, task)?;
    finish(tasks, machine)
}

/// Does all tasks.
fn finish<'a>(tasks: &mut Tasks<'a>, machine: &mut Machine<'a>) -> Result<(), Memory>
    ensures state { OnOk result (machine.new ≡ after_all tasks.old machine.old) }
    ensures start { machine.new.run.start ≡ machine.old.run.start }
{
    // No run does this many tasks.
    for _ in 0..u64::MAX {
        let Some(task) = tasks.pop() else {
            return Ok(());
        };
        step(tasks, machine, task)?;
    }
    Err(Memory)
}

/// Does a task.
fn step<'a>(tasks: &mut Tasks<'a>, machine: &mut Machine<'a>, task: Task<'a>) -> Result<(), Memory>
    ensures { Leads (after_all tasks.old (after_task task.entry machine.old)) machine.old.run.start tasks.new machine.new result }
{
    match task {
        Task::Value(e) => begin(tasks, machine, e),
        Task::BinLeft(op, b) => {
            let act = Act::BinRight(op, machine.value);
            evaluate_then(tasks, machine, b, Task::Last(act))
        }
        Task::CmpLeft(op, b) => {
            let act = Act::CmpRight(op, machine.value);
            evaluate_then(tasks, machine, b, Task::Last(act))
        }
        Task::TouchIndex(t) => {
            let task = Task::TouchGet(t, machine.value.value);
            evaluate_then(tasks, machine, &t.get_arg, task)
        }
        Task::TouchGet(t, index) => {
            let act = Act::TouchSet(t, index, machine.value);
            evaluate_then(tasks, machine, &t.set_arg, Task::Last(act))
        }
        Task::Next {
            done,
            rest,
            purpose,
        } => go_on(tasks, machine, done, rest, &purpose),
        Task::Given {
            held,
            local,
            rest,
            stmts,
        } => go_on_given(tasks, machine, held, local, rest, stmts),
        Task::Block(stmts) => block(tasks, machine, stmts),
        Task::Choose(yes, no) => choose(tasks, machine, yes, no),
        Task::DelayThenTarget { event, args, to } => {
            let delay = machine.value.value;
            let act = Act::SendTo { event, args, delay };
            evaluate_then(tasks, machine, to, Task::Last(act))
        }
        Task::TargetThenDelay { event, args, delay } => {
            let to = Target::At(machine.value.value);
            let act = Act::SendAfter { event, args, to };
            evaluate_then(tasks, machine, delay, Task::Last(act))
        }
        Task::Last(last) => {
            end(machine, last)?;
            Ok(())
        }
    }
}

/// Goes on with a list, after its next value.
fn go_on<'a>(
    tasks: &mut Tasks<'a>,
    machine: &mut Machine<'a>,
    done: Items<Bits>,
    rest: &'a [Expr],
    purpose: &Purpose<'a>,
) -> Result<(), Memory>
    ensures { Leads (after_all tasks.old (listed (done ++ machine.old.value ∷ []) rest.now purpose.now machine.old)) machine.old.run.start tasks.new machine.new result }
{
    let mut values = done;
    values.push(machine.value)?;
    next(tasks, machine, values, rest, purpose)
}

/// Goes on with the arguments of an inlined call, after the next one.
fn go_on_given<'a>(
    tasks: &mut Tasks<'a>,
    machine: &mut Machine<'a>,
    held: Items<(u32, Bits)>,
    local: u32,
    rest: &'a [(u32, Expr)],
    stmts: &'a [Stmt],
) -> Result<(), Memory>
    ensures { Leads (after_all tasks.old (inlined (held ++ (local, machine.old.value) ∷ []) rest.now stmts.now machine.old)) machine.old.run.start tasks.new machine.new result }
{
    let mut values = held;
    values.push((local, machine.value))?;
    next_given(tasks, machine, values, rest, stmts)
}

/// Runs the first block if the value isn't 0, otherwise the second.
fn choose<'a>(
    tasks: &mut Tasks<'a>,
    machine: &mut Machine<'a>,
    yes: &'a [Stmt],
    no: &'a [Stmt],
) -> Result<(), Memory>
    ensures { Leads (after_all tasks.old (ran (if nat_eq machine.old.value.value 0 then no.now else yes.now) machine.old)) machine.old.run.start tasks.new machine.new result }
{
    let stmts = select_branch(machine.value, yes, no);
    block(tasks, machine, stmts)
}

/// Runs a block.
fn block<'a>(
    tasks: &mut Tasks<'a>,
    machine: &mut Machine<'a>,
    stmts: &'a [Stmt],
) -> Result<(), Memory>
    ensures { Leads (after_all tasks.old (ran stmts.now machine.old)) machine.old.run.start tasks.new machine.new result }
{
    match stmts.split_first() {
        None => set(machine, nothing()),
        Some((stmt, rest)) => {
            tasks.push(Task::Block(rest))?;
            statement(tasks, machine, stmt)
        }
    }
}

/// Returns the first block if the value isn't 0, otherwise the second.
pub fn select_branch<'a>(value: Bits, yes: &'a [Stmt], no: &'a [Stmt]) -> &'a [Stmt]
    ensures { result.now ≡ (if nat_eq value.value 0 then no.now else yes.now) }
{
    if value.value == 0 { no } else { yes }
}

/// Begins a statement.
fn statement<'a>(
    tasks: &mut Tasks<'a>,
    machine: &mut Machine<'a>,
    stmt: &'a Stmt,
) -> Result<(), Memory>
    ensures { Leads (after_all tasks.old (done (effect_of stmt.now) machine.old)) machine.old.run.start tasks.new machine.new result }
{
    match stmt {
        Stmt::Assign(i, e) => evaluate_then(tasks, machine, e, Task::Last(Act::Assign(*i))),
        Stmt::Drop(e) => evaluate_then(tasks, machine, e, Task::Last(Act::Drop)),
        Stmt::If(e, yes, no) => {
            let task = Task::Choose(yes.as_slice(), no.as_slice());
            evaluate_then(tasks, machine, e, task)
        }
        Stmt::Gen {
            event,
            args,
            delay,
            to,
            delay_first,
        } => begin_event(tasks, machine, *event, args, delay, to, *delay_first),
        Stmt::Multi {
            event,
            args,
            delay,
            members,
        } => begin_copies(tasks, machine, *event, args, delay, members.as_slice()),
        Stmt::Say { form, args } => {
            let purpose = Purpose::Say(*form);
            list(tasks, machine, args.as_slice(), 0, &purpose)
        }
        Stmt::Return(None) => {
            machine.value = nothing();
            Ok(())
        }
        Stmt::Return(Some(e)) => evaluate_then(tasks, machine, e, Task::Last(Act::Answer)),
    }
}

/// Begins to send an event to one switch: evaluates its arguments.
fn begin_event<'a>(
    tasks: &mut Tasks<'a>,
    machine: &mut Machine<'a>,
    event: u32,
    args: &'a Items<Expr>,
    delay: &'a Option<Expr>,
    to: &'a Option<Expr>,
    delay_first: bool,
) -> Result<(), Memory>
    ensures { Leads (after_all tasks.old (listed [] args.now (Gen event delay.entry to.entry delay_first) machine.old)) machine.old.run.start tasks.new machine.new result }
{
    let purpose = Purpose::Gen {
        event,
        delay,
        to,
        delay_first,
    };
    list(tasks, machine, args.as_slice(), 0, &purpose)
}

/// Begins to send an event to several switches: evaluates its arguments.
fn begin_copies<'a>(
    tasks: &mut Tasks<'a>,
    machine: &mut Machine<'a>,
    event: u32,
    args: &'a Items<Expr>,
    delay: &'a Option<Expr>,
    members: &'a [u32],
) -> Result<(), Memory>
    ensures { Leads (after_all tasks.old (listed [] args.now (Multi event delay.entry members.entry) machine.old)) machine.old.run.start tasks.new machine.new result }
{
    let purpose = Purpose::Multi {
        event,
        delay,
        members,
    };
    list(tasks, machine, args.as_slice(), 0, &purpose)
}
