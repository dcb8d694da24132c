// Bodies with their calls inlined: does tasks until none remains. Nothing in it recurses, so it takes the same stack however deep calls are.
ghost use Rattle.std.specs.Prelude.{◌≡◌, [], IfOk, OnOk};
ghost use Rattle.lucid_inline_spec.specs.Flat.{flat_body as flat_body_of};
ghost use Rattle.lucid_inline.specs.Bodies.{Leads, after_all, after_task, opened, ran};
ghost use Rattle.lucid_inline.specs.Sites.{flattened};

use crate::calls::{call, leave};
use crate::endings::end;
use crate::expressions::{begin, build, evaluate_all};
use crate::machine::Machine;
use crate::stack::Stack;
use crate::statements::block;
use crate::task::Task;
use lucid_base::{Items, Memory, Width};
use lucid_core::{FunDef, HandlerDef, Stmt};
use std::alloc::Global;
use std::mem;

/// The body of a handler, and the widths of the handler's locals after it.
pub fn flat_body<'a>(
    alloc: Global,
    funs: &'a [FunDef],
    handler: &'a HandlerDef,
) -> Result<(Items<Stmt>, Items<Width>), Memory>
    ensures { IfOk result (λ made. flattened made.0 made.1 ≡ flat_body_of funs.now handler.now) }
{
    let locals = Items::from_slice(alloc, handler.locals.as_slice())?;
    let mut machine = Machine {
        alloc,
        arrays: Items::new(alloc),
        first: 0,
        funs,
        locals,
        operands: Stack::new(alloc),
        block: Items::new(alloc),
        outer: Stack::new(alloc),
        callers: Stack::new(alloc),
    };
    let ended = run(&mut machine, handler.body.as_slice());
    let body = mem::replace(&mut machine.block, Items::new(alloc));
    let locals = mem::replace(&mut machine.locals, Items::new(alloc));
    drop(machine);
    ended?;
    Ok((body, locals))
}

/// Appends the statements of a body to the block.
fn run<'a>(machine: &mut Machine<'a>, body: &'a [Stmt]) -> Result<(), Memory>
    ensures { OnOk result (machine.new ≡ ran body.now machine.old) }
{
    let mut tasks = Stack::new(machine.alloc);
    let ended = run_tasks(&mut tasks, machine, body);
    drop(tasks);
    ended
}

/// Appends the statements of a body with a list of tasks that is empty.
fn run_tasks<'a>(
    tasks: &mut Stack<Task<'a>>,
    machine: &mut Machine<'a>,
    body: &'a [Stmt],
) -> Result<(), Memory>
    requires { tasks.old ≡ [] }
    ensures { OnOk result (machine.new ≡ ran body.now machine.old) }
{
    block(tasks, machine, body)?;
    // No body takes this many tasks.
    for _ in 0..u64::MAX {
        let Some(task) = tasks.pop() else {
            return Ok(());
        };
        step(tasks, machine, &task)?;
    }
    Err(Memory)
}

/// Does a task.
fn step<'a>(
    tasks: &mut Stack<Task<'a>>,
    machine: &mut Machine<'a>,
    task: &Task<'a>,
) -> Result<(), Memory>
    ensures { Leads (after_all tasks.old (after_task task.now machine.old)) tasks.new machine.new result }
{
    match task {
        Task::Value(e) => begin(tasks, machine, *e),
        Task::Values(es) => evaluate_all(tasks, machine, *es),
        Task::Build(node) => build(
            machine.alloc,
            machine.arrays.as_slice(),
            node,
            &mut machine.operands,
        ),
        Task::Call { k, names, n } => call(tasks, machine, *k, *names, *n),
        Task::Leave => leave(machine),
        Task::Block(stmts) => block(tasks, machine, *stmts),
        Task::Open => open(machine),
        Task::End(ending) => end(machine, ending),
    }
}

/// Begins a branch.
fn open(machine: &mut Machine) -> Result<(), Memory>
    ensures { OnOk result (machine.new ≡ opened machine.old) }
{
    let block = mem::replace(&mut machine.block, Items::new(machine.alloc));
    machine.outer.push(block)
}
