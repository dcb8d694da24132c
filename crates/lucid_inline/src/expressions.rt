// Expressions: each is begun, its operands are made, and it is built of them.
ghost use Rattle.std.specs.Prelude.{◌≡◌, [], ◌∷◌, IfOk, OnOk};
ghost use Rattle.lucid_core.specs.declared.body.Expr.TheVariants as expr;
ghost use Rattle.lucid_inline.specs.Bodies.{Leads, after_all, all_valued, built, valued, with_touch};

use crate::machine::Machine;
use crate::site::{array_at, shifted};
use crate::stack::Stack;
use crate::task::{Node, Task};
use lucid_base::{ArrayName, Boxed, Items, Memory};
use lucid_core::{Expr, Touch};
use std::alloc::Global;

/// Makes an expression an operand: at once if it has no parts, otherwise as a task.
pub fn evaluate<'a>(
    tasks: &mut Stack<Task<'a>>,
    machine: &mut Machine<'a>,
    e: &'a Expr,
) -> Result<(), Memory>
    ensures { Leads (after_all tasks.old (valued e.now machine.old)) tasks.new machine.new result }
{
    match e {
        Expr::Fixed(n) => machine.operands.push(Expr::Fixed(*n)),
        Expr::Local(i) => {
            let local = shifted(machine.first, *i)?;
            machine.operands.push(Expr::Local(local))
        }
        Expr::Now => machine.operands.push(Expr::Now),
        Expr::Me => machine.operands.push(Expr::Me),
        _ => tasks.push(Task::Value(e)),
    }
}

/// Begins an expression.
pub fn begin<'a>(
    tasks: &mut Stack<Task<'a>>,
    machine: &mut Machine<'a>,
    e: &'a Expr,
) -> Result<(), Memory>
    ensures { Leads (after_all tasks.old (valued e.now machine.old)) tasks.new machine.new result }
{
    match e {
        Expr::Un(op, a) => {
            tasks.push(Task::Build(Node::Un(*op)))?;
            evaluate(tasks, machine, a.get())
        }
        Expr::Bin(op, a, b) => {
            tasks.push(Task::Build(Node::Bin(*op)))?;
            evaluate_both(tasks, machine, a.get(), b.get())
        }
        Expr::Cmp(op, a, b) => {
            tasks.push(Task::Build(Node::Cmp(*op)))?;
            evaluate_both(tasks, machine, a.get(), b.get())
        }
        Expr::Cast(width, a) => {
            tasks.push(Task::Build(Node::Cast(*width)))?;
            evaluate(tasks, machine, a.get())
        }
        Expr::Hash(width, xs) => {
            tasks.push(Task::Build(Node::Hash(*width, xs.len())))?;
            evaluate_all(tasks, machine, xs.as_slice())
        }
        Expr::Array(t) => touch(tasks, machine, t.get()),
        Expr::Fun(k, names, args) => {
            tasks.push(Task::Call {
                k: *k,
                names: names.as_slice(),
                n: args.len(),
            })?;
            evaluate_all(tasks, machine, args.as_slice())
        }
        Expr::Inlined(_, _) => {
            let given = Items::new(machine.alloc);
            inlined(machine, given)
        }
        // No other expression has parts.
        _ => evaluate(tasks, machine, e),
    }
}

/// Makes two expressions operands, the first one first.
fn evaluate_both<'a>(
    tasks: &mut Stack<Task<'a>>,
    machine: &mut Machine<'a>,
    a: &'a Expr,
    b: &'a Expr,
) -> Result<(), Memory>
    ensures { Leads (after_all tasks.old (valued b.now (valued a.now machine.old))) tasks.new machine.new result }
{
    tasks.push(Task::Value(b))?;
    evaluate(tasks, machine, a)
}

/// Begins a call of an array.
fn touch<'a>(
    tasks: &mut Stack<Task<'a>>,
    machine: &mut Machine<'a>,
    t: &'a Touch,
) -> Result<(), Memory>
    ensures { Leads (after_all tasks.old (valued (expr.Array t.now) machine.old)) tasks.new machine.new result }
{
    tasks.push(Task::Build(Node::Array(t)))?;
    tasks.push(Task::Value(&t.set_arg))?;
    evaluate_both(tasks, machine, &t.index, &t.get_arg)
}

/// Makes an inlined call without statements an operand.
pub fn inlined(machine: &mut Machine, given: Items<(u32, Expr)>) -> Result<(), Memory>
    ensures { OnOk result (machine.new ≡ record machine.old { operands = expr.Inlined given [] ∷ machine.old.operands }) }
{
    let body = Items::new(machine.alloc);
    machine.operands.push(Expr::Inlined(given, body))
}

/// Makes expressions operands, from left to right.
pub fn evaluate_all<'a>(
    tasks: &mut Stack<Task<'a>>,
    machine: &mut Machine<'a>,
    es: &'a [Expr],
) -> Result<(), Memory>
    ensures { Leads (after_all tasks.old (all_valued es.now machine.old)) tasks.new machine.new result }
{
    match es.split_first() {
        None => Ok(()),
        Some((e, rest)) => {
            tasks.push(Task::Values(rest))?;
            evaluate(tasks, machine, e)
        }
    }
}

/// Builds an expression of the last operands.
pub fn build(
    alloc: Global,
    arrays: &[u32],
    node: &Node,
    operands: &mut Stack<Expr>,
) -> Result<(), Memory>
    ensures { OnOk result (operands.new ≡ built arrays.now node.now operands.old) }
{
    match node {
        Node::Un(op) => {
            let a = boxed(alloc, operands)?;
            operands.push(Expr::Un(*op, a))
        }
        Node::Bin(op) => {
            let b = boxed(alloc, operands)?;
            let a = boxed(alloc, operands)?;
            operands.push(Expr::Bin(*op, a, b))
        }
        Node::Cmp(op) => {
            let b = boxed(alloc, operands)?;
            let a = boxed(alloc, operands)?;
            operands.push(Expr::Cmp(*op, a, b))
        }
        Node::Cast(width) => {
            let a = boxed(alloc, operands)?;
            operands.push(Expr::Cast(*width, a))
        }
        Node::Hash(width, n) => {
            let xs = Items::from_vec(operands.take(*n)?);
            operands.push(Expr::Hash(*width, xs))
        }
        Node::Array(t) => build_touch(alloc, arrays, t, operands),
    }
}

/// Removes the last operand, into a box.
fn boxed(alloc: Global, operands: &mut Stack<Expr>) -> Result<Boxed<Expr>, Memory>
    ensures { IfOk result (λ x. operands.old ≡ x ∷ operands.new) }
{
    let Some(x) = operands.pop() else {
        return Err(Memory);
    };
    Ok(Boxed::new(alloc, x)?)
}

/// Builds a call of an array of the last operands.
fn build_touch(
    alloc: Global,
    arrays: &[u32],
    t: &Touch,
    operands: &mut Stack<Expr>,
) -> Result<(), Memory>
    ensures { OnOk result (operands.new ≡ with_touch arrays.now t.now operands.old) }
{
    let Some(set_arg) = operands.pop() else {
        return Err(Memory);
    };
    let Some(get_arg) = operands.pop() else {
        drop(set_arg);
        return Err(Memory);
    };
    let Some(index) = operands.pop() else {
        drop(set_arg);
        drop(get_arg);
        return Err(Memory);
    };
    let made = Touch {
        array: ArrayName::Global(array_at(arrays, t.array)),
        index,
        get: t.get,
        get_arg,
        set: t.set,
        set_arg,
        answers: t.answers,
    };
    let made = Boxed::new(alloc, made)?;
    operands.push(Expr::Array(made))
}
