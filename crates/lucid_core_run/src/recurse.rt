// Runs and evaluates by recursion, at most `depth` levels deep. What is deeper is done as tasks (interpret.rt), in memory that grows.
ghost use Rattle.std.specs.Prelude.{◌≡◌, [], IfOk, IfSome, OnOk, map};
ghost use Rattle.std.specs.Option.{option_map};
ghost use Rattle.lucid_core.specs.Computations.{array_of, give};
ghost use Rattle.lucid_core.specs.Meaning.{call as call_of, delay_of, effect_of, expr_step, target_of, touch_of, value_of};
ghost use Rattle.lucid_core.specs.Values.{nothing as no_value};
ghost use Rattle.lucid_core.specs.declared.body.Expr.TheOpen.{Expr-F};
ghost use Rattle.lucid_core_run.specs.declared.task.Purpose.{Purpose};
ghost use Rattle.lucid_core_run.specs.declared.task.Purpose.TheVariants.{Gen, Hash, Multi, Say};
ghost use Rattle.lucid_core_run.specs.Interpret.{done, frame, in_state, listed, ran, used, valued, with_value};

use crate::acts;
use crate::draft::Draft;
use crate::interpret::{run_body, run_value, select_branch};
use crate::list::{arrays_at, earlier, locals_of, with_zeros};
use crate::machine::Machine;
use crate::operate::{binary, comparison, hashed, nothing, unary};
use lucid_base::{ArrayName, Bits, Items, Memory, Target, Width};
use lucid_core::{Expr, Stmt, Touch};
use std::mem;

/// Runs statements.
#[cycle(recurse)]
pub fn block<'a>(machine: &mut Machine<'a>, stmts: &'a [Stmt], depth: u32) -> Result<(), Memory>
    ensures state { OnOk result (machine.new ≡ ran stmts.now machine.old) }
    ensures start { machine.new.run.start ≡ machine.old.run.start }
{
    if depth == 0 {
        return run_body(machine, stmts);
    }
    let mut rest = stmts;
    'stmts: while let Some((stmt, after)) = rest.split_first() {
        statement(machine, stmt, depth - 1)?;
        rest = after;
    }
    machine.value = nothing();
    Ok(())
}

/// Runs a statement.
#[cycle(recurse)]
fn statement<'a>(machine: &mut Machine<'a>, stmt: &'a Stmt, depth: u32) -> Result<(), Memory>
    ensures state { OnOk result (machine.new ≡ done (effect_of stmt.now) machine.old) }
    ensures start { machine.new.run.start ≡ machine.old.run.start }
{
    match stmt {
        Stmt::Assign(i, e) => {
            evaluate(machine, e, depth)?;
            acts::assign(machine, *i);
            Ok(())
        }
        Stmt::Drop(e) => {
            evaluate(machine, e, depth)?;
            machine.value = nothing();
            Ok(())
        }
        Stmt::If(e, yes, no) => {
            evaluate(machine, e, depth)?;
            let branch = select_branch(machine.value, yes.as_slice(), no.as_slice());
            block(machine, branch, depth)
        }
        Stmt::Gen {
            event,
            args,
            delay,
            to,
            delay_first,
        } => {
            let args = args.as_slice();
            generate(machine, *event, args, delay, to, *delay_first, depth)
        }
        Stmt::Multi {
            event,
            args,
            delay,
            members,
        } => {
            let members = members.as_slice();
            generate_for_all(machine, *event, args.as_slice(), delay, members, depth)
        }
        Stmt::Say { form, args } => say(machine, *form, args.as_slice(), depth),
        Stmt::Return(None) => {
            machine.value = nothing();
            Ok(())
        }
        Stmt::Return(Some(e)) => {
            evaluate(machine, e, depth)?;
            acts::answer(machine);
            Ok(())
        }
    }
}

/// Sends an event to one switch.
#[cycle(recurse)]
fn generate<'a>(
    machine: &mut Machine<'a>,
    event: u32,
    args: &'a [Expr],
    delay: &'a Option<Expr>,
    to: &'a Option<Expr>,
    delay_first: bool,
    depth: u32,
) -> Result<(), Memory>
    ensures state { OnOk result (machine.new ≡ listed [] args.now (Gen event delay.entry to.entry delay_first) machine.old) }
    ensures start { machine.new.run.start ≡ machine.old.run.start }
{
    let values = values(machine, args, 0, depth)?;
    if delay_first {
        let ticks = ticks(machine, delay, depth)?;
        let target = target(machine, to, depth)?;
        acts::send_event(machine, event, values, ticks, target)
    } else {
        let target = target(machine, to, depth)?;
        let ticks = ticks(machine, delay, depth)?;
        acts::send_event(machine, event, values, ticks, target)
    }
}

/// Sends an event to several switches.
#[cycle(recurse)]
fn generate_for_all<'a>(
    machine: &mut Machine<'a>,
    event: u32,
    args: &'a [Expr],
    delay: &'a Option<Expr>,
    members: &'a [u32],
    depth: u32,
) -> Result<(), Memory>
    ensures state { OnOk result (machine.new ≡ listed [] args.now (Multi event delay.entry members.entry) machine.old) }
    ensures start { machine.new.run.start ≡ machine.old.run.start }
{
    let values = values(machine, args, 0, depth)?;
    let ticks = ticks(machine, delay, depth)?;
    acts::send_to_each(machine, event, values, ticks, members)
}

/// Returns the delay of an event. A missing one is 0.
#[cycle(recurse)]
fn ticks<'a>(machine: &mut Machine<'a>, delay: &'a Option<Expr>, depth: u32) -> Result<u64, Memory>
    ensures gives { IfOk result (λ ticks. ticks ≡ (delay_of (option_map value_of delay.now) (frame machine.old) machine.old.run.state).gives) }
    ensures after { OnOk result (machine.new ≡ with_value (in_state machine.old (delay_of (option_map value_of delay.now) (frame machine.old) machine.old.run.state).after) no_value) }
    ensures start { machine.new.run.start ≡ machine.old.run.start }
{
    match delay {
        None => {
            machine.value = nothing();
            Ok(0)
        }
        Some(e) => {
            evaluate(machine, e, depth)?;
            let value = mem::replace(&mut machine.value, nothing());
            Ok(value.value)
        }
    }
}

/// Returns the target of an event. A missing one is here.
#[cycle(recurse)]
fn target<'a>(machine: &mut Machine<'a>, to: &'a Option<Expr>, depth: u32) -> Result<Target, Memory>
    ensures gives { IfOk result (λ target. target ≡ (target_of (option_map value_of to.now) (frame machine.old) machine.old.run.state).gives) }
    ensures after { OnOk result (machine.new ≡ with_value (in_state machine.old (target_of (option_map value_of to.now) (frame machine.old) machine.old.run.state).after) no_value) }
    ensures start { machine.new.run.start ≡ machine.old.run.start }
{
    match to {
        None => {
            machine.value = nothing();
            Ok(Target::Here)
        }
        Some(e) => {
            evaluate(machine, e, depth)?;
            let value = mem::replace(&mut machine.value, nothing());
            Ok(Target::At(value.value))
        }
    }
}

/// Prints values.
#[cycle(recurse)]
fn say<'a>(machine: &mut Machine<'a>, form: u32, args: &'a [Expr], depth: u32) -> Result<(), Memory>
    ensures state { OnOk result (machine.new ≡ listed [] args.now (Say form) machine.old) }
    ensures start { machine.new.run.start ≡ machine.old.run.start }
{
    let args = values(machine, args, 0, depth)?;
    acts::send(machine, Draft::Say { form, args })
}

/// Evaluates an expression.
#[cycle(recurse)]
#[inline(always)]
fn evaluate<'a>(machine: &mut Machine<'a>, e: &'a Expr, depth: u32) -> Result<(), Memory>
    ensures value { OnOk result (machine.new ≡ valued (value_of e.now) machine.old) }
    ensures start { machine.new.run.start ≡ machine.old.run.start }
{
    match leaf(machine, e) {
        Some(value) => {
            machine.value = value;
            Ok(())
        }
        None => parts(machine, e, depth),
    }
}

/// Returns the value of an expression that has no parts.
#[inline(always)]
fn leaf(machine: &Machine, e: &Expr) -> Option<Bits>
    ensures { IfSome result (λ v. value_of e.now (frame machine.now) machine.now.run.state ≡ give v (frame machine.now) machine.now.run.state) }
{
    match e {
        Expr::Fixed(n) => Some(*n),
        Expr::Local(i) => Some(machine.run.local(*i)),
        Expr::Now => Some(Bits::low(Width::int(), machine.moment.now)),
        Expr::Me => Some(Bits::low(Width::int(), machine.moment.me as u64)),
        _ => None,
    }
}

/// Evaluates an expression that has parts.
#[cycle(recurse)]
fn parts<'a>(machine: &mut Machine<'a>, e: &'a Expr, depth: u32) -> Result<(), Memory>
    ensures value { OnOk result (machine.new ≡ valued (value_of e.now) machine.old) }
    ensures start { machine.new.run.start ≡ machine.old.run.start }
{
    if depth == 0 {
        return run_value(machine, e);
    }
    let depth = depth - 1;
    match e {
        Expr::Un(op, a) => {
            evaluate(machine, a.get(), depth)?;
            machine.value = unary(*op, machine.value);
            Ok(())
        }
        Expr::Bin(op, a, b) => {
            evaluate(machine, a.get(), depth)?;
            let x = machine.value;
            evaluate(machine, b.get(), depth)?;
            machine.value = binary(*op, x, machine.value);
            Ok(())
        }
        Expr::Cmp(op, a, b) => {
            evaluate(machine, a.get(), depth)?;
            let x = machine.value;
            evaluate(machine, b.get(), depth)?;
            machine.value = comparison(*op, x, machine.value);
            Ok(())
        }
        Expr::Cast(width, a) => {
            evaluate(machine, a.get(), depth)?;
            machine.value = Bits::low(*width, machine.value.value);
            Ok(())
        }
        Expr::Array(t) => touch(machine, t.get(), depth),
        Expr::Fun(k, names, args) => {
            begin_call(machine, *k, names.as_slice(), args.as_slice(), depth)
        }
        Expr::Hash(width, operands) => hash(machine, *width, operands.as_slice(), depth),
        _ => run_value(machine, e),
    }
}

/// Calls an array.
#[cycle(recurse)]
fn touch<'a>(machine: &mut Machine<'a>, t: &'a Touch, depth: u32) -> Result<(), Memory>
    ensures value { OnOk result (machine.new ≡ valued (touch_of t.now) machine.old) }
    ensures start { machine.new.run.start ≡ machine.old.run.start }
{
    evaluate(machine, &t.index, depth)?;
    let index = machine.value.value;
    evaluate(machine, &t.get_arg, depth)?;
    let get_arg = machine.value;
    evaluate(machine, &t.set_arg, depth)?;
    acts::touch(machine, t, index, get_arg)
}

/// Hashes the values of expressions.
#[cycle(recurse)]
fn hash<'a>(
    machine: &mut Machine<'a>,
    width: Width,
    operands: &'a [Expr],
    depth: u32,
) -> Result<(), Memory>
    ensures value { OnOk result (machine.new ≡ listed [] operands.now (Hash width) machine.old) }
    ensures start { machine.new.run.start ≡ machine.old.run.start }
{
    let values = values(machine, operands, 0, depth)?;
    machine.value = hashed(width, values);
    Ok(())
}

/// Begins a call of function `k`: evaluates its arguments into a list with capacity for its locals.
#[cycle(recurse)]
fn begin_call<'a>(
    machine: &mut Machine<'a>,
    k: u32,
    names: &'a [ArrayName],
    args: &'a [Expr],
    depth: u32,
) -> Result<(), Memory>
    ensures value { OnOk result (machine.new ≡ valued (expr_step (Expr-F.Fun k names.now (map value_of args.now))) machine.old) }
    ensures start { machine.new.run.start ≡ machine.old.run.start }
{
    let least = locals_of(machine.funs, k);
    let values = values(machine, args, least, depth)?;
    call(machine, k, names, values, depth)
}

/// Calls function `k`. Does nothing if there is no such function.
#[cycle(recurse)]
fn call<'a>(
    machine: &mut Machine<'a>,
    k: u32,
    names: &'a [ArrayName],
    args: Items<Bits>,
    depth: u32,
) -> Result<(), Memory>
    ensures value { OnOk result (machine.new ≡ valued (call_of k (map (array_of machine.old.arrays) names.now) args) machine.old) }
    ensures start { machine.new.run.start ≡ machine.old.run.start }
{
    let funs = machine.funs;
    match earlier(funs, k) {
        None => {
            machine.value = nothing();
            Ok(())
        }
        Some((before, f)) => {
            let arrays = arrays_at(machine.alloc, machine.arrays.as_slice(), names)?;
            let locals = with_zeros(args, f.locals.as_slice())?;
            let caller = machine.run.enter(locals);
            let arrays = mem::replace(&mut machine.arrays, arrays);
            machine.funs = before;
            block(machine, f.body.as_slice(), depth)?;
            acts::leave_call(machine, caller, arrays, funs);
            Ok(())
        }
    }
}

/// Returns the values of expressions, from left to right, in a list with capacity for at least this many.
#[cycle(recurse)]
#[tactic(auto, using(crate::proofs::ListLemmas::listed_next))]
fn values<'a>(
    machine: &mut Machine<'a>,
    es: &'a [Expr],
    least: usize,
    depth: u32,
) -> Result<Items<Bits>, Memory>
    ensures given { IfOk result (λ vs. (purpose : Purpose) → used purpose vs machine.new ≡ listed [] es.now purpose machine.old) }
    ensures start { machine.new.run.start ≡ machine.old.run.start }
{
    let most = least.max(es.len());
    let mut values = Items::from_vec(Vec::with_capacity(machine.alloc, most)?);
    let mut rest = es;
    'es: while let Some((e, after)) = rest.split_first() {
        evaluate(machine, e, depth)?;
        values.push(machine.value)?;
        rest = after;
    }
    Ok(values)
}
