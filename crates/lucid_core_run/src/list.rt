// Lists of expressions, and what their values are for: a hash, a call of a function, an event or a print.
ghost use Rattle.std.specs.Prelude.{◌≡◌, [], IfOk, IfSome, map, slice_get, take};
ghost use Rattle.std.specs.Option.{option_map};
ghost use Rattle.lucid_core.specs.Computations.{array_of, begun_with};
ghost use Rattle.lucid_core.specs.Meaning.{call as call_of, effect_of, expr_step, holding, value_of};
ghost use Rattle.lucid_core.specs.declared.body.Expr.TheOpen.{Expr-F};
ghost use Rattle.lucid_core_run.specs.Interpret.{Leads, after_all, generated_with, inlined, listed, sent_after, used, valued};

use crate::acts::{array_at, send, send_event, send_to_each};
use crate::draft::Draft;
use crate::evaluate::evaluate_then;
use crate::machine::Machine;
use crate::operate::{hashed, nothing};
use crate::run::Run;
use crate::task::{Act, Purpose, Task};
use crate::tasks::Tasks;
use lucid_base::{ArrayName, Bits, Items, Memory, Target, Width};
use lucid_core::{Expr, FunDef, Stmt};
use std::alloc::Global;
use std::mem;

/// Evaluates expressions from left to right, into a list with capacity for at least this many values.
pub fn list<'a>(
    tasks: &mut Tasks<'a>,
    machine: &mut Machine<'a>,
    es: &'a [Expr],
    least: usize,
    purpose: &Purpose<'a>,
) -> Result<(), Memory>
    ensures { Leads (after_all tasks.old (listed [] es.now purpose.now machine.old)) machine.old.run.start tasks.new machine.new result }
{
    let most = least.max(es.len());
    let values = Items::from_vec(Vec::with_capacity(machine.alloc, most)?);
    next(tasks, machine, values, es, purpose)
}

/// Evaluates the rest of a list, after these values.
#[tactic(auto, using(crate::proofs::ListLemmas::listed_next))]
pub fn next<'a>(
    tasks: &mut Tasks<'a>,
    machine: &mut Machine<'a>,
    values: Items<Bits>,
    rest: &'a [Expr],
    purpose: &Purpose<'a>,
) -> Result<(), Memory>
    ensures { Leads (after_all tasks.old (listed values rest.now purpose.now machine.old)) machine.old.run.start tasks.new machine.new result }
{
    match rest.split_first() {
        None => complete(tasks, machine, values, purpose),
        Some((e, rest)) => {
            let task = Task::Next {
                done: values,
                rest,
                purpose: same(purpose),
            };
            evaluate_then(tasks, machine, e, task)
        }
    }
}

/// Returns a copy.
fn same<'a>(purpose: &Purpose<'a>) -> Purpose<'a>
    ensures { result ≡ purpose.now }
{
    match purpose {
        Purpose::Hash(width) => Purpose::Hash(*width),
        Purpose::Call(k, names) => Purpose::Call(*k, *names),
        Purpose::Gen {
            event,
            delay,
            to,
            delay_first,
        } => Purpose::Gen {
            event: *event,
            delay: *delay,
            to: *to,
            delay_first: *delay_first,
        },
        Purpose::Multi {
            event,
            delay,
            members,
        } => Purpose::Multi {
            event: *event,
            delay: *delay,
            members: *members,
        },
        Purpose::Say(form) => Purpose::Say(*form),
    }
}

/// Does what the values are for.
fn complete<'a>(
    tasks: &mut Tasks<'a>,
    machine: &mut Machine<'a>,
    values: Items<Bits>,
    purpose: &Purpose<'a>,
) -> Result<(), Memory>
    ensures { Leads (after_all tasks.old (used purpose.now values machine.old)) machine.old.run.start tasks.new machine.new result }
{
    match *purpose {
        Purpose::Hash(width) => {
            machine.value = hashed(width, values);
            Ok(())
        }
        Purpose::Call(k, names) => call(tasks, machine, k, names, values),
        Purpose::Gen {
            event,
            delay,
            to,
            delay_first,
        } => generate(tasks, machine, event, values, delay, to, delay_first),
        Purpose::Multi {
            event,
            delay,
            members,
        } => generate_for_all(tasks, machine, event, values, delay, members),
        Purpose::Say(form) => {
            send(machine, Draft::Say { form, args: values })?;
            Ok(())
        }
    }
}

/// Begins a call of function `k`: evaluates its arguments into a list with capacity for its locals.
pub fn begin_call<'a>(
    tasks: &mut Tasks<'a>,
    machine: &mut Machine<'a>,
    k: u32,
    names: &'a [ArrayName],
    args: &'a [Expr],
) -> Result<(), Memory>
    ensures { Leads (after_all tasks.old (valued (expr_step (Expr-F.Fun k names.now (map value_of args.now))) machine.old)) machine.old.run.start tasks.new machine.new result }
{
    let least = locals_of(machine.funs, k);
    let purpose = Purpose::Call(k, names);
    list(tasks, machine, args, least, &purpose)
}

/// Calls function `k`. Does nothing if there is no such function.
fn call<'a>(
    tasks: &mut Tasks<'a>,
    machine: &mut Machine<'a>,
    k: u32,
    names: &'a [ArrayName],
    args: Items<Bits>,
) -> Result<(), Memory>
    ensures { Leads (after_all tasks.old (valued (call_of k (map (array_of machine.old.arrays) names.now) args) machine.old)) machine.old.run.start tasks.new machine.new result }
{
    let funs = machine.funs;
    match earlier(funs, k) {
        None => {
            machine.value = nothing();
            Ok(())
        }
        Some((before, f)) => {
            let arrays = arrays_at(machine.alloc, machine.arrays.as_slice(), names)?;
            let locals = with_zeros(args, f.locals.as_slice())?;
            let caller = machine.run.enter(locals);
            let arrays = mem::replace(&mut machine.arrays, arrays);
            machine.funs = before;
            tasks.push(Task::Last(Act::Leave(caller, arrays, funs)))?;
            tasks.push(Task::Block(f.body.as_slice()))?;
            Ok(())
        }
    }
}

/// Sends an event with its delay and its target, in the order in which they are written. Missing ones are 0 and here.
fn generate<'a>(
    tasks: &mut Tasks<'a>,
    machine: &mut Machine<'a>,
    event: u32,
    args: Items<Bits>,
    delay: &'a Option<Expr>,
    to: &'a Option<Expr>,
    delay_first: bool,
) -> Result<(), Memory>
    ensures { Leads (after_all tasks.old (generated_with event args delay.now to.now delay_first machine.old)) machine.old.run.start tasks.new machine.new result }
{
    match (delay, to) {
        (None, None) => {
            let (delay, to) = (0, Target::Here);
            send_event(machine, event, args, delay, to)?;
            Ok(())
        }
        (Some(delay), None) => {
            let to = Target::Here;
            let act = Act::SendAfter { event, args, to };
            evaluate_then(tasks, machine, delay, Task::Last(act))
        }
        (None, Some(to)) => {
            let delay = 0;
            let act = Act::SendTo { event, args, delay };
            evaluate_then(tasks, machine, to, Task::Last(act))
        }
        (Some(delay), Some(to)) => {
            if delay_first {
                let task = Task::DelayThenTarget { event, args, to };
                evaluate_then(tasks, machine, delay, task)
            } else {
                let task = Task::TargetThenDelay { event, args, delay };
                evaluate_then(tasks, machine, to, task)
            }
        }
    }
}

/// Sends an event to each of these switches.
fn generate_for_all<'a>(
    tasks: &mut Tasks<'a>,
    machine: &mut Machine<'a>,
    event: u32,
    args: Items<Bits>,
    delay: &'a Option<Expr>,
    members: &'a [u32],
) -> Result<(), Memory>
    ensures { Leads (after_all tasks.old (sent_after event args delay.now members.now machine.old)) machine.old.run.start tasks.new machine.new result }
{
    match delay {
        None => {
            send_to_each(machine, event, args, 0, members)?;
            Ok(())
        }
        Some(delay) => {
            let act = Act::SendEach {
                event,
                args,
                members,
            };
            evaluate_then(tasks, machine, delay, Task::Last(act))
        }
    }
}

/// Evaluates an inlined call: its body runs on a copy of the locals in which the arguments are bound.
pub fn begin_inlined<'a>(
    tasks: &mut Tasks<'a>,
    machine: &mut Machine<'a>,
    given: &'a [(u32, Expr)],
    stmts: &'a [Stmt],
) -> Result<(), Memory>
    ensures { Leads (after_all tasks.old (valued (expr_step (Expr-F.Inlined (map (λ g. (g.0, value_of g.1)) given.now) (map effect_of stmts.now))) machine.old)) machine.old.run.start tasks.new machine.new result }
{
    let held = Items::from_vec(Vec::with_capacity(machine.alloc, given.len())?);
    next_given(tasks, machine, held, given, stmts)
}

/// Evaluates the rest of the arguments of an inlined call, after these.
#[tactic(auto, using(crate::proofs::ListLemmas::inlined_next))]
pub fn next_given<'a>(
    tasks: &mut Tasks<'a>,
    machine: &mut Machine<'a>,
    held: Items<(u32, Bits)>,
    rest: &'a [(u32, Expr)],
    stmts: &'a [Stmt],
) -> Result<(), Memory>
    ensures { Leads (after_all tasks.old (inlined held rest.now stmts.now machine.old)) machine.old.run.start tasks.new machine.new result }
{
    match rest.split_first() {
        None => enter_inlined(tasks, machine, held, stmts),
        Some((first, rest)) => {
            let task = Task::Given {
                held,
                local: first.0,
                rest,
                stmts,
            };
            evaluate_then(tasks, machine, &first.1, task)
        }
    }
}

/// Enters an inlined call whose arguments are evaluated.
fn enter_inlined<'a>(
    tasks: &mut Tasks<'a>,
    machine: &mut Machine<'a>,
    held: Items<(u32, Bits)>,
    stmts: &'a [Stmt],
) -> Result<(), Memory>
    ensures { Leads (after_all tasks.old (inlined held [] stmts.now machine.old)) machine.old.run.start tasks.new machine.new result }
{
    let locals = copy_bound(machine.alloc, &machine.run, held.as_slice());
    drop(held);
    let caller = machine.run.enter(locals?);
    tasks.push(Task::Last(Act::LeaveInlined(caller)))?;
    tasks.push(Task::Block(stmts))?;
    Ok(())
}

/// Returns the number of locals of function `k`; 0 if there is no such function.
pub fn locals_of(funs: &[FunDef], k: u32) -> usize {
    match funs.get(k as usize) {
        None => 0,
        Some(f) => f.locals.len(),
    }
}

/// Returns function `k` with the functions before it.
pub fn earlier(funs: &[FunDef], k: u32) -> Option<(&[FunDef], &FunDef)>
    ensures fun { option_map (λ x. x.1.now) result ≡ slice_get funs.now k }
    ensures before { IfSome result (λ x. x.0.now ≡ take k funs.now) }
{
    if (k as usize) < funs.len() {
        Some((&funs[..k as usize], &funs[k as usize]))
    } else {
        None
    }
}

pub fn arrays_at(alloc: Global, arrays: &[u32], names: &[ArrayName]) -> Result<Items<u32>, Memory>
    ensures { IfOk result (λ numbers. numbers ≡ map (array_of arrays.now) names.now) }
{
    let mut numbers = Items::from_vec(Vec::with_capacity(alloc, names.len())?);
    for name in names {
        numbers.push(array_at(arrays, *name))?;
    }
    Ok(numbers)
}

/// Returns a copy of a run's locals in which these are bound.
fn copy_bound(alloc: Global, run: &Run, held: &[(u32, Bits)]) -> Result<Items<Bits>, Memory>
    ensures { IfOk result (λ locals. locals ≡ holding run.now.state.locals held.now) }
{
    let mut locals = run.copy_locals(alloc)?;
    hold(&mut locals, held);
    Ok(locals)
}

/// Binds each of these locals to its value.
fn hold(locals: &mut Items<Bits>, held: &[(u32, Bits)])
    ensures { locals.new ≡ holding locals.old held.now }
{
    for (i, value) in held {
        if (*i as usize) < locals.len() {
            locals.set(*i as usize, *value);
        }
    }
}

/// Returns locals of these widths: the first have these values, the others are 0.
pub fn with_zeros(values: Items<Bits>, widths: &[Width]) -> Result<Items<Bits>, Memory>
    ensures { IfOk result (λ locals. locals ≡ begun_with values widths.now) }
{
    let mut locals = values;
    for i in locals.len()..widths.len() {
        locals.push(Bits::low(widths[i], 0))?;
    }
    Ok(locals)
}
