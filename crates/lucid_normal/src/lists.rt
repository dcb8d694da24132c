// Lists of expressions, and the use of their operands: a hash, an event, a print or an inlined call.
ghost use Rattle.std.specs.Prelude.{◌≡◌, [], ◌∷◌, ◌++◌, OnOk};
ghost use Rattle.lucid_normal.specs.Bodies.{after_all, delay_last as delay_by, expressed, finished, inlined, listed, operand_of, sent_at, target_last as target_by, used, walk};
ghost use Rattle.lucid_normal_spec.specs.Translate.{body_code, call_made};

use crate::ends::{emit_hash, emit_print, target_of};
use crate::expressions::{express_option_then, express_then};
use crate::machine::Machine;
use crate::task::{End, Purpose, Task};
use crate::tasks::Tasks;
use lucid_base::{Items, Memory};
use lucid_code::Operand;
use lucid_core::{Expr, Stmt};
use lucid_normal_spec::Typed;
use lucid_normal_steps::{enter, needed};

/// Translates expressions from left to right.
pub fn list<'a>(
    tasks: &mut Tasks<'a>,
    machine: &mut Machine,
    es: &'a [Expr],
    purpose: &Purpose<'a>,
) -> Result<(), Memory>
    ensures { OnOk result (after_all tasks.new (walk machine.new) ≡ after_all tasks.old (listed [] es.now purpose.now (walk machine.old))) }
{
    let done = Items::new(machine.alloc);
    next(tasks, machine, done, es, purpose)
}

/// Goes on with a list, after its next operand.
pub fn go_on<'a>(
    tasks: &mut Tasks<'a>,
    machine: &mut Machine,
    done: Items<Operand>,
    rest: &'a [Expr],
    purpose: &Purpose<'a>,
) -> Result<(), Memory>
    ensures { OnOk result (after_all tasks.new (walk machine.new)
        ≡ after_all tasks.old (listed (done ++ (operand_of (walk machine.old)).operand ∷ []) rest.now purpose.now (walk machine.old))) }
{
    let mut operands = done;
    operands.push(needed(machine.value).operand)?;
    next(tasks, machine, operands, rest, purpose)
}

/// Translates the rest of a list, after these operands.
fn next<'a>(
    tasks: &mut Tasks<'a>,
    machine: &mut Machine,
    done: Items<Operand>,
    rest: &'a [Expr],
    purpose: &Purpose<'a>,
) -> Result<(), Memory>
    ensures { OnOk result (after_all tasks.new (walk machine.new) ≡ after_all tasks.old (listed done rest.now purpose.now (walk machine.old))) }
{
    match rest.split_first() {
        None => complete(tasks, machine, done, purpose),
        Some((e, rest)) => {
            let task = Task::Next {
                done,
                rest,
                purpose: same(purpose),
            };
            express_then(tasks, machine, e, task)
        }
    }
}

/// Returns a copy.
fn same<'a>(purpose: &Purpose<'a>) -> Purpose<'a>
    ensures { result ≡ purpose.now }
{
    match purpose {
        Purpose::Hash(width) => Purpose::Hash(*width),
        Purpose::Gen {
            event,
            delay,
            to,
            delay_first,
        } => Purpose::Gen {
            event: *event,
            delay: *delay,
            to: *to,
            delay_first: *delay_first,
        },
        Purpose::Say(form) => Purpose::Say(*form),
    }
}

/// Uses the operands.
fn complete<'a>(
    tasks: &mut Tasks<'a>,
    machine: &mut Machine,
    operands: Items<Operand>,
    purpose: &Purpose<'a>,
) -> Result<(), Memory>
    ensures { OnOk result (after_all tasks.new (walk machine.new) ≡ after_all tasks.old (used purpose.now operands (walk machine.old))) }
{
    match *purpose {
        Purpose::Hash(width) => emit_hash(machine, width, operands),
        Purpose::Gen {
            event,
            delay,
            to,
            delay_first,
        } => generate(tasks, machine, event, operands, delay, to, delay_first),
        Purpose::Say(form) => emit_print(machine, form, operands),
    }
}

/// Begins the delay and the target of an event, in the order in which they are written.
fn generate<'a>(
    tasks: &mut Tasks<'a>,
    machine: &mut Machine,
    event: u32,
    args: Items<Operand>,
    delay: &'a Option<Expr>,
    to: &'a Option<Expr>,
    delay_first: bool,
) -> Result<(), Memory>
    ensures { OnOk result (after_all tasks.new (walk machine.new)
        ≡ after_all tasks.old (finished (sent_at event args delay.now to.now delay_first) (walk machine.old))) }
{
    if delay_first {
        let task = Task::DelayThenTarget { event, args, to };
        express_option_then(tasks, machine, delay, task)
    } else {
        let targeted = to.is_some();
        let task = Task::TargetThenDelay {
            event,
            args,
            targeted,
            delay,
        };
        express_option_then(tasks, machine, to, task)
    }
}

/// The delay of an event is translated.
pub fn target_last<'a>(
    tasks: &mut Tasks<'a>,
    machine: &mut Machine,
    event: u32,
    args: Items<Operand>,
    to: &'a Option<Expr>,
) -> Result<(), Memory>
    ensures { OnOk result (after_all tasks.new (walk machine.new)
        ≡ after_all tasks.old (target_by event args to.now (walk machine.old))) }
{
    let last = End::SendTo {
        event,
        args,
        delay: needed(machine.value).operand,
        targeted: to.is_some(),
    };
    express_option_then(tasks, machine, to, Task::Last(last))
}

/// The target of an event is translated, if it has one.
pub fn delay_last<'a>(
    tasks: &mut Tasks<'a>,
    machine: &mut Machine,
    event: u32,
    args: Items<Operand>,
    targeted: bool,
    delay: &'a Option<Expr>,
) -> Result<(), Memory>
    ensures { OnOk result (after_all tasks.new (walk machine.new)
        ≡ after_all tasks.old (delay_by event args targeted delay.now (walk machine.old))) }
{
    let to = target_of(targeted, machine.value);
    let last = End::SendAfter { event, args, to };
    express_option_then(tasks, machine, delay, Task::Last(last))
}

/// Begins an inlined call: translates its arguments.
pub fn begin_inlined<'a>(
    tasks: &mut Tasks<'a>,
    machine: &mut Machine,
    given: &'a [(u32, Expr)],
    stmts: &'a [Stmt],
) -> Result<(), Memory>
    ensures { OnOk result (after_all tasks.new (walk machine.new) ≡ after_all tasks.old (inlined [] given.now stmts.now (walk machine.old))) }
{
    let held = Items::new(machine.alloc);
    next_given(tasks, machine, held, given, stmts)
}

/// Goes on with the arguments of an inlined call, after the next one.
pub fn go_on_given<'a>(
    tasks: &mut Tasks<'a>,
    machine: &mut Machine,
    held: Items<(u32, Typed)>,
    local: u32,
    rest: &'a [(u32, Expr)],
    stmts: &'a [Stmt],
) -> Result<(), Memory>
    ensures { OnOk result (after_all tasks.new (walk machine.new)
        ≡ after_all tasks.old (inlined (held ++ (local, operand_of (walk machine.old)) ∷ []) rest.now stmts.now (walk machine.old))) }
{
    let mut given = held;
    given.push((local, needed(machine.value)))?;
    next_given(tasks, machine, given, rest, stmts)
}

/// Translates the rest of the arguments of an inlined call, after these.
fn next_given<'a>(
    tasks: &mut Tasks<'a>,
    machine: &mut Machine,
    held: Items<(u32, Typed)>,
    rest: &'a [(u32, Expr)],
    stmts: &'a [Stmt],
) -> Result<(), Memory>
    ensures { OnOk result (after_all tasks.new (walk machine.new) ≡ after_all tasks.old (inlined held rest.now stmts.now (walk machine.old))) }
{
    match rest.split_first() {
        None => enter_body(tasks, machine, held, stmts),
        Some((next, rest)) => {
            let task = Task::Given {
                held,
                local: next.0,
                rest,
                stmts,
            };
            express_then(tasks, machine, &next.1, task)
        }
    }
}

/// Begins the body of an inlined call, with its arguments bound.
fn enter_body<'a>(
    tasks: &mut Tasks<'a>,
    machine: &mut Machine,
    held: Items<(u32, Typed)>,
    stmts: &'a [Stmt],
) -> Result<(), Memory>
    ensures { OnOk result (after_all tasks.new (walk machine.new)
        ≡ after_all tasks.old (expressed (call_made (body_code stmts.now) held) (walk machine.old))) }
{
    let caller = enter(machine.alloc, &mut machine.work, &mut machine.env, held)?;
    tasks.push(Task::Last(End::Leave(caller)))?;
    tasks.push(Task::Block(stmts))
}
