// The check of a program.
ghost use Rattle.std.specs.Prelude.{◌≡◌, ◌++◌, ◌≤◌, ◌+◌, ◌*◌, [], length, take, Err, IfErr, IfOk, IsOk, MatchOption, None, OnOk};
ghost use Rattle.lucid_effects_spec.specs.Laws.{TouchesRise};
ghost use Rattle.lucid_effects_spec.specs.Order.{IsAccepted, bodies, fun_bodies};
ghost use Rattle.lucid_effects_spec.specs.Size.{nodes};
ghost use Rattle.lucid_effects_spec.specs.SchemeLaws.{steps_a_node};
ghost use Rattle.lucid_effects_spec.specs.Principal.{ArePrincipal};
ghost use Rattle.lucid_effects_spec.specs.Schemes.{all_schemes, handler_schemes, schemes_of};
ghost use Rattle.lucid_effects.specs.Answers.{Tells};
ghost use Rattle.lucid_effects.specs.First.{IsFirst, JudgesHandlers};
ghost use Rattle.lucid_effects.specs.Spent.{FunsTake, HandlersTake};
ghost use Rattle.lucid_effects.specs.declared.error.OrderError.TheVariants as errors;

use crate::declaration::judge;
use crate::error::OrderError;
use crate::first::Refused;
use crate::law;
use lucid_base::{Memory, Steps};
use lucid_core::{Core, FunDef, HandlerDef};
use lucid_effects_spec::Scheme;
use std::alloc::Global;
use std::sync::ledger::Ledger;

/// The findings for the declarations so far.
#[derive(Drop)]
struct Judged {
    schemes: Vec<Scheme>,
    first: Option<Refused>,
}

fn array_count(core: &Core) -> u32
    ensures { result ≡ length core.now.arrays }
{
    core.arrays().len() as u32
}

/// Judges functions, each behind those before it.
fn check_funs<L: Ledger>(
    alloc: Global,
    arrays: u32,
    judged: &mut Judged,
    funs: &[FunDef],
    steps: &mut Steps<L>,
) -> Result<(), Memory>
    requires none { judged.old.schemes.items ≡ [] }
    requires fine { judged.old.first ≡ None }
    ensures schemes { OnOk result (judged.new.schemes.items ≡ schemes_of funs.now) }
    ensures first { OnOk result (IsFirst arrays (fun_bodies [] funs.now) judged.new.first) }
    ensures most { FunsTake arrays funs.now steps.old steps.new }
{
    for f in funs {
        let found = judge(
            alloc,
            arrays,
            &judged.schemes,
            f.decl,
            f.body.as_slice(),
            &mut judged.first,
            steps,
        )?;
        judged.schemes.push(found)?;
    }
    Ok(())
}

fn front(schemes: &[Scheme], count: usize) -> &[Scheme]
    requires { count ≤ length schemes.now }
    ensures { result.now ≡ take count schemes.now }
{
    &schemes[..count]
}

/// Goes on with the handlers, behind the functions.
fn check_handlers<L: Ledger>(
    alloc: Global,
    arrays: u32,
    judged: &mut Judged,
    handlers: &[HandlerDef],
    steps: &mut Steps<L>,
) -> Result<(), Memory>
    ensures schemes { OnOk result (judged.new.schemes.items ≡ judged.old.schemes.items ++ handler_schemes judged.old.schemes.items handlers.now) }
    ensures first { OnOk result (JudgesHandlers arrays judged.old.schemes.items handlers.now judged.old.first judged.new.first) }
    ensures most { HandlersTake arrays judged.old.schemes.items handlers.now steps.old steps.new }
{
    let count = judged.schemes.len();
    for h in handlers {
        let before = front(&judged.schemes, count);
        let found = judge(
            alloc,
            arrays,
            before,
            h.decl,
            h.body.as_slice(),
            &mut judged.first,
            steps,
        )?;
        judged.schemes.push(found)?;
    }
    Ok(())
}

/// Judges all functions, and then all handlers.
fn judge_all<L: Ledger>(
    alloc: Global,
    core: &Core,
    judged: &mut Judged,
    steps: &mut Steps<L>,
) -> Result<(), Memory>
    requires none { judged.old.schemes.items ≡ [] }
    requires fine { judged.old.first ≡ None }
    ensures schemes { OnOk result (judged.new.schemes.items ≡ all_schemes core.now) }
    ensures first { OnOk result (IsFirst (length core.now.arrays) (bodies core.now) judged.new.first) }
    ensures most { steps.new ≤ steps.old + nodes core.now * steps_a_node (length core.now.arrays) }
{
    let arrays = array_count(core);
    check_funs(alloc, arrays, judged, core.funs(), steps)?;
    check_handlers(alloc, arrays, judged, core.handlers(), steps)
}

/// Returns the findings for all declarations.
fn check_all<L: Ledger>(alloc: Global, core: &Core, steps: &mut Steps<L>) -> Result<Judged, Memory>
    ensures schemes { IfOk result (λ j. j.schemes.items ≡ all_schemes core.now) }
    ensures first { IfOk result (λ j. IsFirst (length core.now.arrays) (bodies core.now) j.first) }
    ensures most { steps.new ≤ steps.old + nodes core.now * steps_a_node (length core.now.arrays) }
{
    let mut judged = Judged {
        schemes: Vec::new(alloc),
        first: None,
    };
    match judge_all(alloc, core, &mut judged, steps) {
        Ok(()) => Ok(judged),
        Err(error) => {
            drop(judged);
            Err(error)
        }
    }
}

/// Refuses a program in which such a declaration was found.
fn refuse(first: Option<Refused>) -> Result<(), OrderError>
    ensures { MatchOption first (IsOk result) (λ r. result ≡ Err (errors.NoOrder r.decl r.cycle)) }
{
    match first {
        None => Ok(()),
        Some(Refused { decl, cycle }) => Err(OrderError::NoOrder { decl, cycle }),
    }
}

/// One scheme for each function, and then for each handler, if all are in order.
pub fn check_order<L: Ledger>(
    alloc: Global,
    core: &Core,
    steps: &mut Steps<L>,
) -> Result<Vec<Scheme>, OrderError>
    ensures accepted { OnOk result (IsAccepted core.now) }
    ensures refused { IfErr result (λ e. Tells core.now e) }
    ensures passes { IsAccepted core.now → IfErr result (λ e. e ≡ errors.Memory) }
    ensures principal { IfOk result (λ ss. ArePrincipal (bodies core.now) ss.items) }
    ensures rises { OnOk result (TouchesRise core.now) }
    ensures most { steps.new ≤ steps.old + 2 * nodes core.now * ((length core.now.arrays + 9) * (length core.now.arrays + 9)) }
{
    law::touches_rise(core);
    let Judged { schemes, first } = check_all(alloc, core, steps)?;
    refuse(first)?;
    Ok(schemes)
}
