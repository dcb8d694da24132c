// The operations of handlers, each under the guard that the event is the handler's.
ghost use Rattle.std.specs.Prelude.{◌≡◌, ◌+◌, ◌++◌, IfOk, map, if◌then◌else◌};
ghost use Rattle.lucid_code.specs.declared.op.Operand.TheVariants.{Field};
ghost use Rattle.lucid_core.specs.Events.{event_params};
ghost use Rattle.lucid_normal_spec.specs.Program.{codes_of, held_from, start};
ghost use Rattle.lucid_normal_spec.specs.Translate.{body_code, guarded, is};

use crate::bodies::block;
use lucid_base::{Items, Memory, Width};
use lucid_code::{Guard, Literal, Op, Operand};
use lucid_core::{EventDef, Flat, HandlerDef};
use lucid_normal_spec::{Env, Typed};
use lucid_normal_steps::{Context, Work};
use std::alloc::Global;

/// Operations, and the widths of all fields.
#[derive(Drop)]
pub struct Built {
    pub ops: Vec<Op>,
    pub widths: Items<Width>,
}

/// Translates the handlers, one after the other, after fields of these widths.
pub fn build(alloc: Global, flat: &Flat, widths: Items<Width>) -> Result<Built, Memory>
    ensures ops { IfOk result (λ b. b.ops.items ≡ (codes_of flat.now widths flat.now.handlers).ops) }
    ensures widths { IfOk result (λ b. b.widths ≡ (codes_of flat.now widths flat.now.handlers).widths) }
{
    let mut built = Built {
        ops: Vec::new(alloc),
        widths,
    };
    for handler in flat.handlers() {
        built = with_handler(alloc, flat, built, handler)?;
    }
    Ok(built)
}

/// One handler behind those before it.
fn with_handler(
    alloc: Global,
    flat: &Flat,
    built: Built,
    handler: &HandlerDef,
) -> Result<Built, Memory>
    ensures ops { IfOk result (λ b. b.ops.items ≡ built.ops.items
        ++ map (guarded (is 0 handler.now.event)) (body_code handler.now.body (start flat.now built.widths handler.now)).ops) }
    ensures widths { IfOk result (λ b. b.widths
        ≡ (body_code handler.now.body (start flat.now built.widths handler.now)).env.widths) }
{
    let params = params_of(flat.events(), handler.event);
    let held = parameters(alloc, params, handler.locals.as_slice())?;
    let mut env = Env {
        widths: built.widths,
        held,
        answer: None,
        slot: 0,
        place: 0,
    };
    let mut work = Work {
        ops: built.ops,
        notes: Vec::new(alloc),
    };
    let is_its_event = [Literal {
        field: 0,
        equal: true,
        value: handler.event as u64,
    }];
    let guard = Guard::from_slice(alloc, &is_its_event)?;
    let context = Context {
        alloc,
        guard: &guard,
    };
    block(context, &mut work, &mut env, handler.body.as_slice())?;
    Ok(Built {
        ops: work.ops,
        widths: env.widths,
    })
}

/// The widths of the event's parameters.
fn params_of(events: &[EventDef], id: u32) -> &[Width]
    ensures { result.now ≡ event_params events.now id }
{
    match events.get(id as usize) {
        None => &[],
        Some(event) => event.params.as_slice(),
    }
}

/// The parameters are held by the argument fields, and the other locals by nothing.
fn parameters(
    alloc: Global,
    params: &[Width],
    locals: &[Width],
) -> Result<Items<Option<Typed>>, Memory>
    ensures { IfOk result (λ held. held ≡ held_from 3 params.now locals.now) }
{
    let mut held = Items::new(alloc);
    let mut k = 3;
    for (i, width) in locals.iter().enumerate() {
        held.push(holder(i < params.len(), k, *width))?;
        k = behind(k)?;
    }
    Ok(held)
}

fn holder(is_param: bool, k: u32, width: Width) -> Option<Typed>
    ensures { result ≡ (if is_param then Some (record { operand = Field k; width = width }) else None) }
{
    if is_param {
        Some(Typed {
            operand: Operand::Field(k),
            width,
        })
    } else {
        None
    }
}

fn behind(k: u32) -> Result<u32, Memory>
    ensures { IfOk result (λ next. next ≡ k + 1) }
{
    match k.checked_add(1) {
        None => Err(Memory),
        Some(next) => Ok(next),
    }
}
