// Events and their handlers.
ghost use Rattle.std.specs.Prelude.{◌≡◌, ◌<◌, Some, OnOk, length, slice_get};
ghost use Rattle.lucid_core.specs.Typing.{same};
ghost use Rattle.lucid_core.specs.declared.defs.EventDef.{EventDef as Def};
ghost use Rattle.lucid_types_spec.specs.Names.{seen};
ghost use Rattle.lucid_types_laws.specs.Declaration.{event, event_at, handle};
ghost use Rattle.lucid_types_expressions.specs.Gives.{Gives};
ghost use Rattle.lucid_types_declarations.specs.Events.{Handles, handle_event, handler_of, with_handler};
ghost use Rattle.lucid_types_declarations.specs.Known.{Declares, made_of};
ghost use Rattle.lucid_types_declarations.specs.Parameters.{event_params};

use crate::Known;
use crate::known::enter;
use crate::parameters::{int_params, parameters};
use lucid_base::{Id, Items, Memory, Width};
use lucid_core::{EventDef, HandlerDef, Stmt};
use lucid_parse_tree::{P, S};
use lucid_types_expressions::Fault;
use lucid_types_scope::{Scope, number};
use lucid_types_spec::{Body, Entry};
use lucid_types_statements::block;
use std::alloc::Global;
use std::mem;

/// NoRule if a parameter is no int.
pub fn event(alloc: Global, known: &mut Known, n: &Id, ps: &[P]) -> Result<(), Fault>
    ensures { Declares result known.new (event n.now ps.now (made_of known.old)) }
{
    let event = number(known.events.len())?;
    let params = event_params(alloc, &mut known.scope, ps)?;
    let widths = Items::from_slice(alloc, params.as_slice())?;
    enter(alloc, &mut known.scope, n, Entry::Event(event, widths))?;
    known.events.push(EventDef {
        name: n.copy(alloc)?,
        params,
        handler: None,
    })?;
    Ok(())
}

/// The widths of parameters, whose names are not kept.
fn event_params(alloc: Global, scope: &mut Scope, ps: &[P]) -> Result<Items<Width>, Fault>
    ensures gives { Gives result (event_params ps.now scope.old) }
    ensures kept { OnOk result (scope.new ≡ scope.old) }
{
    let mark = scope.len();
    let params = parameters(alloc, scope, ps)?;
    scope.leave(mark);
    let widths = int_params(alloc, params.as_slice());
    drop(params);
    widths
}

/// NoRule if no event of the name is seen, it has a handler, or the parameters have other widths than its own.
#[tactic(auto, using(crate::proofs::Handling::handle_is, std::proofs::lemmas::Grind::common_steps))]
pub fn handle(
    alloc: Global,
    known: &mut Known,
    number: u32,
    line: u32,
    n: &Id,
    ps: &[P],
    body: &[S],
) -> Result<(), Fault>
    ensures { Declares result known.new (handle number line n.now ps.now body.now (made_of known.old)) }
{
    match event_of(alloc, &known.scope, n) {
        Ok((event, widths)) => { handle_event(alloc, known, number, line, event, widths, ps, body) }
        Err(fault) => Err(fault),
    }
}

/// The number of the event of the name, and its widths.
fn event_of(alloc: Global, scope: &Scope, n: &Id) -> Result<(u32, Items<Width>), Fault>
    ensures { Gives result (event_at (seen n.now scope.now)) }
{
    match scope.find(n) {
        Some(Entry::Event(event, widths)) => {
            let widths = Items::from_slice(alloc, widths.as_slice())?;
            Ok((*event, widths))
        }
        _ => Err(Fault::NoRule),
    }
}

/// A handler of the event, which has these widths.
fn handle_event(
    alloc: Global,
    known: &mut Known,
    decl: u32,
    line: u32,
    event: u32,
    widths: Items<Width>,
    ps: &[P],
    body: &[S],
) -> Result<(), Fault>
    ensures { Declares result known.new (handle_event decl line event widths ps.now body.now (made_of known.old)) }
{
    match known.events.get(event as usize) {
        None => Err(Fault::NoRule),
        Some(def) => {
            if def.handler.is_some() {
                return Err(Fault::NoRule);
            }
            match handler_body(alloc, known, widths, ps, body) {
                Ok(body) => match add_handler(alloc, known, event, decl, line, body.steps) {
                    Ok(()) => Ok(()),
                    Err(_) => Err(Fault::Memory),
                },
                Err(fault) => Err(fault),
            }
        }
    }
}

/// The body of a handler with these parameters, whose locals are numbered behind it. NoRule if the parameters have other widths.
fn handler_body(
    alloc: Global,
    known: &mut Known,
    widths: Items<Width>,
    ps: &[P],
    body: &[S],
) -> Result<Body, Fault>
    ensures { Handles result known.old known.new (handler_of widths ps.now body.now known.old.scope known.old.numbering.forms) }
{
    let mark = known.scope.len();
    let params = parameters(alloc, &mut known.scope, ps)?;
    let own = int_params(alloc, params.as_slice());
    drop(params);
    if !same(own?.as_slice(), widths.as_slice()) {
        return Err(Fault::NoRule);
    }
    known.numbering.locals = widths;
    let answer = None;
    match block(alloc, &answer, &mut known.scope, &mut known.numbering, body) {
        Ok(body) => {
            known.scope.leave(mark);
            Ok(body)
        }
        Err(fault) => Err(fault),
    }
}

fn same(own: &[Width], widths: &[Width]) -> bool
    ensures { result ≡ same own.now widths.now }
{
    own == widths
}

/// Adds a handler of the event, with the numbered locals.
fn add_handler(
    alloc: Global,
    known: &mut Known,
    event: u32,
    decl: u32,
    line: u32,
    body: Items<Stmt>,
) -> Result<(), Memory>
    requires { event < length known.old.events.items }
    ensures { (e : Def) → slice_get known.old.events.items event ≡ Some e →
        OnOk result (made_of known.new ≡ with_handler event e decl line known.old.numbering.locals body (made_of known.old)) }
{
    let handler = number(known.handlers.len())?;
    let locals = mem::replace(&mut known.numbering.locals, Items::new(alloc));
    known.handlers.push(HandlerDef {
        event,
        locals,
        body,
        decl,
        line,
    })?;
    known.events[event as usize].handler = Some(handler);
    Ok(())
}
