// The counts of functions and handlers, in the order of their declarations.
ghost use Rattle.std.specs.Prelude.{◌≡◌, ◌<◌, ◌+◌, IfOk, IsTrue, length, map};
ghost use Rattle.lucid_inline_count.specs.Bodies.{body_found, funs_found, handlers_found, held_first};
ghost use Rattle.lucid_core.specs.Events.{event_params};
ghost use Rattle.lucid_core.specs.Numbered.{rising};
ghost use Rattle.lucid_inline_count.specs.Sums.{IsSum};
ghost use Rattle.lucid_inline_spec.specs.Counts.{handler_lengths, handler_sizes};

use crate::blocks::block;
use crate::body::Body;
use crate::counts::Counts;
use crate::sums::Sum;
use lucid_base::Memory;
use lucid_core::{Core, EventDef, FunDef, HandlerDef, Stmt};
use std::alloc::Global;

/// The sums over the handlers of both counts.
#[derive(Clone, Copy)]
pub struct Totals {
    pub length: Sum,
    pub size: Sum,
}

/// Returns how long the normal form of a core is, and how large its flat form, and the handlers at which these sums pass `room` and `most`.
pub fn count_core(alloc: Global, core: &Core, room: u64, most: u64) -> Result<Totals, Memory>
    ensures length { IfOk result (λ t. IsSum room (handler_lengths core.now) t.length) }
    ensures size { IfOk result (λ t. IsSum most (handler_sizes core.now) t.size) }
{
    let funs = count_functions(alloc, core.funs())?;
    of_handlers(
        alloc,
        core.events(),
        funs.as_slice(),
        core.handlers(),
        room,
        most,
    )
}

/// Counts functions, each given those before it. One that does not exist counts nothing.
pub fn count_functions(alloc: Global, funs: &[FunDef]) -> Result<Vec<Counts>, Memory>
    ensures { IfOk result (λ found. found.items ≡ funs_found funs.now) }
{
    let mut found = Vec::new(alloc);
    for f in funs {
        found.push(count_body(
            alloc,
            found.as_slice(),
            f.params as usize,
            f.locals.len(),
            f.body.as_slice(),
        )?)?;
    }
    Ok(found)
}

/// The sums over these handlers, whose numbers fit since those of their declarations do.
fn of_handlers(
    alloc: Global,
    events: &[EventDef],
    funs: &[Counts],
    handlers: &[HandlerDef],
    room: u64,
    most: u64,
) -> Result<Totals, Memory>
    requires { IsTrue (rising 1 (map (λ h. h.decl) handlers.now)) }
    ensures length { IfOk result (λ t. IsSum room (map (λ c. c.length) (handlers_found events.now funs.now handlers.now)) t.length) }
    ensures size { IfOk result (λ t. IsSum most (map (λ c. c.size) (handlers_found events.now funs.now handlers.now)) t.size) }
{
    let mut length = Sum::new(room);
    let mut size = Sum::new(most);
    let mut number = 0u32;
    for h in handlers {
        let params = params_of(events, h.event);
        let counts = count_body(alloc, funs, params, h.locals.len(), h.body.as_slice())?;
        length = length.with(counts.length, number);
        size = size.with(counts.size, number);
        number = next(number, h.decl);
    }
    Ok(Totals { length, size })
}

/// The next number, which a larger one leaves room for.
fn next(number: u32, larger: u32) -> u32
    requires { number < larger }
    ensures { result ≡ number + 1 }
{
    number + 1
}

/// Counts a body after these functions, with `locals` locals, of which the first are parameters.
pub fn count_body(
    alloc: Global,
    funs: &[Counts],
    params: usize,
    locals: usize,
    stmts: &[Stmt],
) -> Result<Counts, Memory>
    ensures { IfOk result (λ c. c ≡ body_found funs.now params locals stmts.now) }
{
    let mut body = Body {
        held: first_held(alloc, params, locals)?,
        assigned: Vec::new(alloc),
    };
    let part = block(alloc, funs, &mut body, stmts)?;
    Ok(part.counts)
}

fn first_held(alloc: Global, params: usize, locals: usize) -> Result<Vec<bool>, Memory>
    ensures { IfOk result (λ held. held.items ≡ held_first params locals) }
{
    let mut held = Vec::new(alloc);
    for i in 0..locals {
        held.push(i < params)?;
    }
    Ok(held)
}

/// Returns how many parameters the event has.
fn params_of(events: &[EventDef], id: u32) -> usize
    ensures { result ≡ length (event_params events.now id) }
{
    match events.get(id as usize) {
        None => 0,
        Some(event) => event.params.len(),
    }
}
