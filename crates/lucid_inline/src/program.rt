// The flat form of a whole core.
ghost use Rattle.std.specs.Prelude.{◌≡◌, IfOk, map};
ghost use Rattle.lucid_inline_spec.specs.Flat.{flat_handler, flat_of};

use crate::bodies::flat_body;
use crate::law;
use lucid_base::{ArrayDef, Id, Items, Memory};
use lucid_core::{Core, EventDef, Flat, FunDef, HandlerDef, MemopDef};
use std::alloc::Global;

/// The flat form of a core. Its size may be exponential in the core's, and the call works and takes memory in proportion to it. Memory is
/// also answered for a flat form whose locals have no numbers of 32 bits.
pub fn flatten(alloc: Global, core: &Core) -> Result<Flat, Memory>
    ensures { IfOk result (λ flat. flat ≡ flat_of core.now) }
{
    law::flat_is_valid(core);
    let arrays = copy_arrays(alloc, core.arrays())?;
    let memops = copy_memops(alloc, core.memops())?;
    let events = copy_events(alloc, core.events())?;
    let handlers = flat_handlers(alloc, core.funs(), core.handlers())?;
    let forms = copy_forms(alloc, core.forms())?;
    Ok(Flat::new(arrays, memops, events, handlers, forms))
}

fn copy_arrays(alloc: Global, arrays: &[ArrayDef]) -> Result<Vec<ArrayDef>, Memory>
    ensures { IfOk result (λ copies. copies.items ≡ arrays.now) }
{
    let mut copies = Vec::new(alloc);
    for array in arrays {
        copies.push(array.copy(alloc)?)?;
    }
    Ok(copies)
}

fn copy_memops(alloc: Global, memops: &[MemopDef]) -> Result<Vec<MemopDef>, Memory>
    ensures { IfOk result (λ copies. copies.items ≡ memops.now) }
{
    let mut copies = Vec::new(alloc);
    for memop in memops {
        copies.push(memop.copy(alloc)?)?;
    }
    Ok(copies)
}

fn copy_events(alloc: Global, events: &[EventDef]) -> Result<Vec<EventDef>, Memory>
    ensures { IfOk result (λ copies. copies.items ≡ events.now) }
{
    let mut copies = Vec::new(alloc);
    for event in events {
        copies.push(event.copy(alloc)?)?;
    }
    Ok(copies)
}

fn copy_forms(alloc: Global, forms: &[Id]) -> Result<Vec<Id>, Memory>
    ensures { IfOk result (λ copies. copies.items ≡ forms.now) }
{
    let mut copies = Vec::new(alloc);
    for form in forms {
        copies.push(form.copy(alloc)?)?;
    }
    Ok(copies)
}

fn flat_handlers(
    alloc: Global,
    funs: &[FunDef],
    handlers: &[HandlerDef],
) -> Result<Vec<HandlerDef>, Memory>
    ensures { IfOk result (λ made. made.items ≡ map (flat_handler funs.now) handlers.now) }
{
    let mut made = Vec::new(alloc);
    for handler in handlers {
        made.push(put_in_calls(alloc, funs, handler)?)?;
    }
    Ok(made)
}

/// Inlines the calls of a handler.
fn put_in_calls(alloc: Global, funs: &[FunDef], handler: &HandlerDef) -> Result<HandlerDef, Memory>
    ensures { IfOk result (λ made. made ≡ flat_handler funs.now handler.now) }
{
    let (body, locals) = flat_body(alloc, funs, handler)?;
    Ok(HandlerDef {
        event: handler.event,
        locals,
        body,
        decl: handler.decl,
        line: handler.line,
    })
}
