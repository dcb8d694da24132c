// The whole step: an event's handler runs to completion, or runs out of memory and changes nothing.
ghost use Rattle.std.specs.Prelude.{◌≡◌, ◌≤◌, [], All, IfOk, IsTrue, OnOk, OnErr, length};
ghost use Rattle.std.specs.Option.{option_map};
ghost use Rattle.lucid_core.specs.Fits.{carried, cells_fit, out_fits};
ghost use Rattle.lucid_core_run.specs.Interpret.{ran};
ghost use Rattle.lucid_core.specs.Computations.{begun_with};
ghost use Rattle.lucid_core.specs.Step.{handled, handler_of as handler_in, started, step, taken_at};

use crate::law;
use crate::list::with_zeros;
use crate::machine::{Machine, Moment};
use crate::operate::nothing;
use crate::recurse::block;
use crate::run::Run;
use crate::scratch::Scratch;
use lucid_base::{Bits, Cells, Event, Items, Memory, Outs, Width};
use lucid_core::{Core, HandlerDef, Stmt};
use std::alloc::Global;
use std::mem;

/// Runs the handler of an event that enters switch `me` at tick `now`, and returns its outs. An event without a handler changes nothing.
/// The outs fit the program, and cells that fit before fit after. Allocates for tasks, locals and arguments, and copies no arrays.
pub fn run_whole(
    alloc: Global,
    core: &Core,
    cells: &mut Cells,
    now: u64,
    me: u32,
    event: &Event,
) -> Result<Outs, Memory>
    ensures outs { IfOk result (λ outs. outs ≡ (step core.now cells.old now me event.now).outs) }
    ensures fits { IfOk result (λ outs. All (λ out. IsTrue (out_fits core.now out)) outs) }
    ensures cells { OnOk result (cells.new ≡ (step core.now cells.old now me event.now).cells) }
    ensures unchanged { OnErr result (cells.new ≡ cells.old) }
    ensures fit { IsTrue (cells_fit core.now cells.old) → IsTrue (cells_fit core.now cells.new) }
{
    let mut scratch = Scratch::new(alloc);
    let mut outs = Outs::new();
    let ended = run_into(alloc, core, cells, now, me, event, &mut scratch, &mut outs);
    drop(scratch);
    ended?;
    Ok(outs)
}

/// Like `run_whole`, but fills the caller's empty `outs` (about 1 KB), which avoids copying it on return. The lists of the run are taken
/// from `scratch` and returned there, so that many runs allocate once.
pub fn run_into(
    alloc: Global,
    core: &Core,
    cells: &mut Cells,
    now: u64,
    me: u32,
    event: &Event,
    scratch: &mut Scratch,
    outs: &mut Outs,
) -> Result<(), Memory>
    requires empty { outs.old ≡ [] }
    ensures outs { OnOk result (outs.new ≡ (step core.now cells.old now me event.now).outs) }
    ensures fits { OnOk result (All (λ out. IsTrue (out_fits core.now out)) outs.new) }
    ensures cells { OnOk result (cells.new ≡ (step core.now cells.old now me event.now).cells) }
    ensures unchanged { OnErr result (cells.new ≡ cells.old) }
    ensures fit { IsTrue (cells_fit core.now cells.old) → IsTrue (cells_fit core.now cells.new) }
{
    law::outs_fit(core);
    law::cells_stay_fit(core);
    match handler_of(core, event.id) {
        None => Ok(()),
        Some(handler) => {
            handle(
                alloc,
                core,
                cells,
                Moment { now, me },
                event.args.as_slice(),
                handler,
                scratch,
                outs,
            )?;
            Ok(())
        }
    }
}

/// Returns the handler of an event, if it has one.
fn handler_of(core: &Core, id: u32) -> Option<&HandlerDef>
    ensures { option_map (λ h. h.now) result ≡ handler_in core.now id }
{
    let event = core.events().get(id as usize)?;
    let handler = event.handler?;
    core.handlers().get(handler as usize)
}

/// Runs a handler and fills the empty `outs`.
fn handle<'a>(
    alloc: Global,
    core: &'a Core,
    cells: &mut Cells,
    moment: Moment,
    args: &[u64],
    handler: &'a HandlerDef,
    scratch: &mut Scratch,
    outs: &mut Outs,
) -> Result<(), Memory>
    requires empty { outs.old ≡ [] }
    requires few { length (handled (Some handler.now) core.now cells.old moment.now moment.me args.now).after.outs ≤ 8 }
    requires small { All (λ out. length (carried out) ≤ 8) (handled (Some handler.now) core.now cells.old moment.now moment.me args.now).after.outs }
    ensures outs { OnOk result (outs.new ≡ (handled (Some handler.now) core.now cells.old moment.now moment.me args.now).after.outs) }
    ensures cells { OnOk result (cells.new ≡ (handled (Some handler.now) core.now cells.old moment.now moment.me args.now).after.cells) }
    ensures unchanged { OnErr result (cells.new ≡ cells.old) }
{
    let run = begin_run(alloc, cells, handler.locals.as_slice(), args, scratch)?;
    let mut machine = Machine {
        alloc,
        moment,
        arrays: Items::new(alloc),
        funs: core.funs(),
        run,
        value: nothing(),
    };
    match run_into_outs(&mut machine, handler.body.as_slice(), outs) {
        Ok(()) => {
            run_of(machine).finish(cells, scratch);
            Ok(())
        }
        Err(error) => {
            run_of(machine).undo(cells);
            Err(error)
        }
    }
}

/// Begins a run of the cells, on the lists of `scratch`.
#[inline(always)]
fn begin_run(
    alloc: Global,
    cells: &mut Cells,
    widths: &[Width],
    args: &[u64],
    scratch: &mut Scratch,
) -> Result<Run, Memory>
    ensures state { IfOk result (λ run. run.state ≡ started cells.old (begun_with (taken_at widths.now args.now) widths.now)) }
    ensures start { IfOk result (λ run. run.start ≡ cells.old) }
    ensures unchanged { OnErr result (cells.new ≡ cells.old) }
{
    let values = taken(scratch.take_locals(alloc), widths, args)?;
    let locals = with_zeros(values, widths)?;
    let writes = scratch.take_writes(alloc);
    let outs = scratch.take_outs(alloc);
    let cells = mem::replace(cells, Cells::none(alloc));
    Ok(Run::begin(cells, locals, writes, outs))
}

/// The levels of calls, statements and expressions that are run by recursion. `tests/run deep` tries them on a stack of 288 KiB.
const DEPTH: u32 = 256;

/// Runs a handler's body and fills the empty `outs`.
fn run_into_outs<'a>(
    machine: &mut Machine<'a>,
    body: &'a [Stmt],
    outs: &mut Outs,
) -> Result<(), Memory>
    requires empty { outs.old ≡ [] }
    requires few { length (ran body.now machine.old).run.state.outs ≤ 8 }
    requires small { All (λ out. length (carried out) ≤ 8) (ran body.now machine.old).run.state.outs }
    ensures outs { OnOk result (outs.new ≡ (ran body.now machine.old).run.state.outs) }
    ensures state { OnOk result (machine.new ≡ ran body.now machine.old) }
    ensures start { OnErr result (machine.new.run.start ≡ machine.old.run.start) }
{
    block(machine, body, DEPTH)?;
    machine.run.collect(outs);
    Ok(())
}

/// Returns the run of a machine that is done.
fn run_of(machine: Machine) -> Run
    ensures { result ≡ machine.entry.run }
{
    let Machine {
        alloc: _,
        moment: _,
        arrays,
        funs: _,
        run,
        value: _,
    } = machine;
    drop(arrays);
    run
}

/// Returns arguments as values of these widths, in the given empty list.
fn taken(list: Items<Bits>, widths: &[Width], args: &[u64]) -> Result<Items<Bits>, Memory>
    requires { list ≡ [] }
    ensures { IfOk result (λ values. values ≡ taken_at widths.now args.now) }
{
    let mut values = list;
    for (width, arg) in widths.iter().zip(args) {
        values.push(Bits::low(*width, *arg))?;
    }
    Ok(values)
}
