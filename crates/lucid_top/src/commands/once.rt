// `once P NAME ARG..`: one event, run whole from cells that are all 0, at tick 0 on switch 0.
ghost use Rattle.std.specs.Prelude.{◌≡◌, All, IfSome, IsTrue, OnOk, OnErr, Some, if◌then◌else◌, length, map, string_bytes};
ghost use Rattle.std.specs.Str.{bytes_eq};
ghost use Rattle.lucid_core.specs.Fits.{event_fits, out_fits};
ghost use Rattle.lucid_io.specs.Puts.{PutsAll, PutsPart};
ghost use Rattle.lucid_top_words.specs.Files.{texts_in};
ghost use Rattle.lucid_conf.specs.Named.{event_names, last_named};
ghost use Rattle.lucid_top.specs.Once.{OnceAnswers, event_at as event_in, event_of, shown, ran};
ghost use Rattle.lucid_top_words.specs.Outcome.{Prepares};
ghost use Rattle.lucid_top_words.specs.Words.{word_at};
ghost use Rattle.lucid_top_words.specs.Writing.{Performs, nowhere};

use crate::commands::text_at;
use lucid_base::{Args, Event, Id, Outs};
use lucid_core::{Cells, Core, EventDef};
use lucid_core_run::run_whole;
use lucid_io::{Sink, WriteFault};
use lucid_log::{put_block, put_cells};
use lucid_top_program::accepted;
use lucid_top_words::{Refusal, word_bytes};
use std::alloc::Global;

/// Writes the effect of the event of the third word in the program of this text, with these arguments.
pub fn once<W: Sink>(
    alloc: Global,
    words: &[String],
    texts: &[Vec<u8>],
    arguments: Option<Args>,
    out: &mut W,
) -> Result<(), Refusal>
    requires { length texts.now ≡ 1 }
    ensures { let answers = OnceAnswers (word_at (texts_in texts.now) 0) (word_at (map string_bytes words.now) 2) arguments in
        Performs nowhere answers W.written W.faults out.old out.new result }
{
    let ran = prepare(alloc, text_at(texts, 0), word_bytes(words, 2), arguments)?;
    let ended = put(out, &ran);
    drop(ran);
    ended?;
    Ok(())
}

/// The effect of an event: the program, the event, its outs, and the cells after it.
#[derive(Drop)]
struct Ran {
    core: Core,
    event: Event,
    outs: Outs,
    cells: Cells,
    ghost event_fits: { IsTrue (event_fits core event) },
    ghost outs_fit: { All (λ out. IsTrue (out_fits core out)) outs },
}

// Prepares the effect of the event of this name in the program of this text.
fn prepare(alloc: Global, text: &[u8], name: &[u8], arguments: Option<Args>) -> Result<Ran, Refusal>
    ensures { Prepares (OnceAnswers text.now name.now arguments) (λ r. shown r.core r.event r.outs r.cells) result }
{
    let core = accepted(alloc, text)?;
    let event = fitting(&core, name, arguments);
    run(alloc, core, event)
}

// Runs the event, if there is one.
fn run(alloc: Global, core: Core, event: Option<Event>) -> Result<Ran, Refusal>
    requires { IfSome event (λ e. IsTrue (event_fits core e)) }
    ensures { Prepares (λ o. o ≡ ran core event) (λ r. shown r.core r.event r.outs r.cells) result }
{
    let Some(event) = event else {
        return Err(Refusal::Usage);
    };
    let mut cells = core.cells(alloc)?;
    let outs = run_whole(alloc, &core, &mut cells, 0, 0, &event)?;
    Ok(Ran {
        core,
        event,
        outs,
        cells,
    })
}

// The last declared event of this name with these arguments, if it fits the program.
fn fitting(core: &Core, name: &[u8], arguments: Option<Args>) -> Option<Event>
    ensures event { result ≡ event_of core.now name.now arguments }
    ensures fits { IfSome result (λ e. IsTrue (event_fits core.now e)) }
{
    event_at(core, last_event(core.events(), name)?, arguments?)
}

fn event_at(core: &Core, id: usize, args: Args) -> Option<Event>
    ensures event { result ≡ event_in core.now (Some args) (Some id) }
    ensures fits { IfSome result (λ e. IsTrue (event_fits core.now e)) }
{
    if id > u32::MAX as usize {
        return None;
    }
    let event = Event {
        id: id as u32,
        args,
    };
    if core.fits(&event) { Some(event) } else { None }
}

// The number of the last event of this name.
fn last_event(events: &[EventDef], name: &[u8]) -> Option<usize>
    ensures { result ≡ last_named name.now (event_names events.now) }
{
    let mut last = None;
    for id in 0..events.len() {
        last = later(name, &events[id].name, id, last);
    }
    last
}

// The number of the event declared with this name if it is the one that is asked for, and otherwise the earlier result.
fn later(name: &[u8], declared: &Id, id: usize, last: Option<usize>) -> Option<usize>
    ensures { result ≡ (if bytes_eq name.now declared.now then Some id else last) }
{
    if name == declared.bytes() {
        Some(id)
    } else {
        last
    }
}

// Writes the block of the event, and the cells after it. Takes no memory.
fn put<W: Sink>(out: &mut W, ran: &Ran) -> Result<(), WriteFault>
    ensures all { let text = shown ran.now.core ran.now.event ran.now.outs ran.now.cells in
        OnOk result (PutsAll W.written W.faults out.old out.new text) }
    ensures part { let text = shown ran.now.core ran.now.event ran.now.outs ran.now.cells in
        OnErr result (PutsPart W.written W.faults out.old out.new text) }
{
    put_block(out, &ran.core, 0, 0, &ran.event, &ran.outs, 0)?;
    put_cells(out, 0, ran.core.arrays(), &ran.cells)
}
