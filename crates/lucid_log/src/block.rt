// Blocks: an event that ran, and its outs.
ghost use Rattle.std.specs.Prelude.{◌≡◌, ◌<◌, ◌≤◌, [], ◌++◌, codes, decimal, length, IsTrue, OnOk, OnErr};
ghost use Rattle.std.specs.List.{All};
ghost use Rattle.lucid_core.specs.Fits.{event_fits, out_fits};
ghost use Rattle.lucid_core.specs.Texts.{holes_of};
ghost use Rattle.lucid_io.specs.Puts.{PutsAll, PutsPart, Leaves};
ghost use Rattle.lucid_log.specs.Block.{event_name, form_of, head_text, target_text, end_text, generate_text, say_text, out_text, is_marked, outs_text, block_text};
ghost use Rattle.lucid_log.specs.Pieces.{numbers_text};

use crate::filled::hold_filled;
use crate::pieces::{SHORT, hold_number, hold_numbers};
use lucid_base::{Event, Out, Outs, Target};
use lucid_core::Core;
use lucid_io::{ROOM, Room, Sink, WriteFault, hold, release};

/// Writes the block of an event that fits the core and ran at this tick on this switch, with its outs (`block_text`): all of it, or a
/// proper prefix of it if the sink's count of faults rose in this call. Bit `i` of `lost` marks out `i` as lost. The outs fit the core
/// too: a printed text exists and has a `%d` for each of its numbers.
pub fn put_block<S: Sink>(
    sink: &mut S,
    core: &Core,
    tick: u64,
    switch: u32,
    event: &Event,
    outs: &Outs,
    lost: u8,
) -> Result<(), WriteFault>
    requires event { IsTrue (event_fits core.now event.now) }
    requires outs { All (λ out. IsTrue (out_fits core.now out)) outs.now }
    ensures all { OnOk result (PutsAll S.written S.faults sink.old sink.new (block_text core.now tick switch event.now outs.now lost)) }
    ensures part { OnErr result (PutsPart S.written S.faults sink.old sink.new (block_text core.now tick switch event.now outs.now lost)) }
{
    if most_of(core, event, outs.as_slice()) <= SHORT {
        put_short(sink, core, tick, switch, event, outs, lost)
    } else {
        put_long(sink, core, tick, switch, event, outs, lost)
    }
}

fn put_short<S: Sink>(
    sink: &mut S,
    core: &Core,
    tick: u64,
    switch: u32,
    event: &Event,
    outs: &Outs,
    lost: u8,
) -> Result<(), WriteFault>
    requires event { IsTrue (event_fits core.now event.now) }
    requires outs { All (λ out. IsTrue (out_fits core.now out)) outs.now }
    ensures all { OnOk result (PutsAll S.written S.faults sink.old sink.new (block_text core.now tick switch event.now outs.now lost)) }
    ensures part { OnErr result (PutsPart S.written S.faults sink.old sink.new (block_text core.now tick switch event.now outs.now lost)) }
{
    let mut room = Room::<SHORT>::new();
    put_through(sink, &mut room, core, tick, switch, event, outs, lost)
}

fn put_long<S: Sink>(
    sink: &mut S,
    core: &Core,
    tick: u64,
    switch: u32,
    event: &Event,
    outs: &Outs,
    lost: u8,
) -> Result<(), WriteFault>
    requires event { IsTrue (event_fits core.now event.now) }
    requires outs { All (λ out. IsTrue (out_fits core.now out)) outs.now }
    ensures all { OnOk result (PutsAll S.written S.faults sink.old sink.new (block_text core.now tick switch event.now outs.now lost)) }
    ensures part { OnErr result (PutsPart S.written S.faults sink.old sink.new (block_text core.now tick switch event.now outs.now lost)) }
{
    let mut room = Room::<ROOM>::new();
    put_through(sink, &mut room, core, tick, switch, event, outs, lost)
}

// Writes the block through a room in which nothing waits.
fn put_through<S: Sink, const N: usize>(
    sink: &mut S,
    room: &mut Room<N>,
    core: &Core,
    tick: u64,
    switch: u32,
    event: &Event,
    outs: &Outs,
    lost: u8,
) -> Result<(), WriteFault>
    requires empty { room.old ≡ [] }
    requires event { IsTrue (event_fits core.now event.now) }
    requires outs { All (λ out. IsTrue (out_fits core.now out)) outs.now }
    ensures all { OnOk result (PutsAll S.written S.faults sink.old sink.new (block_text core.now tick switch event.now outs.now lost)) }
    ensures part { OnErr result (PutsPart S.written S.faults sink.old sink.new (block_text core.now tick switch event.now outs.now lost)) }
{
    hold_head(sink, room, core, tick, switch, event)?;
    hold_outs(sink, room, core, outs.as_slice(), lost)?;
    release(sink, room)
}

// The most bytes of a block. No clause needs it: it only decides which buffer size is worth its zeroing.
fn most_of(core: &Core, event: &Event, outs: &[Out]) -> usize {
    let mut most = most_of_event(core, event);
    for out in outs {
        most = most.saturating_add(most_of_out(core, out));
    }
    most
}

fn most_of_out(core: &Core, out: &Out) -> usize {
    match out {
        Out::Gen { event, .. } => most_of_event(core, event),
        Out::Say { form, args } => match core.forms().get(*form as usize) {
            Some(text) => most_of_line(text.bytes().len(), args.as_slice()),
            None => 0,
        },
    }
}

fn most_of_event(core: &Core, event: &Event) -> usize {
    match core.events().get(event.id as usize) {
        Some(def) => most_of_line(def.name.bytes().len(), event.args.as_slice()),
        None => 0,
    }
}

// A line with a text and numbers has at most 70 bytes beside them, if it is an event that is sent out.
fn most_of_line(text: usize, numbers: &[u64]) -> usize {
    numbers
        .len()
        .saturating_mul(21)
        .saturating_add(text)
        .saturating_add(70)
}

fn hold_head<'a, S: Sink, const N: usize>(
    sink: &mut S,
    room: &mut Room<N>,
    core: &'a Core,
    tick: u64,
    switch: u32,
    event: &'a Event,
) -> Result<(), WriteFault>
    requires { IsTrue (event_fits core.now event.now) }
    ensures all { OnOk result (Leaves S.written S.faults sink.old sink.new (room.old ++ head_text tick switch (event_name core.now event.now.id) event.now.args) room.new) }
    ensures part { OnErr result (PutsPart S.written S.faults sink.old sink.new (room.old ++ head_text tick switch (event_name core.now event.now.id) event.now.args)) }
{
    let name = name_of(core, event.id);
    hold_entry(sink, room, tick, switch, name, event.args.as_slice())
}

// Buffers the first line of a block, given the name of its event.
fn hold_entry<S: Sink, const N: usize>(
    sink: &mut S,
    room: &mut Room<N>,
    tick: u64,
    switch: u32,
    name: &[u8],
    args: &[u64],
) -> Result<(), WriteFault>
    ensures all { OnOk result (Leaves S.written S.faults sink.old sink.new (room.old ++ head_text tick switch name.now args.now) room.new) }
    ensures part { OnErr result (PutsPart S.written S.faults sink.old sink.new (room.old ++ head_text tick switch name.now args.now)) }
{
    hold_counted(sink, room, b"[", tick)?;
    hold_counted(sink, room, b"] s", switch as u64)?;
    hold_call(sink, room, b" ", name, args)?;
    hold(sink, room, b")\n")
}

// Buffers a word and a number. Inlined, so that the length of the word is known.
#[inline(always)]
fn hold_counted<S: Sink, const N: usize>(
    sink: &mut S,
    room: &mut Room<N>,
    word: &[u8],
    n: u64,
) -> Result<(), WriteFault>
    ensures all { OnOk result (Leaves S.written S.faults sink.old sink.new (room.old ++ (word.now ++ decimal n)) room.new) }
    ensures part { OnErr result (PutsPart S.written S.faults sink.old sink.new (room.old ++ (word.now ++ decimal n))) }
{
    hold(sink, room, word)?;
    hold_number(sink, room, n)
}

// Buffers a word and a call, without its last `)`. Inlined, so that the length of the word is known.
#[inline(always)]
fn hold_call<S: Sink, const N: usize>(
    sink: &mut S,
    room: &mut Room<N>,
    word: &[u8],
    name: &[u8],
    args: &[u64],
) -> Result<(), WriteFault>
    ensures all { OnOk result (Leaves S.written S.faults sink.old sink.new (room.old ++ (word.now ++ name.now ++ codes "(" ++ numbers_text args.now)) room.new) }
    ensures part { OnErr result (PutsPart S.written S.faults sink.old sink.new (room.old ++ (word.now ++ name.now ++ codes "(" ++ numbers_text args.now))) }
{
    hold(sink, room, word)?;
    hold(sink, room, name)?;
    hold(sink, room, b"(")?;
    hold_numbers(sink, room, args)
}

fn hold_outs<S: Sink, const N: usize>(
    sink: &mut S,
    room: &mut Room<N>,
    core: &Core,
    outs: &[Out],
    lost: u8,
) -> Result<(), WriteFault>
    requires outs { All (λ out. IsTrue (out_fits core.now out)) outs.now }
    requires few { length outs.now ≤ 8 }
    ensures all { OnOk result (Leaves S.written S.faults sink.old sink.new (room.old ++ outs_text core.now lost 0 outs.now) room.new) }
    ensures part { OnErr result (PutsPart S.written S.faults sink.old sink.new (room.old ++ outs_text core.now lost 0 outs.now)) }
{
    for (i, out) in outs.iter().enumerate() {
        hold_out(sink, room, core, out, is_set(lost, i))?;
    }
    Ok(())
}

fn is_set(byte: u8, bit: usize) -> bool
    requires { bit < 8 }
    ensures { result ≡ is_marked byte bit }
{
    byte >> bit & 1 == 1
}

fn hold_out<S: Sink, const N: usize>(
    sink: &mut S,
    room: &mut Room<N>,
    core: &Core,
    out: &Out,
    is_lost: bool,
) -> Result<(), WriteFault>
    requires { IsTrue (out_fits core.now out.now) }
    ensures all { OnOk result (Leaves S.written S.faults sink.old sink.new (room.old ++ out_text core.now out.now is_lost) room.new) }
    ensures part { OnErr result (PutsPart S.written S.faults sink.old sink.new (room.old ++ out_text core.now out.now is_lost)) }
{
    match out {
        Out::Gen { event, delay, to } => {
            let name = name_of(core, event.id);
            hold_generate(
                sink,
                room,
                name,
                event.args.as_slice(),
                *delay,
                *to,
                is_lost,
            )
        }
        Out::Say { form, args } => hold_say(sink, room, form_at(core, *form), args.as_slice()),
    }
}

// The name of a declared event.
fn name_of(core: &Core, id: u32) -> &[u8]
    requires { id < length core.now.events }
    ensures { result.now ≡ event_name core.now id }
{
    core.events()[id as usize].name.bytes()
}

// The text of a print that is there.
fn form_at(core: &Core, form: u32) -> &[u8]
    requires { form < length core.now.forms }
    ensures { result.now ≡ form_of core.now form }
{
    core.forms()[form as usize].bytes()
}

fn hold_generate<'a, S: Sink, const N: usize>(
    sink: &mut S,
    room: &mut Room<N>,
    name: &'a [u8],
    args: &'a [u64],
    delay: u64,
    to: Target,
    is_lost: bool,
) -> Result<(), WriteFault>
    ensures all { OnOk result (Leaves S.written S.faults sink.old sink.new (room.old ++ generate_text name.now args.now delay to is_lost) room.new) }
    ensures part { OnErr result (PutsPart S.written S.faults sink.old sink.new (room.old ++ generate_text name.now args.now delay to is_lost)) }
{
    hold_call(sink, room, b"  generate ", name, args)?;
    hold_counted(sink, room, b") delay ", delay)?;
    hold_target(sink, room, to)?;
    hold(sink, room, end_of(is_lost))
}

fn hold_target<S: Sink, const N: usize>(
    sink: &mut S,
    room: &mut Room<N>,
    to: Target,
) -> Result<(), WriteFault>
    ensures all { OnOk result (Leaves S.written S.faults sink.old sink.new (room.old ++ target_text to) room.new) }
    ensures part { OnErr result (PutsPart S.written S.faults sink.old sink.new (room.old ++ target_text to)) }
{
    match to {
        Target::Here => hold(sink, room, b" here"),
        Target::At(n) => hold_counted(sink, room, b" to ", n),
    }
}

fn end_of(is_lost: bool) -> &'static [u8]
    ensures { result.now ≡ end_text is_lost }
{
    if is_lost { b" lost\n" } else { b"\n" }
}

// Lets the line of a print wait in the room.
fn hold_say<S: Sink, const N: usize>(
    sink: &mut S,
    room: &mut Room<N>,
    text: &[u8],
    numbers: &[u64],
) -> Result<(), WriteFault>
    requires { holes_of text.now ≡ length numbers.now }
    ensures all { OnOk result (Leaves S.written S.faults sink.old sink.new (room.old ++ say_text text.now numbers.now) room.new) }
    ensures part { OnErr result (PutsPart S.written S.faults sink.old sink.new (room.old ++ say_text text.now numbers.now)) }
{
    hold(sink, room, b"  say ")?;
    hold_filled(sink, room, text, numbers)?;
    hold(sink, room, b"\n")
}
