// The turns of switches: the first event that is ready enters, and runs whole.
ghost use Rattle.std.specs.Prelude.{◌≡◌, ◌+◌, ◌*◌, ◌<◌, ◌≤◌, [], All, IsTrue, OnOk, length};
ghost use Rattle.lucid_core.specs.Fits.{event_fits, out_fits};
ghost use Rattle.lucid_net_spec.specs.Log.{done_at, turn as turn_of, turns};
ghost use Rattle.lucid_net_spec.specs.Pieces.{untold};
ghost use Rattle.lucid_net.specs.Entering.{entered_text, with_cells, with_entered};
ghost use Rattle.lucid_net.specs.Kept.{IsKept};
ghost use Rattle.lucid_net.specs.Sent.{net_of};
ghost use Rattle.lucid_net.specs.Stands.{state_of};
ghost use Rattle.lucid_net.specs.Writes.{Writes};

use crate::NetError;
use crate::sending::send;
use crate::switches::Switches;
use crate::world::{Ran, World};
use lucid_base::{Event, Memory, Outs};
use lucid_core_run::run_into;
use lucid_io::Sink;
use lucid_log::put_block;

/// Runs the event whole on the cells of the switch, and fills the caller's empty outs.
fn run(
    world: &World,
    now: &mut Switches,
    tick: u64,
    switch: u32,
    event: &Event,
    outs: &mut Outs,
) -> Result<(), Memory>
    requires there { switch < length now.old.cells.items }
    requires empty { outs.old ≡ [] }
    ensures outs { OnOk result (outs.new ≡ (done_at (net_of world.now) tick switch (state_of now.old) event.now).outs) }
    ensures fit { OnOk result (All (λ out. IsTrue (out_fits world.now.core.now out)) outs.new) }
    ensures after { OnOk result (state_of now.new ≡ with_cells switch (state_of now.old) (done_at (net_of world.now) tick switch (state_of now.old) event.now).cells) }
{
    run_into(
        world.alloc,
        world.core,
        &mut now.cells[switch as usize],
        tick,
        switch,
        event,
        &mut now.scratch,
        outs,
    )
}

/// Runs an event that enters the switch at the tick whole. Its events are queued or lost, and its block is written at the end.
fn enter<S: Sink>(
    world: &World,
    now: &mut Switches,
    sink: &mut S,
    tick: u64,
    switch: u32,
    event: &Event,
) -> Result<(), NetError>
    requires kept { IsKept world.now.core.now world.now.scene.now.switches tick switch (state_of now.old) }
    requires within { switch < world.now.scene.now.switches }
    requires few { tick * world.now.scene.now.switches + switch < 131072 }
    requires fits { IsTrue (event_fits world.now.core.now event.now) }
    ensures writes { Writes S.written S.faults sink.old sink.new (entered_text (net_of world.now) tick switch (state_of now.old) event.now) result }
    ensures after { OnOk result (state_of now.new ≡ with_entered (net_of world.now) tick switch (state_of now.old) event.now) }
    ensures kept { OnOk result (IsKept world.now.core.now world.now.scene.now.switches tick (switch + 1) (state_of now.new)) }
{
    let mut outs = Outs::new();
    run(world, now, tick, switch, event, &mut outs)?;
    let ran = Ran {
        tick,
        switch,
        event,
        outs: outs.as_slice(),
    };
    let lost = send(world, &mut now.queue, &ran)?;
    now.entered += 1;
    now.lost += lost.count;
    match put_block(sink, world.core, tick, switch, event, &outs, lost.marks) {
        Ok(()) => Ok(()),
        Err(_) => Err(NetError::WriteFault),
    }
}

/// Does the turn of a switch at a tick.
pub(crate) fn turn<S: Sink>(
    world: &World,
    now: &mut Switches,
    sink: &mut S,
    tick: u64,
    switch: u32,
) -> Result<(), NetError>
    requires kept { IsKept world.now.core.now world.now.scene.now.switches tick switch (state_of now.old) }
    requires within { switch < world.now.scene.now.switches }
    requires few { tick * world.now.scene.now.switches + switch < 131072 }
    ensures writes { Writes S.written S.faults sink.old sink.new (turn_of (net_of world.now) tick switch (state_of now.old)).text result }
    ensures after { OnOk result (state_of now.new ≡ untold (turn_of (net_of world.now) tick switch (state_of now.old))) }
    ensures kept { OnOk result (IsKept world.now.core.now world.now.scene.now.switches tick (switch + 1) (state_of now.new)) }
{
    match now.queue.pop_ready(switch, tick) {
        None => Ok(()),
        Some(p) => enter(world, now, sink, tick, switch, &p.event),
    }
}

/// Does the turns of all switches at a tick.
pub(crate) fn all_turns<S: Sink>(
    world: &World,
    now: &mut Switches,
    sink: &mut S,
    tick: u64,
) -> Result<(), NetError>
    requires kept { IsKept world.now.core.now world.now.scene.now.switches tick 0 (state_of now.old) }
    requires few { tick * world.now.scene.now.switches + world.now.scene.now.switches ≤ 131072 }
    ensures writes { Writes S.written S.faults sink.old sink.new (turns (net_of world.now) tick world.now.scene.now.switches (state_of now.old)).text result }
    ensures after { OnOk result (state_of now.new ≡ untold (turns (net_of world.now) tick world.now.scene.now.switches (state_of now.old))) }
    ensures kept { OnOk result (IsKept world.now.core.now world.now.scene.now.switches (tick + 1) 0 (state_of now.new)) }
{
    for switch in 0..world.scene.switches {
        turn(world, now, sink, tick, switch)?;
    }
    Ok(())
}
