// Switches with pipes.
ghost use Rattle.std.specs.Prelude.{◌≡◌, ◌≢◌, ◌+◌, ◌<◌, ◌≤◌, ◌^◌, [], None, Err, IfOk, IfSome, OnErr, OnOk, length};
ghost use Rattle.lucid_io.specs.Puts.{PutsAll, PutsPart};
ghost use Rattle.lucid_net_laws.specs.Runs.{late_text, leaving, left_text, losses_by, made_by, text_by};
ghost use Rattle.lucid_net_spec.specs.Log.{block, losses, made};
ghost use Rattle.lucid_net_spec.specs.Pieces.{pieces};
ghost use Rattle.lucid_net_laws.specs.Rows.{rows_in, step_of};
ghost use Rattle.lucid_net_laws.specs.PipeStages.{run_of_passed};
ghost use Rattle.lucid_pipe_laws.specs.Moves.{advance};
ghost use Rattle.lucid_net.specs.Leaving.{Fits, gone_run, left};
ghost use Rattle.lucid_net.specs.Pipes.{IsDrained, IsPiped, IsReady, piped_of};
ghost use Rattle.lucid_net.specs.Rows.{IsOf};
ghost use Rattle.lucid_net.specs.Sent.{net_of};
ghost use Rattle.lucid_net.specs.Wanting.{SomeMade};
ghost use Rattle.lucid_net.specs.Writes.{Writes};
ghost use Rattle.lucid_net.specs.declared.error.NetError.TheVariants.{Memory};

use crate::NetError;
use crate::leaving::{Counts, pipe_turn};
use crate::moving::{is_of, move_on};
use crate::sending::tell;
use crate::world::{Ran, World};
use lucid_io::{Sink, WriteFault};
use lucid_log::put_block;
use lucid_pipe::{Passed, Pipe};
use lucid_queue::Queue;
use lucid_tables::Placed;

/// The pipe of each switch, the queue, and the numbers of events that entered and were lost.
#[derive(Drop)]
pub(crate) struct Pipes<'a> {
    pub(crate) placed: &'a Placed,
    pub(crate) pipes: Vec<Pipe<'a>>,
    pub(crate) queue: Queue,
    pub(crate) counts: Counts,
}

/// Does the turn of a switch at a tick.
fn turn<S: Sink>(
    world: &World,
    now: &mut Pipes<'_>,
    sink: &mut S,
    tick: u64,
    switch: u32,
) -> Result<(), NetError>
    requires ready { IsReady (net_of world.now) now.old.placed.now }
    requires piped { IsPiped (net_of world.now) now.old.placed.now tick switch (piped_of now.old) }
    requires within { switch < world.now.scene.now.switches }
    requires before { tick < world.now.scene.now.stop }
    ensures same { now.new.placed.now ≡ now.old.placed.now }
    ensures piped { OnOk result (IsPiped (net_of world.now) now.old.placed.now tick (switch + 1) (piped_of now.new)) }
    ensures writes { Writes S.written S.faults sink.old sink.new (left_text (net_of world.now) world.now.limits.now.stages tick switch) result }
    ensures memory { result ≡ Err Memory → made_by (net_of world.now) (leaving (net_of world.now) world.now.limits.now.stages switch tick) ≢ [] }
{
    pipe_turn(
        world,
        now.placed,
        &mut now.queue,
        &mut now.pipes[switch as usize],
        &mut now.counts,
        sink,
        tick,
        switch,
    )
}

/// Does the turns of all switches at a tick.
pub(crate) fn all_turns<S: Sink>(
    world: &World,
    now: &mut Pipes<'_>,
    sink: &mut S,
    tick: u64,
) -> Result<(), NetError>
    requires ready { IsReady (net_of world.now) now.old.placed.now }
    requires piped { IsPiped (net_of world.now) now.old.placed.now tick 0 (piped_of now.old) }
    requires before { tick < world.now.scene.now.stop }
    ensures same { now.new.placed.now ≡ now.old.placed.now }
    ensures piped { OnOk result (IsPiped (net_of world.now) now.old.placed.now (tick + 1) 0 (piped_of now.new)) }
    ensures writes { Writes S.written S.faults sink.old sink.new (late_text (net_of world.now) world.now.limits.now.stages tick) result }
    ensures memory { result ≡ Err Memory → SomeMade (net_of world.now) tick }
{
    for switch in 0..world.scene.switches {
        match turn(world, now, sink, tick, switch) {
            Ok(()) => {}
            Err(error) => return Err(error),
        }
    }
    Ok(())
}

/// Logs the events of a packet that left after the last tick without queueing them; returns how many would have been queued.
fn tell_block<S: Sink>(
    world: &World,
    counts: &mut Counts,
    sink: &mut S,
    passed: &Passed,
) -> Result<u64, WriteFault>
    requires fits { Fits world.now.core.now (run_of_passed passed.now) }
    requires room { counts.old.lost + 8 < 2 ^ 64 }
    ensures made { IfOk result (λ m. m ≡ length (made (net_of world.now) (run_of_passed passed.entry.now))) }
    ensures entered { OnOk result (counts.new.entered ≡ counts.old.entered) }
    ensures lost { OnOk result (counts.new.lost ≡ counts.old.lost + losses (net_of world.now) (run_of_passed passed.entry.now)) }
    ensures all { OnOk result (PutsAll S.written S.faults sink.old sink.new (block (net_of world.now) (run_of_passed passed.entry.now))) }
    ensures part { OnErr result (PutsPart S.written S.faults sink.old sink.new (block (net_of world.now) (run_of_passed passed.entry.now))) }
{
    let ran = Ran::of(passed);
    let told = tell(world, &ran);
    counts.lost += told.lost.count;
    put_block(
        sink,
        world.core,
        passed.now,
        passed.me,
        &passed.event,
        &passed.outs,
        told.lost.marks,
    )?;
    Ok(told.made)
}

/// Moves the packets of a pipe and logs one that leaves.
fn drain_pipe<S: Sink>(
    world: &World,
    placed: &Placed,
    pipe: &mut Pipe<'_>,
    counts: &mut Counts,
    sink: &mut S,
) -> Result<u64, WriteFault>
    requires same { pipe.old.placed ≡ placed.now }
    requires some { 0 < length (rows_in pipe.old) }
    requires fits { IfSome (left pipe.old.placed (rows_in pipe.old)) (Fits world.now.core.now) }
    requires room { counts.old.lost + 8 < 2 ^ 64 }
    ensures of { IsOf placed.now pipe.new }
    ensures rows { (rows_in pipe.new) ≡ (advance (step_of pipe.old.placed) None (rows_in pipe.old)).0 }
    ensures made { IfOk result (λ m. m ≡ length (made_by (net_of world.now) (left pipe.old.placed (rows_in pipe.old)))) }
    ensures entered { OnOk result (counts.new.entered ≡ counts.old.entered) }
    ensures lost { OnOk result (counts.new.lost ≡ counts.old.lost + losses_by (net_of world.now) (left pipe.old.placed (rows_in pipe.old))) }
    ensures all { OnOk result (PutsAll S.written S.faults sink.old sink.new (text_by (net_of world.now) (left pipe.old.placed (rows_in pipe.old)))) }
    ensures part { OnErr result (PutsPart S.written S.faults sink.old sink.new (text_by (net_of world.now) (left pipe.old.placed (rows_in pipe.old)))) }
{
    let mut gone = None;
    move_on(placed, pipe, &mut gone);
    is_of(placed, pipe);
    tell_any(world, counts, sink, &gone)
}

/// Like `tell_block`, for an optional packet.
fn tell_any<S: Sink>(
    world: &World,
    counts: &mut Counts,
    sink: &mut S,
    gone: &Option<Passed>,
) -> Result<u64, WriteFault>
    requires fits { IfSome (gone_run gone.now) (Fits world.now.core.now) }
    requires room { counts.old.lost + 8 < 2 ^ 64 }
    ensures made { IfOk result (λ m. m ≡ length (made_by (net_of world.now) (gone_run gone.now))) }
    ensures entered { OnOk result (counts.new.entered ≡ counts.old.entered) }
    ensures lost { OnOk result (counts.new.lost ≡ counts.old.lost + losses_by (net_of world.now) (gone_run gone.now)) }
    ensures all { OnOk result (PutsAll S.written S.faults sink.old sink.new (text_by (net_of world.now) (gone_run gone.now))) }
    ensures part { OnErr result (PutsPart S.written S.faults sink.old sink.new (text_by (net_of world.now) (gone_run gone.now))) }
{
    match gone {
        None => Ok(0),
        Some(passed) => tell_block(world, counts, sink, passed),
    }
}

/// Does the turn of a switch once the last tick is done.
fn drain_turn<S: Sink>(
    world: &World,
    now: &mut Pipes<'_>,
    sink: &mut S,
    waiting: u64,
    _tick: u64,
    switch: u32,
) -> Result<u64, WriteFault>
    requires ready { IsReady (net_of world.now) now.old.placed.now }
    requires drained { IsDrained (net_of world.now) now.old.placed.now _tick switch (piped_of now.old) waiting }
    requires within { switch < world.now.scene.now.switches }
    requires late { world.now.scene.now.stop ≤ _tick }
    requires soon { _tick < world.now.scene.now.stop + world.now.limits.now.stages }
    ensures same { now.new.placed.now ≡ now.old.placed.now }
    ensures drained { IfOk result (λ w. IsDrained (net_of world.now) now.old.placed.now _tick (switch + 1) (piped_of now.new) w) }
    ensures all { OnOk result (PutsAll S.written S.faults sink.old sink.new (left_text (net_of world.now) world.now.limits.now.stages _tick switch)) }
    ensures part { OnErr result (PutsPart S.written S.faults sink.old sink.new (left_text (net_of world.now) world.now.limits.now.stages _tick switch)) }
{
    let made = drain_pipe(
        world,
        now.placed,
        &mut now.pipes[switch as usize],
        &mut now.counts,
        sink,
    )?;
    Ok(waiting + made)
}

/// Does the turns of all switches at such a tick.
fn drain_tick<S: Sink>(
    world: &World,
    now: &mut Pipes<'_>,
    sink: &mut S,
    waiting: u64,
    tick: u64,
) -> Result<u64, WriteFault>
    requires ready { IsReady (net_of world.now) now.old.placed.now }
    requires drained { IsDrained (net_of world.now) now.old.placed.now tick 0 (piped_of now.old) waiting }
    requires late { world.now.scene.now.stop ≤ tick }
    requires soon { tick < world.now.scene.now.stop + world.now.limits.now.stages }
    ensures same { now.new.placed.now ≡ now.old.placed.now }
    ensures drained { IfOk result (λ w. IsDrained (net_of world.now) now.old.placed.now (tick + 1) 0 (piped_of now.new) w) }
    ensures all { OnOk result (PutsAll S.written S.faults sink.old sink.new (late_text (net_of world.now) world.now.limits.now.stages tick)) }
    ensures part { OnErr result (PutsPart S.written S.faults sink.old sink.new (late_text (net_of world.now) world.now.limits.now.stages tick)) }
{
    let mut count = waiting;
    for switch in 0..world.scene.switches {
        count = drain_turn(world, now, sink, count, tick, switch)?;
    }
    Ok(count)
}

/// Lets packets in flight finish. Returns how many events never enter.
pub(crate) fn drain_ticks<S: Sink>(
    world: &World,
    now: &mut Pipes<'_>,
    sink: &mut S,
) -> Result<u64, WriteFault>
    requires ready { IsReady (net_of world.now) now.old.placed.now }
    requires piped { IsPiped (net_of world.now) now.old.placed.now world.now.scene.now.stop 0 (piped_of now.old) }
    ensures same { now.new.placed.now ≡ now.old.placed.now }
    ensures drained { IfOk result (λ w. IsDrained (net_of world.now) now.old.placed.now (world.now.scene.now.stop + world.now.limits.now.stages) 0 (piped_of now.new) w) }
    ensures all { OnOk result (PutsAll S.written S.faults sink.old sink.new (pieces (late_text (net_of world.now) world.now.limits.now.stages) world.now.scene.now.stop world.now.limits.now.stages)) }
    ensures part { OnErr result (PutsPart S.written S.faults sink.old sink.new (pieces (late_text (net_of world.now) world.now.limits.now.stages) world.now.scene.now.stop world.now.limits.now.stages)) }
{
    let mut waiting = now.queue.len() as u64;
    let stop = world.scene.stop;
    for tick in stop..stop + world.limits.stages as u64 {
        waiting = drain_tick(world, now, sink, waiting, tick)?;
    }
    Ok(waiting)
}
