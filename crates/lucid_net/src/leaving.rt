// A packet leaves its pipe, and another one enters.
ghost use Rattle.std.specs.Prelude.{◌≡◌, ◌≢◌, ◌+◌, ◌<◌, ◌^◌, [], None, Some, Err, IfSome, OnOk, length};
ghost use Rattle.std.specs.List.{find};
ghost use Rattle.lucid_code.specs.Inputs.{IsInput};
ghost use Rattle.lucid_net_laws.specs.Flying.{one_if, packet_for};
ghost use Rattle.lucid_net_laws.specs.Runs.{losses_by, made_by, text_by};
ghost use Rattle.lucid_net_spec.specs.Log.{block, losses, made, put_all};
ghost use Rattle.lucid_net_laws.specs.Rows.{rows_in, step_of};
ghost use Rattle.lucid_net_laws.specs.PipeStages.{run_of_passed, stages_of};
ghost use Rattle.lucid_pipe.specs.Pipe.{packet_at};
ghost use Rattle.lucid_pipe_laws.specs.Moves.{advance, entered_by};
ghost use Rattle.lucid_queue.specs.Waiting.{is_ready, without_first};
ghost use Rattle.lucid_net.specs.Leaving.{Fits, KeptAfter, KeptBefore, gone_run, left, waits};
ghost use Rattle.lucid_net.specs.Rows.{IsOf};
ghost use Rattle.lucid_net.specs.Sent.{net_of};
ghost use Rattle.lucid_net.specs.Writes.{Writes};
ghost use Rattle.lucid_net.specs.declared.error.NetError.TheVariants.{Memory};

use crate::NetError;
use crate::moving::{enter_free, is_of, move_on};
use crate::sending::send;
use crate::world::{Ran, World};
use lucid_io::Sink;
use lucid_log::put_block;
use lucid_pipe::{Passed, Pipe};
use lucid_queue::Queue;
use lucid_tables::Placed;

/// How many events entered, and how many were lost.
#[derive(Clone, Copy)]
pub(crate) struct Counts {
    pub(crate) entered: u64,
    pub(crate) lost: u64,
}

/// Queues (or drops) the events sent by a packet that has left the pipe, and writes its log block.
fn leave<S: Sink>(
    world: &World,
    queue: &mut Queue,
    counts: &mut Counts,
    sink: &mut S,
    passed: &Passed,
) -> Result<(), NetError>
    requires fits { Fits world.now.core.now (run_of_passed passed.now) }
    requires kept { KeptBefore world.now.core.now (run_of_passed passed.now) queue.old }
    requires room { counts.old.lost + 8 < 2 ^ 64 }
    ensures queue { OnOk result (queue.new ≡ put_all (made (net_of world.now) (run_of_passed passed.entry.now)) queue.old) }
    ensures kept { OnOk result (KeptAfter world.now.core.now (run_of_passed passed.entry.now) queue.new) }
    ensures entered { OnOk result (counts.new.entered ≡ counts.old.entered) }
    ensures lost { OnOk result (counts.new.lost ≡ counts.old.lost + losses (net_of world.now) (run_of_passed passed.entry.now)) }
    ensures writes { Writes S.written S.faults sink.old sink.new (block (net_of world.now) (run_of_passed passed.entry.now)) result }
    ensures memory { result ≡ Err Memory → made (net_of world.now) (run_of_passed passed.entry.now) ≢ [] }
{
    let ran = Ran::of(passed);
    let lost = match send(world, queue, &ran) {
        Ok(lost) => lost,
        Err(_) => return Err(NetError::Memory),
    };
    counts.lost += lost.count;
    match put_block(
        sink,
        world.core,
        passed.now,
        passed.me,
        &passed.event,
        &passed.outs,
        lost.marks,
    ) {
        Ok(()) => Ok(()),
        Err(_) => Err(NetError::WriteFault),
    }
}

/// Like `leave`, for an optional packet.
fn leave_any<S: Sink>(
    world: &World,
    queue: &mut Queue,
    counts: &mut Counts,
    sink: &mut S,
    gone: &Option<Passed>,
) -> Result<(), NetError>
    requires fits { IfSome (gone_run gone.now) (Fits world.now.core.now) }
    requires kept { IfSome (gone_run gone.now) (λ run. KeptBefore world.now.core.now run queue.old) }
    requires room { counts.old.lost + 8 < 2 ^ 64 }
    ensures queue { OnOk result (queue.new ≡ put_all (made_by (net_of world.now) (gone_run gone.now)) queue.old) }
    ensures kept { OnOk result (IfSome (gone_run gone.now) (λ run. KeptAfter world.now.core.now run queue.new)) }
    ensures entered { OnOk result (counts.new.entered ≡ counts.old.entered) }
    ensures lost { OnOk result (counts.new.lost ≡ counts.old.lost + losses_by (net_of world.now) (gone_run gone.now)) }
    ensures writes { Writes S.written S.faults sink.old sink.new (text_by (net_of world.now) (gone_run gone.now)) result }
    ensures memory { result ≡ Err Memory → made_by (net_of world.now) (gone_run gone.now) ≢ [] }
{
    match gone {
        None => Ok(()),
        Some(passed) => leave(world, queue, counts, sink, passed),
    }
}

/// Lets the first event that is ready enter the pipe of its switch, whose first slot is free.
fn let_in(
    placed: &Placed,
    queue: &mut Queue,
    pipe: &mut Pipe<'_>,
    counts: &mut Counts,
    tick: u64,
    switch: u32,
)
    requires same { pipe.old.placed ≡ placed.now }
    requires long { length pipe.old.slots ≡ length pipe.old.placed.stages }
    requires free { packet_at pipe.old 0 ≡ None }
    requires input { IfSome (find (is_ready switch tick) queue.old) (λ p. IsInput pipe.old.placed.code switch p.event) }
    requires room { counts.old.entered + 1 < 2 ^ 64 }
    ensures queue { queue.new ≡ without_first (is_ready switch tick) queue.old }
    ensures placed { pipe.new.placed ≡ pipe.old.placed }
    ensures rows { (rows_in pipe.new) ≡ entered_by (packet_for (stages_of pipe.old.placed) tick switch (find (is_ready switch tick) queue.old)) (rows_in pipe.old) }
    ensures entered { counts.new.entered ≡ counts.old.entered + one_if (find (is_ready switch tick) queue.old) }
    ensures lost { counts.new.lost ≡ counts.old.lost }
{
    match queue.pop_ready(switch, tick) {
        None => {}
        Some(p) => {
            counts.entered += 1;
            enter_free(placed, pipe, p.event, tick, switch);
        }
    }
}

/// Does the turn of a switch with a pipe. Its packets move. The block of a leaving packet is written, and its events are queued. Then one
/// event may enter.
pub(crate) fn pipe_turn<S: Sink>(
    world: &World,
    placed: &Placed,
    queue: &mut Queue,
    pipe: &mut Pipe<'_>,
    counts: &mut Counts,
    sink: &mut S,
    tick: u64,
    switch: u32,
) -> Result<(), NetError>
    requires same { pipe.old.placed ≡ placed.now }
    requires some { 0 < length (rows_in pipe.old) }
    requires fits { IfSome (left pipe.old.placed (rows_in pipe.old)) (Fits world.now.core.now) }
    requires kept { IfSome (left pipe.old.placed (rows_in pipe.old)) (λ run. KeptBefore world.now.core.now run queue.old) }
    requires input { IfSome (find (is_ready switch tick) (waits (net_of world.now) pipe.old.placed (rows_in pipe.old) queue.old)) (λ p. IsInput pipe.old.placed.code switch p.event) }
    requires lost { counts.old.lost + 8 < 2 ^ 64 }
    requires entered { counts.old.entered + 1 < 2 ^ 64 }
    ensures of { OnOk result (IsOf placed.now pipe.new) }
    ensures rows { OnOk result ((rows_in pipe.new) ≡ entered_by (packet_for (stages_of pipe.old.placed) tick switch (find (is_ready switch tick) (waits (net_of world.now) pipe.old.placed (rows_in pipe.old) queue.old)))
        (advance (step_of pipe.old.placed) None (rows_in pipe.old)).0) }
    ensures queue { OnOk result (queue.new ≡ without_first (is_ready switch tick) (waits (net_of world.now) pipe.old.placed (rows_in pipe.old) queue.old)) }
    ensures kept { OnOk result (IfSome (left pipe.old.placed (rows_in pipe.old)) (λ run. KeptAfter world.now.core.now run queue.new)) }
    ensures entered { OnOk result (counts.new.entered ≡ counts.old.entered + one_if (find (is_ready switch tick) (waits (net_of world.now) pipe.old.placed (rows_in pipe.old) queue.old))) }
    ensures lost { OnOk result (counts.new.lost ≡ counts.old.lost + losses_by (net_of world.now) (left pipe.old.placed (rows_in pipe.old))) }
    ensures writes { Writes S.written S.faults sink.old sink.new (text_by (net_of world.now) (left pipe.old.placed (rows_in pipe.old))) result }
    ensures memory { result ≡ Err Memory → made_by (net_of world.now) (left pipe.old.placed (rows_in pipe.old)) ≢ [] }
{
    let mut gone = None;
    move_on(placed, pipe, &mut gone);
    match leave_any(world, queue, counts, sink, &gone) {
        Ok(()) => {
            let_in(placed, queue, pipe, counts, tick, switch);
            is_of(placed, pipe);
            Ok(())
        }
        Err(error) => Err(error),
    }
}
