// The events that a run sends: each is queued or lost.
ghost use Rattle.std.specs.Prelude.{◌≡◌, ◌≢◌, ◌+◌, ◌<◌, ◌≤◌, ◌^◌, [], All, IfOk, IfSome, IsSome, IsTrue, OnErr, OnOk, false, true, if◌then◌else◌, length};
ghost use Rattle.std.specs.List.{list_all, list_any};
ghost use Rattle.std.specs.Option.{option_to_list};
ghost use Rattle.lucid_base.specs.declared.event.Out.TheVariants.{Gen};
ghost use Rattle.lucid_core.specs.Fits.{event_fits, out_fits};
ghost use Rattle.lucid_net_spec.specs.Log.{losses, made as all_made, put_all};
ghost use Rattle.lucid_net_spec.specs.Older.{IsNew};
ghost use Rattle.lucid_net_spec.specs.Ways.{is_lost as loses, lost_marks, pending_out};
ghost use Rattle.lucid_queue.specs.Order.{has_place, is_before};
ghost use Rattle.lucid_queue.specs.Waiting.{put_in};
ghost use Rattle.lucid_net.specs.Kept.{is_kept};
ghost use Rattle.lucid_net.specs.Sent.{makes, net_of, run_of};

use crate::ways::{arrival as arrival_at, departure};
use crate::world::{Ran, World};
use lucid_base::{Event, Memory, Out, Target};
use lucid_core::Core;
use lucid_queue::{PendKey, Pending, Queue};

/// How many outs of a run are lost, and a byte whose bit `i` is set if out `i` is.
#[derive(Clone, Copy)]
pub(crate) struct Lost {
    pub(crate) count: u64,
    pub(crate) marks: u8,
}

impl Lost {
    /// Counts out `index` if it is lost.
    fn with(self, index: usize, is_lost: bool) -> Lost
        requires index { index < 8 }
        requires count { self.count ≤ index }
        requires marks { self.marks < 2 ^ index }
        ensures count { result.count ≡ self.count + (if is_lost then 1 else 0) }
        ensures marks { result.marks ≡ self.marks + (if is_lost then 2 ^ index else 0) }
    {
        if is_lost {
            Lost {
                count: self.count + 1,
                marks: self.marks + (1 << index),
            }
        } else {
            self
        }
    }
}

/// Queues an event whose switch and key no other has.
pub(crate) fn push(queue: &mut Queue, p: Pending) -> Result<(), Memory>
    requires { list_any (has_place p) queue.old ≡ false }
    ensures { OnOk result (queue.new ≡ put_in is_before p queue.old) }
{
    match queue.push(p) {
        Ok(()) => Ok(()),
        Err((_, memory)) => Err(memory),
    }
}

/// Returns the queue entry for out number `index` of a run; None if it is lost.
fn waiting(
    world: &World,
    ran: &Ran,
    index: u32,
    event: &Event,
    delay: u64,
    to: Target,
) -> Option<Pending>
    ensures pending { result ≡ pending_out (net_of world.now) (run_of ran.now) index (Gen event.now delay to) }
    ensures new { IfSome result (IsNew ran.now.tick ran.now.switch index event.now) }
{
    let way = arrival_at(
        world,
        ran.switch,
        departure(world.limits, ran.tick, delay),
        to,
    )?;
    Some(Pending {
        key: PendKey {
            ready: way.ready,
            made: true,
            tick: ran.tick,
            parent: ran.switch,
            index,
        },
        switch: way.switch,
        event: *event,
    })
}

/// Queues an event whose key no other has.
fn wait(
    core: &Core,
    queue: &mut Queue,
    ran: &Ran,
    index: u32,
    event: &Event,
    p: Pending,
) -> Result<(), Memory>
    requires new { IsNew ran.now.tick ran.now.switch index event.now p }
    requires fits { IsTrue (event_fits core.now event.now) }
    requires kept { list_all (is_kept core.now ran.now.tick ran.now.switch index) queue.old ≡ true }
    ensures waits { OnOk result (queue.new ≡ put_in is_before p queue.old) }
    ensures kept { OnOk result (list_all (is_kept core.now ran.now.tick ran.now.switch (index + 1)) queue.new ≡ true) }
{
    push(queue, p)
}

/// Queues event `index` of a run, or drops it if no link carries it; returns true if it is dropped.
fn send_event(
    world: &World,
    queue: &mut Queue,
    ran: &Ran,
    index: u32,
    event: &Event,
    delay: u64,
    to: Target,
) -> Result<bool, Memory>
    requires fits { IsTrue (event_fits world.now.core.now event.now) }
    requires kept { list_all (is_kept world.now.core.now ran.now.tick ran.now.switch index) queue.old ≡ true }
    ensures waits { OnOk result (queue.new ≡ put_all (option_to_list (pending_out (net_of world.now) (run_of ran.now) index (Gen event.now delay to))) queue.old) }
    ensures lost { IfOk result (λ lost. lost ≡ loses (net_of world.now) (run_of ran.now) (Gen event.now delay to)) }
    ensures kept { OnOk result (list_all (is_kept world.now.core.now ran.now.tick ran.now.switch (index + 1)) queue.new ≡ true) }
    ensures some { OnErr result (IsSome (pending_out (net_of world.now) (run_of ran.now) index (Gen event.now delay to))) }
{
    match waiting(world, ran, index, event, delay, to) {
        Some(p) => {
            wait(world.core, queue, ran, index, event, p)?;
            Ok(false)
        }
        None => Ok(true),
    }
}

/// Queues out `index` of a run if it is an event, or drops it if no link carries it; returns true if it is dropped.
fn send_out(
    world: &World,
    queue: &mut Queue,
    ran: &Ran,
    index: u32,
    out: &Out,
) -> Result<bool, Memory>
    requires fits { IsTrue (out_fits world.now.core.now out.now) }
    requires kept { list_all (is_kept world.now.core.now ran.now.tick ran.now.switch index) queue.old ≡ true }
    ensures waits { OnOk result (queue.new ≡ put_all (option_to_list (pending_out (net_of world.now) (run_of ran.now) index out.now)) queue.old) }
    ensures lost { IfOk result (λ lost. lost ≡ loses (net_of world.now) (run_of ran.now) out.now) }
    ensures kept { OnOk result (list_all (is_kept world.now.core.now ran.now.tick ran.now.switch (index + 1)) queue.new ≡ true) }
    ensures some { OnErr result (IsSome (pending_out (net_of world.now) (run_of ran.now) index out.now)) }
{
    match out {
        Out::Gen { event, delay, to } => send_event(world, queue, ran, index, event, *delay, *to),
        Out::Say { .. } => Ok(false),
    }
}

/// Queues the outs of a run, or drops them.
pub(crate) fn send(world: &World, queue: &mut Queue, ran: &Ran) -> Result<Lost, Memory>
    requires few { length ran.now.outs.now ≤ 8 }
    requires fit { All (λ out. IsTrue (out_fits world.now.core.now out)) ran.now.outs.now }
    requires kept { list_all (is_kept world.now.core.now ran.now.tick ran.now.switch 0) queue.old ≡ true }
    ensures waits { OnOk result (queue.new ≡ put_all (all_made (net_of world.now) (run_of ran.now)) queue.old) }
    ensures kept { OnOk result (list_all (is_kept world.now.core.now ran.now.tick (ran.now.switch + 1) 0) queue.new ≡ true) }
    ensures count { IfOk result (λ lost. lost.count ≡ losses (net_of world.now) (run_of ran.now)) }
    ensures marks { IfOk result (λ lost. lost.marks ≡ lost_marks (net_of world.now) (run_of ran.now) 0 ran.now.outs.now) }
    ensures few { IfOk result (λ lost. lost.count ≤ 8) }
    ensures some { OnErr result (all_made (net_of world.now) (run_of ran.now) ≢ []) }
{
    let mut lost = Lost { count: 0, marks: 0 };
    for (index, out) in ran.outs.iter().enumerate() {
        let is_lost = send_out(world, queue, ran, index as u32, out)?;
        lost = lost.with(index, is_lost);
    }
    Ok(lost)
}

/// The outcome of a run's outs: how many are lost, and which; and how many are queued.
#[derive(Clone, Copy)]
pub(crate) struct Told {
    pub(crate) lost: Lost,
    pub(crate) made: u64,
}

/// Returns whether an out of a run is an event that is lost.
fn is_lost(world: &World, ran: &Ran, out: &Out) -> bool
    ensures { result ≡ loses (net_of world.now) (run_of ran.now) out.now }
{
    match *out {
        Out::Gen { delay, to, .. } => {
            arrival_at(
                world,
                ran.switch,
                departure(world.limits, ran.tick, delay),
                to,
            )
            .is_none()
        }
        Out::Say { .. } => false,
    }
}

/// Returns whether an out of a run is an event that waits.
fn is_made(world: &World, ran: &Ran, out: &Out) -> bool
    ensures { result ≡ makes (net_of world.now) (run_of ran.now) out.now }
{
    match *out {
        Out::Gen { .. } => !is_lost(world, ran, out),
        Out::Say { .. } => false,
    }
}

/// Counts the outs of a run without queueing them. Allocates nothing.
pub(crate) fn tell(world: &World, ran: &Ran) -> Told
    requires few { length ran.now.outs.now ≤ 8 }
    ensures made { result.made ≡ length (all_made (net_of world.now) (run_of ran.now)) }
    ensures count { result.lost.count ≡ losses (net_of world.now) (run_of ran.now) }
    ensures marks { result.lost.marks ≡ lost_marks (net_of world.now) (run_of ran.now) 0 ran.now.outs.now }
    ensures few { result.lost.count ≤ 8 }
    ensures fewer { result.made ≤ 8 }
{
    let mut lost = Lost { count: 0, marks: 0 };
    let mut made = 0;
    for (index, out) in ran.outs.iter().enumerate() {
        lost = lost.with(index, is_lost(world, ran, out));
        if is_made(world, ran, out) {
            made += 1;
        }
    }
    Told { lost, made }
}
