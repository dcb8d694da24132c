// How a network begins: all cells are 0, and the events of the file wait.
ghost use Rattle.std.specs.Prelude.{◌≡◌, ◌+◌, [], All, IfOk, IsTrue, OnOk, true, false, replicate};
ghost use Rattle.std.specs.List.{list_all};
ghost use Rattle.lucid_base.specs.Cells.{zero_cells};
ghost use Rattle.lucid_conf.specs.Kept.{IsFileEvent};
ghost use Rattle.lucid_core.specs.Fits.{event_fits};
ghost use Rattle.lucid_net_spec.specs.Log.{file_event, file_events, put_all};
ghost use Rattle.lucid_pipe.specs.Pipe.{empty_pipe};
ghost use Rattle.lucid_queue.specs.Order.{is_before};
ghost use Rattle.lucid_queue.specs.Waiting.{put_in};
ghost use Rattle.lucid_net.specs.Kept.{is_kept, is_of_file};

use crate::sending::push;
use lucid_base::Memory;
use lucid_conf::FileEvent;
use lucid_core::{Cells, Core};
use lucid_pipe::Pipe;
use lucid_queue::{PendKey, Pending, Queue};
use lucid_tables::Placed;
use std::alloc::Global;

/// Returns the cells of all switches, all 0.
pub(crate) fn all_cells(alloc: Global, core: &Core, switches: u32) -> Result<Vec<Cells>, Memory>
    ensures { IfOk result (λ all. all.items ≡ replicate switches (zero_cells core.now.arrays)) }
{
    let mut all = Vec::new(alloc);
    for _index in 0..switches {
        let cells = core.cells(alloc)?;
        all.push(cells)?;
    }
    Ok(all)
}

/// Returns the pipes of all switches, with no packet and all cells 0.
pub(crate) fn all_pipes<'a>(
    alloc: Global,
    placed: &'a Placed,
    switches: u32,
) -> Result<Vec<Pipe<'a>>, Memory>
    ensures { IfOk result (λ all. all.items ≡ replicate switches (empty_pipe placed.now)) }
{
    let mut all = Vec::new(alloc);
    for _index in 0..switches {
        let pipe = Pipe::new(alloc, placed)?;
        all.push(pipe)?;
    }
    Ok(all)
}

/// Returns the queue entry of the event at this position of the file.
fn pending(e: &FileEvent, index: u32) -> Pending
    ensures { result ≡ file_event index e.now }
{
    Pending {
        key: PendKey {
            ready: e.at,
            made: false,
            tick: 0,
            parent: 0,
            index,
        },
        switch: e.switch,
        event: e.event,
    }
}

/// Queues the event at this position of the file, after those before it. Positions are numbers of 32 bits: no memory holds more events.
fn wait(core: &Core, queue: &mut Queue, index: usize, e: &FileEvent) -> Result<(), Memory>
    requires fits { IsTrue (event_fits core.now e.now.event) }
    requires kept { list_all (is_of_file core.now index) queue.old ≡ true }
    ensures waits { OnOk result (queue.new ≡ put_in is_before (file_event index e.now) queue.old) }
    ensures kept { OnOk result (list_all (is_of_file core.now (index + 1)) queue.new ≡ true) }
{
    if index > u32::MAX as usize {
        return Err(Memory);
    }
    push(queue, pending(e, index as u32))
}

/// Queues the events of the file.
pub(crate) fn all_events(
    alloc: Global,
    core: &Core,
    switches: u32,
    events: &[FileEvent],
) -> Result<Queue, Memory>
    requires { All (IsFileEvent core.now switches) events.now }
    ensures waits { IfOk result (λ queue. queue ≡ put_all (file_events 0 events.now) []) }
    ensures kept { IfOk result (λ queue. list_all (is_kept core.now 0 0 0) queue ≡ true) }
{
    let mut queue = Queue::new(alloc);
    for (index, e) in events.iter().enumerate() {
        wait(core, &mut queue, index, e)?;
    }
    Ok(queue)
}
