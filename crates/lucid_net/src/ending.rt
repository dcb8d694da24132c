// The text at the end: the cells that aren't 0, and the counts.
ghost use Rattle.std.specs.Prelude.{◌≤◌, OnOk, OnErr, length, map};
ghost use Rattle.lucid_io.specs.Puts.{PutsAll, PutsPart};
ghost use Rattle.lucid_net_spec.specs.Log.{all_cells, end_text};
ghost use Rattle.lucid_net.specs.Pipes.{IsPiped, IsReady, piped_of};
ghost use Rattle.lucid_net.specs.Rows.{held};
ghost use Rattle.lucid_net.specs.Seen.{last_text};
ghost use Rattle.lucid_net.specs.Sent.{net_of};
ghost use Rattle.lucid_net.specs.Stands.{state_of};

use crate::pipes::{Pipes, drain_ticks};
use crate::switches::Switches;
use crate::world::World;
use lucid_core::Cells;
use lucid_io::{Sink, WriteFault};
use lucid_log::{ArrayCells, put_cells, put_ending};
use lucid_pipe::Pipe;

/// Writes the cells of all switches.
fn put_all_cells<S: Sink>(world: &World, sink: &mut S, all: &[Cells]) -> Result<(), WriteFault>
    requires { length all.now ≤ 64 }
    ensures all { OnOk result (PutsAll S.written S.faults sink.old sink.new (all_cells world.now.core.now 0 all.now)) }
    ensures part { OnErr result (PutsPart S.written S.faults sink.old sink.new (all_cells world.now.core.now 0 all.now)) }
{
    for (switch, cells) in all.iter().enumerate() {
        put_cells(sink, switch as u32, world.core.arrays(), cells)?;
    }
    Ok(())
}

/// Writes the cells and the ending.
pub(crate) fn put_end<S: Sink>(
    world: &World,
    now: &Switches,
    sink: &mut S,
) -> Result<(), WriteFault>
    requires { length now.now.cells.items ≤ 64 }
    ensures all { OnOk result (PutsAll S.written S.faults sink.old sink.new (end_text (net_of world.now) (state_of now.now))) }
    ensures part { OnErr result (PutsPart S.written S.faults sink.old sink.new (end_text (net_of world.now) (state_of now.now))) }
{
    put_all_cells(world, sink, now.cells.as_slice())?;
    put_ending(sink, now.entered, now.lost, now.queue.len() as u64)
}

/// Writes the cells of a pipe.
#[derive(Clone, Copy)]
struct PipeCells<'a, 'p> {
    pipe: &'p Pipe<'a>,
}

impl<'a, 'p> ArrayCells for PipeCells<'a, 'p> {
    ghost held = { λ c. held c.pipe.now };

    fn value(&self, array: u32, cell: u64) -> u64 {
        self.pipe.look(array, cell)
    }
}

/// Writes the cells of all pipes.
fn put_all_pipes<S: Sink>(world: &World, sink: &mut S, all: &[Pipe<'_>]) -> Result<(), WriteFault>
    requires { length all.now ≤ 64 }
    ensures all { OnOk result (PutsAll S.written S.faults sink.old sink.new (all_cells world.now.core.now 0 (map held all.now))) }
    ensures part { OnErr result (PutsPart S.written S.faults sink.old sink.new (all_cells world.now.core.now 0 (map held all.now))) }
{
    for (switch, pipe) in all.iter().enumerate() {
        put_cells(
            sink,
            switch as u32,
            world.core.arrays(),
            &PipeCells { pipe },
        )?;
    }
    Ok(())
}

/// Lets packets in flight finish, and writes the cells and the ending.
pub(crate) fn put_pipes_end<S: Sink>(
    world: &World,
    now: &mut Pipes<'_>,
    sink: &mut S,
) -> Result<(), WriteFault>
    requires ready { IsReady (net_of world.now) now.old.placed.now }
    requires piped { IsPiped (net_of world.now) now.old.placed.now world.now.scene.now.stop 0 (piped_of now.old) }
    ensures all { OnOk result (PutsAll S.written S.faults sink.old sink.new (last_text (net_of world.now) world.now.limits.now.stages)) }
    ensures part { OnErr result (PutsPart S.written S.faults sink.old sink.new (last_text (net_of world.now) world.now.limits.now.stages)) }
{
    let waiting = drain_ticks(world, now, sink)?;
    put_all_pipes(world, sink, now.pipes.as_slice())?;
    put_ending(sink, now.counts.entered, now.counts.lost, waiting)
}
