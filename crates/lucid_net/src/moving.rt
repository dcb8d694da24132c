// All packets of a pipe move by one stage.
ghost use Rattle.std.specs.Prelude.{◌≡◌, ◌+◌, ◌-◌, ◌<◌, None, Some, length};
ghost use Rattle.std.specs.Option.{option_map};
ghost use Rattle.lucid_code.specs.Inputs.{IsInput};
ghost use Rattle.lucid_net_laws.specs.Rows.{rows_in, step_of};
ghost use Rattle.lucid_net_laws.specs.PipeStages.{run_of_packet};
ghost use Rattle.lucid_pipe.specs.Packets.{entering};
ghost use Rattle.lucid_pipe.specs.Pipe.{packet_at};
ghost use Rattle.lucid_pipe_laws.specs.Moves.{advance, entered_by, goes};
ghost use Rattle.lucid_net.specs.Leaving.{gone_run};
ghost use Rattle.lucid_net.specs.Rows.{IsOf};

use crate::law;
use lucid_base::Event;
use lucid_pipe::{Passed, Pipe};
use lucid_tables::Placed;

/// The pipe has the cells of its rows.
pub(crate) fn is_of(placed: &Placed, pipe: &Pipe<'_>)
    requires { pipe.now.placed ≡ placed.now }
    ensures { IsOf placed.now pipe.now }
{
    pipe.places_fall();
}

/// Returns how many stages there are.
fn stages(placed: &Placed, pipe: &Pipe<'_>) -> usize
    requires { pipe.now.placed ≡ placed.now }
    ensures value { result ≡ length (rows_in pipe.now) }
    ensures long { length pipe.now.slots ≡ length pipe.now.placed.stages }
{
    pipe.places_fall();
    placed.stages().len()
}

/// Moves the packet in slot `k`, if any, to slot `k + 1`; `gone` receives it if it leaves the pipe. The next slot is free.
fn move_at(placed: &Placed, pipe: &mut Pipe<'_>, k: usize, gone: &mut Option<Passed>)
    requires same { pipe.old.placed ≡ placed.now }
    requires free { packet_at pipe.old (k + 1) ≡ None }
    ensures placed { pipe.new.placed ≡ pipe.old.placed }
    ensures long { length pipe.new.slots ≡ length pipe.new.placed.stages }
    ensures moved { rows_in pipe.new ≡ (goes (step_of pipe.old.placed) k (rows_in pipe.old)).0 }
    ensures left { gone_run gone.new ≡ option_map run_of_packet (goes (step_of pipe.old.placed) k (rows_in pipe.old)).1 }
{
    law::moves_as_rows(placed);
    pipe.places_fall();
    match pipe.go_into(k, gone) {
        Ok(_) => {}
        Err(_) => *gone = None,
    }
}

/// Moves the packet in slot `k`, which isn't the last, if there is one. The next slot is free.
fn move_within(placed: &Placed, pipe: &mut Pipe<'_>, k: usize)
    requires same { pipe.old.placed ≡ placed.now }
    requires within { k + 1 < length pipe.old.slots }
    requires free { packet_at pipe.old (k + 1) ≡ None }
    ensures placed { pipe.new.placed ≡ pipe.old.placed }
    ensures long { length pipe.new.slots ≡ length pipe.new.placed.stages }
    ensures moved { rows_in pipe.new ≡ (goes (step_of pipe.old.placed) k (rows_in pipe.old)).0 }
{
    law::moves_as_rows(placed);
    pipe.places_fall();
    // Most slots are free in most networks, so that is asked without a call.
    if !pipe.slot(k) {
        return;
    }
    match pipe.go_within(k) {
        Ok(_) => {}
        Err(_) => {}
    }
}

/// Moves each packet by one stage, from the last to the first; `gone` receives the packet that leaves.
pub(crate) fn move_on(placed: &Placed, pipe: &mut Pipe<'_>, gone: &mut Option<Passed>)
    requires same { pipe.old.placed ≡ placed.now }
    requires some { 0 < length (rows_in pipe.old) }
    ensures placed { pipe.new.placed ≡ pipe.old.placed }
    ensures long { length pipe.new.slots ≡ length pipe.new.placed.stages }
    ensures moved { rows_in pipe.new ≡ (advance (step_of pipe.old.placed) None (rows_in pipe.old)).0 }
    ensures left { gone_run gone.new ≡ option_map run_of_packet (advance (step_of pipe.old.placed) None (rows_in pipe.old)).1 }
{
    let stages = stages(placed, pipe);
    move_at(placed, pipe, stages - 1, gone);
    for i in 1..stages {
        move_within(placed, pipe, stages - 1 - i);
    }
}

/// An event enters a pipe whose first slot is free.
pub(crate) fn enter_free(placed: &Placed, pipe: &mut Pipe<'_>, event: Event, tick: u64, switch: u32)
    requires same { pipe.old.placed ≡ placed.now }
    requires free { packet_at pipe.old 0 ≡ None }
    requires input { IsInput pipe.old.placed.code switch event }
    ensures placed { pipe.new.placed ≡ pipe.old.placed }
    ensures rows { rows_in pipe.new ≡ entered_by (Some (entering pipe.old.placed.code event tick switch)) (rows_in pipe.old) }
{
    law::moves_as_rows(placed);
    pipe.places_fall();
    match pipe.enter(event, tick, switch) {
        Ok(()) => {}
        Err(_) => {}
    }
}
