// The switches of a network, in either mode.
ghost use Rattle.std.specs.Prelude.{◌≡◌, ◌≢◌, ◌+◌, ◌<◌, ◌≤◌, None, Err, OnErr, OnOk, length};
ghost use Rattle.lucid_conf.specs.Kept.{IsScene};
ghost use Rattle.lucid_io.specs.Puts.{PutsAll, PutsPart};
ghost use Rattle.lucid_net_laws.specs.Runs.{late_text};
ghost use Rattle.lucid_net.specs.Numbered.{FewPipes, Packets, WithinPipes};
ghost use Rattle.lucid_net.specs.Seen.{lag_by, last_text};
ghost use Rattle.lucid_net.specs.Sent.{net_of};
ghost use Rattle.lucid_net.specs.Sights.{shown, shown_from};
ghost use Rattle.lucid_pipe.specs.Sights.{ShowsAll};
ghost use Rattle.lucid_net.specs.Stands.{IsAt, placed_of};
ghost use Rattle.lucid_net.specs.Wanting.{SomeMade};
ghost use Rattle.lucid_net.specs.Writes.{Writes};
ghost use Rattle.lucid_net.specs.declared.error.NetError.TheVariants.{Memory};

use crate::NetError;
use crate::ending::{put_end, put_pipes_end};
use crate::pipes::{Pipes, all_turns as all_pipe_turns};
use crate::switches::Switches;
use crate::turns::all_turns;
use crate::world::World;
use lucid_io::{Sink, WriteFault};
use lucid_pipe::{Pipe, Watch};

/// Switches that run handlers whole, or that have pipes.
#[derive(Drop)]
pub(crate) enum Machines<'a> {
    Whole(Switches),
    Piped(Pipes<'a>),
}

/// Does the turns of all switches at a tick.
pub(crate) fn tick_all<S: Sink>(
    world: &World,
    now: &mut Machines<'_>,
    sink: &mut S,
    tick: u64,
) -> Result<(), NetError>
    requires scene { IsScene world.now.core.now world.now.scene.now }
    requires is { IsAt (net_of world.now) tick now.old }
    requires before { tick < world.now.scene.now.stop }
    ensures same { placed_of now.new ≡ placed_of now.old }
    ensures is { OnOk result (IsAt (net_of world.now) (tick + 1) now.new) }
    ensures writes { Writes S.written S.faults sink.old sink.new (late_text (net_of world.now) (lag_by world.now.limits.now (placed_of now.old)) tick) result }
    ensures memory { placed_of now.old ≢ None → result ≡ Err Memory → SomeMade (net_of world.now) tick }
{
    match now {
        Machines::Whole(switches) => all_turns(world, switches, sink, tick),
        Machines::Piped(pipes) => all_pipe_turns(world, pipes, sink, tick),
    }
}

/// Lets packets in flight finish, and writes the cells and the ending.
pub(crate) fn put_last<S: Sink>(
    world: &World,
    now: &mut Machines<'_>,
    sink: &mut S,
) -> Result<(), WriteFault>
    requires scene { IsScene world.now.core.now world.now.scene.now }
    requires is { IsAt (net_of world.now) world.now.scene.now.stop now.old }
    ensures all { OnOk result (PutsAll S.written S.faults sink.old sink.new (last_text (net_of world.now) (lag_by world.now.limits.now (placed_of now.old)))) }
    ensures part { OnErr result (PutsPart S.written S.faults sink.old sink.new (last_text (net_of world.now) (lag_by world.now.limits.now (placed_of now.old)))) }
{
    match now {
        Machines::Whole(switches) => put_end(world, switches, sink),
        Machines::Piped(pipes) => put_pipes_end(world, pipes, sink),
    }
}

/// Shows the watch the pipe of each switch in order, and nothing if handlers run whole.
pub(crate) fn show<V: Watch>(now: &Machines<'_>, watch: &mut V)
    requires { FewPipes now.now }
    ensures shows { ShowsAll (V.seen watch.old) (V.seen watch.new) (shown now.now) }
    ensures still { placed_of now.now ≡ None → watch.new ≡ watch.old }
{
    match now {
        Machines::Whole(_) => {}
        Machines::Piped(pipes) => show_pipes(pipes.pipes.as_slice(), watch),
    }
}

fn show_pipes<V: Watch>(pipes: &[Pipe<'_>], watch: &mut V)
    requires { length pipes.now ≤ 64 }
    ensures { ShowsAll (V.seen watch.old) (V.seen watch.new) (shown_from 0 pipes.now) }
{
    for (switch, pipe) in pipes.iter().enumerate() {
        watch.see(switch as u32, pipe);
    }
}

/// Returns how many packets are in the pipe of a switch; none if handlers run whole.
pub(crate) fn packets(now: &Machines<'_>, switch: u32) -> usize
    ensures is { WithinPipes now.now switch → Packets now.now switch result }
    ensures whole { placed_of now.now ≡ None → result ≡ 0 }
{
    match now {
        Machines::Whole(_) => 0,
        Machines::Piped(pipes) => {
            let at = switch as usize;
            if at < pipes.pipes.len() {
                pipes.pipes[at].packets()
            } else {
                0
            }
        }
    }
}
