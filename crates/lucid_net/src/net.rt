// A network of switches, run tick by tick or all at once.
ghost use Rattle.std.specs.Prelude.{length, ◌≡◌, ◌≢◌, ◌+◌, ◌-◌, ◌<◌, ◌++◌, false, IfOk, IfSome, None, Some, Err, OnErr, OnOk, is_some};
ghost use Rattle.std.specs.Result.{is_err};
ghost use Rattle.lucid_conf.specs.Kept.{IsScene};
ghost use Rattle.lucid_conf.specs.Reading.{IsBetween};
ghost use Rattle.lucid_net_laws.specs.Runs.{entering, late_text};
ghost use Rattle.lucid_net_spec.specs.Log.{log, ticks};
ghost use Rattle.lucid_net_spec.specs.Pieces.{pieces};
ghost use Rattle.lucid_normal_spec.specs.Stands.{StandsFor};
ghost use Rattle.lucid_pipe.specs.Sights.{ShowsAll, sight_of};
ghost use Rattle.lucid_net.specs.Holds.{Holds};
ghost use Rattle.lucid_net.specs.Numbered.{PipeIs, WithinPipes};
ghost use Rattle.lucid_net.specs.Rows.{PipeStands};
ghost use Rattle.lucid_net.specs.Seen.{AreSame, IsStart, lag, last_text, network};
ghost use Rattle.lucid_net.specs.Sights.{ShowsRun, in_last, sight_at, sights};
ghost use Rattle.lucid_net.specs.Stands.{placed_of};
ghost use Rattle.lucid_net.specs.Wanting.{SomeMade, Stopped};
ghost use Rattle.lucid_net.specs.Writes.{Writes};
ghost use Rattle.lucid_net.specs.declared.error.NetError.TheVariants.{Memory as memory_error};

use crate::leaving::Counts;
use crate::links::Links;
use crate::machines::{Machines, packets, put_last, show, tick_all};
use crate::pipes::Pipes;
use crate::starting::{all_cells, all_events, all_pipes};
use crate::switches::Switches;
use crate::windows::Windows;
use crate::world::World;
use crate::{NetError, law};
use lucid_base::Memory;
use lucid_conf::{Limits, Scene};
use lucid_core::Core;
use lucid_core_run::Scratch;
use lucid_io::Sink;
use lucid_net_laws::pass_does_as;
use lucid_pipe::{Pipe, Watch};
use lucid_tables::Placed;
use std::alloc::Global;
use std::marker::Model;

/// A network of switches: each runs handlers whole, or each has a pipe. Contracts see its world, the placed code of its pipes, the number
/// of ticks done, and whether one failed (`Seen`): until then its switches are those of the definition (`Stands`).
#[derive(Drop)]
pub struct Net<'a> {
    world: World<'a>,
    machines: Machines<'a>,
    at: u64,
    failed: bool,
}

impl<'a> Model for Net<'a> {
    ghost use Rattle.lucid_core.specs.contracts.body.Stmt as stmt;
    ghost use Rattle.std.specs.Coded.{codes};
    ghost use Rattle.lucid_net.specs.Seen.{Seen, seen};
    ghost use Rattle.lucid_net.specs.Stands.{Stands};

    ghost Value = { Seen };

    ghost coded = { Prim.hlevel (codes, stmt.the_row.coded) };

    ghost view = { λ n. seen n.world n.machines n.at n.failed };

    ghost invariant = { λ n. Stands n.world n.machines n.at n.failed };
}

impl<'a> Net<'a> {
    /// Makes the network before tick 0 (`IsStart`): all cells are 0, and the events of the scenario are queued. Memory is its one error;
    /// it is also returned for more events than 32 bits can number.
    pub fn whole(
        alloc: Global,
        core: &'a Core,
        scene: &'a Scene,
        limits: &'a Limits,
    ) -> Result<Net<'a>, Memory>
        requires { IsScene core.now scene.now }
        ensures { IfOk result (IsStart core.now scene.now limits.now None) }
    {
        let links = Links::new(alloc, scene)?;
        let windows = Windows::new(alloc, scene)?;
        let cells = all_cells(alloc, core, scene.switches)?;
        let queue = all_events(alloc, core, scene.switches, scene.events.as_slice())?;
        Ok(Net {
            world: World {
                alloc,
                core,
                scene,
                limits,
                links,
                windows,
            },
            machines: Machines::Whole(Switches {
                cells,
                queue,
                entered: 0,
                lost: 0,
                scratch: Scratch::new(alloc),
            }),
            at: 0,
            failed: false,
        })
    }

    /// Makes the network before tick 0 (`IsStart`) with a pipe of this placed code for each switch, with no packet and all cells 0. The
    /// code represents the program, has its arrays, and is placed in as many stages as the limits have. Memory is its one error; it is
    /// also returned for more events of the scenario, or of the program, than 32 bits can number.
    pub fn piped(
        alloc: Global,
        core: &'a Core,
        placed: &'a Placed,
        scene: &'a Scene,
        limits: &'a Limits,
    ) -> Result<Net<'a>, Memory>
        requires scene { IsScene core.now scene.now }
        requires limits { IsBetween 1 32 limits.now.stages }
        requires stands { StandsFor placed.now.code core.now }
        requires arrays { placed.now.code.arrays ≡ core.now.arrays }
        requires stages { length placed.now.stages ≡ limits.now.stages }
        ensures { IfOk result (IsStart core.now scene.now limits.now (Some placed.now)) }
    {
        if scene.events.as_slice().len() > u32::MAX as usize {
            return Err(Memory);
        }
        if core.events().len() > u32::MAX as usize {
            return Err(Memory);
        }
        law::outs_fit(core);
        pass_does_as(core, placed);
        let links = Links::new(alloc, scene)?;
        let windows = Windows::new(alloc, scene)?;
        let pipes = all_pipes(alloc, placed, scene.switches)?;
        let queue = all_events(alloc, core, scene.switches, scene.events.as_slice())?;
        Ok(Net {
            world: World {
                alloc,
                core,
                scene,
                limits,
                links,
                windows,
            },
            machines: Machines::Piped(Pipes {
                placed,
                pipes,
                queue,
                counts: Counts {
                    entered: 0,
                    lost: 0,
                },
            }),
            at: 0,
            failed: false,
        })
    }

    /// Returns how many ticks are done.
    pub fn at(&self) -> u64
        ensures { result ≡ self.now.at }
    {
        self.at
    }

    /// Returns whether a tick failed.
    pub fn failed(&self) -> bool
        ensures { result ≡ self.now.failed }
    {
        self.failed
    }

    fn stop(&self) -> u64
        ensures { result ≡ self.now.scene.stop }
    {
        self.world.scene.stop
    }

    /// Returns the pipe of a switch; None exactly if handlers run whole. Until a tick fails it is the pipe in which all events that entered
    /// this switch in the network of whole handlers moved once a tick (`PipeStands`). So the events of the last ticks are in flight, each
    /// packet in its slot. The cells are those of the network of whole handlers, at the tick that a stage has reached (`Holds`). `sight_at`
    /// describes it without stages and code. Of a network that failed only `whole` is said.
    pub fn pipe(&self, switch: u32) -> Option<&Pipe<'a>>
        requires { switch < self.now.scene.switches }
        ensures mode { self.now.failed ≡ false → is_some result ≡ is_some self.now.placed }
        ensures whole { self.now.placed ≡ None → is_some result ≡ false }
        ensures stands { self.now.failed ≡ false → IfSome result (λ p. IfSome self.now.placed (λ placed. PipeStands (network self.now) placed switch self.now.at p.now)) }
        ensures holds { self.now.failed ≡ false → IfSome result (λ p. IfSome self.now.placed (λ placed. Holds (network self.now) placed self.now.at switch p.now)) }
        ensures sight { self.now.failed ≡ false → IfSome result (λ p. IfSome self.now.placed (λ placed. sight_of switch p.now ≡ sight_at (network self.now) placed self.now.at switch)) }
    {
        pipe_of(&self.machines, switch)
    }

    /// Returns how many packets are in flight at a switch, 0 if handlers run whole. Until a tick fails, they are the events that entered in
    /// the last ticks, of which there are as many as stages.
    pub fn packets(&self, switch: u32) -> usize
        requires { switch < self.now.scene.switches }
        ensures count { self.now.failed ≡ false → result ≡ in_last (entering (network self.now) switch) self.now.at (lag self.now) }
        ensures whole { self.now.placed ≡ None → result ≡ 0 }
    {
        packets(&self.machines, switch)
    }

    /// The watch is shown the pipe of each switch in order.
    fn show<V: Watch>(&self, watch: &mut V)
        requires { self.now.failed ≡ false }
        ensures shows { ShowsAll (V.seen watch.old) (V.seen watch.new) (sights (network self.now) self.now.placed self.now.at) }
        ensures still { self.now.placed ≡ None → watch.new ≡ watch.old }
    {
        show(&self.machines, watch);
    }

    /// Does one tick, the turn of each switch in order. Writes the text that the definition writes some ticks earlier (`late_text`): as
    /// many ticks as there are stages, none if handlers run whole. After an error a part of that was written, a proper one if a write
    /// failed, the network has failed, and no tick was counted. A network with pipes runs out of memory only if a packet that left sent
    /// an event to queue (`SomeMade`).
    pub fn tick<S: Sink>(&mut self, sink: &mut S) -> Result<(), NetError>
        requires before { self.old.at < self.old.scene.stop }
        requires sound { self.old.failed ≡ false }
        ensures same { AreSame self.old self.new }
        ensures failed { self.new.failed ≡ is_err result }
        ensures at { OnOk result (self.new.at ≡ self.old.at + 1) }
        ensures stays { OnErr result (self.new.at ≡ self.old.at) }
        ensures writes { Writes S.written S.faults sink.old sink.new (late_text (network self.old) (lag self.old) self.old.at) result }
        ensures so_far { (ticks (network self.old) (self.old.at + 1 - lag self.old)).text ≡ (ticks (network self.old) (self.old.at - lag self.old)).text ++ late_text (network self.old) (lag self.old) self.old.at }
        ensures memory { self.old.placed ≢ None → result ≡ Err memory_error → SomeMade (network self.old) self.old.at }
    {
        match tick_all(&self.world, &mut self.machines, sink, self.at) {
            Ok(()) => {
                self.at += 1;
                Ok(())
            }
            Err(error) => {
                self.failed = true;
                Err(error)
            }
        }
    }

    /// Ends the network once all ticks are done. Packets in flight finish and are written. Then come the cells that aren't 0, and how many
    /// events entered, were lost, and never entered (`last_text`). It takes no memory.
    pub fn drain<S: Sink>(self, sink: &mut S) -> Result<(), NetError>
        requires done { self.at ≡ self.scene.stop }
        requires sound { self.failed ≡ false }
        ensures writes { Writes S.written S.faults sink.old sink.new (last_text (network self.entry) (lag self.entry)) result }
        ensures memory { result ≢ Err memory_error }
    {
        let mut net = self;
        let ended = net.end(sink);
        drop(net);
        ended
    }

    /// Ends a network that is not used again.
    fn end<S: Sink>(&mut self, sink: &mut S) -> Result<(), NetError>
        requires done { self.old.at ≡ self.old.scene.stop }
        requires sound { self.old.failed ≡ false }
        ensures writes { Writes S.written S.faults sink.old sink.new (last_text (network self.old) (lag self.old)) result }
        ensures memory { result ≢ Err memory_error }
    {
        self.failed = true;
        match put_last(&self.world, &mut self.machines, sink) {
            Ok(()) => Ok(()),
            Err(_) => Err(NetError::WriteFault),
        }
    }

    /// Does all ticks and the end. Writes the whole log (`log`), which is the same in both modes, or a part of it, a proper one if a write
    /// failed. After each tick the watch is shown the pipe of each switch in order (`ShowsRun`), and nothing if handlers run whole. A
    /// network with pipes runs out of memory only at a tick at which an event has to wait. Then the log of the ticks before it is written
    /// in full, and a part of what the tick writes (`Stopped`).
    pub fn run<S: Sink, V: Watch>(self, sink: &mut S, watch: &mut V) -> Result<(), NetError>
        requires begins { self.at ≡ 0 }
        requires sound { self.failed ≡ false }
        ensures log { Writes S.written S.faults sink.old sink.new (log (network self.entry)) result }
        ensures sights { ShowsRun (network self.entry) self.entry.placed (V.seen watch.old) (V.seen watch.new) result }
        ensures still { self.entry.placed ≡ None → watch.new ≡ watch.old }
        ensures memory { self.entry.placed ≢ None → result ≡ Err memory_error → Stopped S.written S.faults sink.old sink.new (network self.entry) }
    {
        let mut net = self;
        match all_ticks(&mut net, sink, watch) {
            Ok(()) => net.drain(sink),
            Err(error) => {
                drop(net);
                Err(error)
            }
        }
    }
}

/// Returns the pipe of a switch, if there are pipes.
fn pipe_of<'a, 'm>(machines: &'m Machines<'a>, switch: u32) -> Option<&'m Pipe<'a>>
    ensures mode { WithinPipes machines.now switch → is_some result ≡ is_some (placed_of machines.now) }
    ensures whole { placed_of machines.now ≡ None → is_some result ≡ false }
    ensures pipe { IfSome result (λ p. PipeIs machines.now switch p.now) }
{
    match machines {
        Machines::Whole(_) => None,
        Machines::Piped(pipes) => {
            let at = switch as usize;
            if at < pipes.pipes.len() {
                Some(&pipes.pipes[at])
            } else {
                None
            }
        }
    }
}

/// Does all ticks.
fn all_ticks<S: Sink, V: Watch>(
    net: &mut Net<'_>,
    sink: &mut S,
    watch: &mut V,
) -> Result<(), NetError>
    requires begins { net.old.at ≡ 0 }
    requires sound { net.old.failed ≡ false }
    ensures same { AreSame net.old net.new }
    ensures sound { OnOk result (net.new.failed ≡ false) }
    ensures at { OnOk result (net.new.at ≡ net.old.scene.stop) }
    ensures writes { Writes S.written S.faults sink.old sink.new (pieces (late_text (network net.old) (lag net.old)) 0 net.old.scene.stop) result }
    ensures sights { ShowsRun (network net.old) net.old.placed (V.seen watch.old) (V.seen watch.new) result }
    ensures still { net.old.placed ≡ None → watch.new ≡ watch.old }
    ensures memory { net.old.placed ≢ None → result ≡ Err memory_error → Stopped S.written S.faults sink.old sink.new (network net.old) }
{
    let stop = net.stop();
    for _tick in 0..stop {
        match net.tick(sink) {
            Ok(()) => net.show(watch),
            Err(error) => return Err(error),
        }
    }
    Ok(())
}
