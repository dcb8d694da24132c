// A network on pipelines, run to its end: the log is written as packets leave, and the watch is shown the pipes.
ghost use Rattle.std.specs.Prelude.{◌≡◌, Ok, Some, length};
ghost use Rattle.lucid_conf.specs.Kept.{IsScene};
ghost use Rattle.lucid_conf.specs.Reading.{IsBetween};
ghost use Rattle.lucid_net.specs.Sights.{sights_to};
ghost use Rattle.lucid_net.specs.Wanting.{StopsAt};
ghost use Rattle.lucid_net_spec.specs.Log.{log, whole};
ghost use Rattle.lucid_normal_spec.specs.Stands.{StandsFor};
ghost use Rattle.lucid_top_words.specs.Writing.{Performs};
ghost use Rattle.lucid_top_pipes.specs.Watching.{Shown};

use crate::causes::of_net;
use lucid_conf::{Limits, Scene};
use lucid_core::Core;
use lucid_io::Sink;
use lucid_net::Net;
use lucid_pipe::Watch;
use lucid_tables::Placed;
use lucid_top_words::Refusal;
use std::alloc::Global;

/// Writes the whole log, and shows all sights; or a part of both, if a write or memory failed. Memory is taken, while packets move, only
/// for events that wait, and the log of the ticks before is written in full by then.
pub fn run_on_pipes<W: Sink, V: Watch>(
    alloc: Global,
    core: &Core,
    placed: &Placed,
    scene: &Scene,
    limits: &Limits,
    out: &mut W,
    watch: &mut V,
) -> Result<(), Refusal>
    requires scene { IsScene core.now scene.now }
    requires limits { IsBetween 1 32 limits.now.stages }
    requires stands { StandsFor placed.now.code core.now }
    requires arrays { placed.now.code.arrays ≡ core.now.arrays }
    requires stages { length placed.now.stages ≡ limits.now.stages }
    ensures performs { let net = whole core.now scene.now limits.now in
        Performs (StopsAt net) (λ o. o ≡ Ok (log net)) W.written W.faults out.old out.new result }
    ensures shown { let net = whole core.now scene.now limits.now in
        Shown (λ o. o ≡ Ok (sights_to net (Some placed.now) scene.now.stop)) (V.seen watch.old) (V.seen watch.new) result }
{
    let net = Net::piped(alloc, core, placed, scene, limits)?;
    match net.run(out, watch) {
        Ok(()) => Ok(()),
        Err(error) => Err(of_net(error)),
    }
}
