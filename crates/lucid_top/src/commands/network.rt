// A network on pipelines that are ready, run to its end.
ghost use Rattle.std.specs.Prelude.{◌≡◌, Ok};
ghost use Rattle.lucid_net.specs.Wanting.{StopsAt};
ghost use Rattle.lucid_net_spec.specs.Log.{log};
ghost use Rattle.lucid_top_pipes.specs.Watching.{Shown};
ghost use Rattle.lucid_top_words.specs.Writing.{Performs};
ghost use Rattle.lucid_top.specs.Held.{ReadyKeeps, ready_view};
ghost use Rattle.lucid_top.specs.Pipes.{network_of, sights_of};

use crate::commands::setup::Ready;
use lucid_io::Sink;
use lucid_pipe::Watch;
use lucid_top_pipes::run_on_pipes;
use lucid_top_words::Refusal;
use std::alloc::Global;

/// Writes the whole log, and shows all sights; or a part of both, if a write or memory failed. Memory is taken, while packets move, only
/// for events that wait, and the log of the ticks before is written in full by then.
pub fn run_network<W: Sink, V: Watch>(
    alloc: Global,
    ready: Ready,
    out: &mut W,
    watch: &mut V,
) -> Result<(), Refusal>
    requires { ReadyKeeps ready }
    ensures performs { let r = ready_view ready in
        Performs (StopsAt (network_of r)) (λ o. o ≡ Ok (log (network_of r))) W.written W.faults out.old out.new result }
    ensures shown { Shown (λ o. o ≡ Ok (sights_of (ready_view ready))) (V.seen watch.old) (V.seen watch.new) result }
{
    let target = &ready.pipes.target;
    let placed = &ready.pipes.fitted.placed;
    let ended = run_on_pipes(
        alloc,
        &target.core,
        placed,
        &ready.scene,
        &target.limits,
        out,
        watch,
    );
    drop(ready);
    ended
}
