// The steps of a scenario on one pipeline. The output is the log of handlers that run whole; the watch is shown the pipe after each step.
ghost use Rattle.std.specs.Prelude.{◌≡◌, Ok};
ghost use Rattle.lucid_conf.specs.Kept.{IsScene};
ghost use Rattle.lucid_drive.specs.Drive.{drive_log};
ghost use Rattle.lucid_drive.specs.Sights.{sights};
ghost use Rattle.lucid_drive.specs.Standing.{drive_of};
ghost use Rattle.lucid_normal_spec.specs.Stands.{StandsFor};
ghost use Rattle.lucid_pipe.specs.Pipe.{empty_pipe};
ghost use Rattle.lucid_top_words.specs.Writing.{Performs, nowhere};
ghost use Rattle.lucid_top_pipes.specs.Watching.{Shown};

use lucid_conf::Scene;
use lucid_core::Core;
use lucid_drive::drive;
use lucid_io::Sink;
use lucid_pipe::{Pipe, Watch};
use lucid_tables::Placed;
use lucid_top_words::Refusal;
use std::alloc::Global;

/// Does the steps, and takes no memory once the pipe is there.
pub fn drive_on_pipe<W: Sink, V: Watch>(
    alloc: Global,
    core: &Core,
    placed: &Placed,
    scene: &Scene,
    out: &mut W,
    watch: &mut V,
) -> Result<(), Refusal>
    requires scene { IsScene core.now scene.now }
    requires stands { StandsFor placed.now.code core.now }
    requires arrays { placed.now.code.arrays ≡ core.now.arrays }
    ensures performs { let d = drive_of core.now (empty_pipe placed.now) scene.now in
        Performs nowhere (λ o. o ≡ Ok (drive_log d)) W.written W.faults out.old out.new result }
    ensures shown { let d = drive_of core.now (empty_pipe placed.now) scene.now in
        Shown (λ o. o ≡ Ok (sights d)) (V.seen watch.old) (V.seen watch.new) result }
{
    let mut pipe = Pipe::new(alloc, placed)?;
    drive(&mut pipe, core, scene, out, watch)?;
    Ok(())
}
