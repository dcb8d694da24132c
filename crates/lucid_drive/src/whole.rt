// A whole drive: all steps, the packets in flight to their ends, and the ending.
ghost use Rattle.std.specs.Prelude.{◌≡◌, ◌≤◌, ◌∷◌, [], length, OnOk, OnErr};
ghost use Rattle.lucid_conf.specs.Kept.{IsScene};
ghost use Rattle.lucid_core.specs.Step.{after};
ghost use Rattle.lucid_io.specs.Puts.{PutsAll, PutsPart};
ghost use Rattle.lucid_normal_spec.specs.Stands.{StandsFor};
ghost use Rattle.lucid_pipe.specs.Pipe.{empty_pipe};
ghost use Rattle.lucid_drive.specs.Drive.{Progress, after_steps, drive_log, entries, flight_text};
ghost use Rattle.lucid_drive.specs.Sights.{ShowsSome, sight_at, sights, sights_to};
ghost use Rattle.lucid_pipe.specs.Sights.{ShowsAll};
ghost use Rattle.lucid_drive.specs.Standing.{IsAt, drive_of};
ghost use Rattle.lucid_drive.specs.State.{IsEmpty, StandsAfter, StandsAt, progress_at, text_to};

use crate::calls::{drive_end, drive_flush, drive_step};
use crate::{DriveState, law};
use lucid_conf::Scene;
use lucid_core::Core;
use lucid_io::{Sink, WriteFault};
use lucid_pipe::{Pipe, Watch};

/// Drives a pipe without packets, in which all cells are 0, and whose code represents the program and has its arrays: does all steps,
/// then moves the oldest packet until none is in flight. Writes the drive log, or a proper prefix of it if a write failed. After each
/// step the watch is shown the pipe, as switch 0 (`sights`); after an error it was shown the first of these sights. Allocates nothing.
pub fn drive<S: Sink, V: Watch>(
    pipe: &mut Pipe,
    core: &Core,
    scene: &Scene,
    sink: &mut S,
    watch: &mut V,
) -> Result<(), WriteFault>
    requires scene { IsScene core.now scene.now }
    requires stands_for { StandsFor pipe.old.placed.code core.now }
    requires arrays { pipe.old.placed.code.arrays ≡ core.now.arrays }
    requires fresh { pipe.old ≡ empty_pipe pipe.old.placed }
    ensures placed { pipe.new.placed ≡ pipe.old.placed }
    ensures all { OnOk result (PutsAll S.written S.faults sink.old sink.new (drive_log (drive_of core.now pipe.old scene.now))) }
    ensures part { OnErr result (PutsPart S.written S.faults sink.old sink.new (drive_log (drive_of core.now pipe.old scene.now))) }
    ensures sights { OnOk result (ShowsAll (V.seen watch.old) (V.seen watch.new) (sights (drive_of core.now pipe.old scene.now))) }
    ensures first_sights { OnErr result (ShowsSome (V.seen watch.old) (V.seen watch.new) (sights (drive_of core.now pipe.old scene.now))) }
    ensures empty { OnOk result (IsEmpty pipe.new) }
    ensures cells { OnOk result (pipe.new.cells ≡ after core.now (entries scene.now) (after_steps (drive_of core.now pipe.old scene.now)).entered) }
{
    let mut state = DriveState::new();
    let steps = scene.steps.len() as u64;
    drive_steps(pipe, core, scene, &mut state, steps, sink, watch)?;
    drive_rest(pipe, core, scene, &mut state, sink)?;
    drive_end(pipe, core, scene, &state, sink)
}

/// Does the first `count` steps and shows the watch the pipe after each, as switch 0. After an error the pipe is at no state, a proper
/// prefix of the text of these steps was written, and the watch was shown the first of their sights.
pub fn drive_steps<S: Sink, V: Watch>(
    pipe: &mut Pipe,
    core: &Core,
    scene: &Scene,
    state: &mut DriveState,
    count: u64,
    sink: &mut S,
    watch: &mut V,
) -> Result<(), WriteFault>
    requires at { StandsAfter core.now scene.now state.old 0 pipe.old }
    requires begins { state.old.done ≡ 0 }
    requires within { count ≤ length scene.now.steps }
    ensures placed { pipe.new.placed ≡ pipe.old.placed }
    ensures all { OnOk result (PutsAll S.written S.faults sink.old sink.new (text_to (drive_of core.now pipe.old scene.now) count)) }
    ensures part { OnErr result (PutsPart S.written S.faults sink.old sink.new (text_to (drive_of core.now pipe.old scene.now) count)) }
    ensures sights { OnOk result (ShowsAll (V.seen watch.old) (V.seen watch.new) (sights_to (drive_of core.now pipe.old scene.now) count)) }
    ensures first_sights { OnErr result (ShowsSome (V.seen watch.old) (V.seen watch.new) (sights_to (drive_of core.now pipe.old scene.now) count)) }
    ensures at { OnOk result (StandsAfter core.now scene.now state.new 0 pipe.new) }
    ensures done { OnOk result (state.new.done ≡ count) }
{
    for _step in 0..count {
        drive_step(pipe, core, scene, state, sink)?;
        show(pipe, core, scene, watch);
    }
    Ok(())
}

/// The watch is shown the pipe, as switch 0.
fn show<V: Watch>(pipe: &Pipe, core: &Core, scene: &Scene, watch: &mut V)
    ensures { (p : Progress) → IsAt core.now scene.now p pipe.now → ShowsAll (V.seen watch.old) (V.seen watch.new) (sight_at (drive_of core.now pipe.now scene.now) p ∷ []) }
{
    pipe.keeps_laws();
    law::cells_stay_fit(core);
    let _scene = scene;
    watch.see(0, pipe);
}

/// After all steps, moves the oldest packet until none is in flight, and writes the block of each as it leaves. After an error the pipe
/// is at no state, and a proper prefix of these blocks was written.
fn drive_rest<S: Sink>(
    pipe: &mut Pipe,
    core: &Core,
    scene: &Scene,
    state: &mut DriveState,
    sink: &mut S,
) -> Result<(), WriteFault>
    requires at { StandsAfter core.now scene.now state.old 0 pipe.old }
    requires all_done { state.old.done ≡ length scene.now.steps }
    ensures placed { pipe.new.placed ≡ pipe.old.placed }
    ensures all { OnOk result (PutsAll S.written S.faults sink.old sink.new (flight_text (drive_of core.now pipe.old scene.now) (after_steps (drive_of core.now pipe.old scene.now)))) }
    ensures part { OnErr result (PutsPart S.written S.faults sink.old sink.new (flight_text (drive_of core.now pipe.old scene.now) (after_steps (drive_of core.now pipe.old scene.now)))) }
    ensures empty { OnOk result (IsEmpty pipe.new) }
    ensures at { OnOk result (StandsAt core.now scene.now state.new pipe.new) }
    ensures done { OnOk result (state.new.done ≡ length scene.now.steps) }
    ensures entered { OnOk result (state.new.entered ≡ (after_steps (drive_of core.now pipe.old scene.now)).entered) }
{
    pipe.keeps_laws();
    'flush: while let Some(_slot) = drive_flush(pipe, core, scene, state, sink)? {}
    Ok(())
}
