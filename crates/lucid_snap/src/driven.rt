// A drive in which a snapshot is taken while packets are in flight.
ghost use Rattle.std.specs.Prelude.{◌≡◌, ◌<◌, ◌+◌, ◌++◌, ℕ, List, codes, drop, length, min, IfOk, OnOk, OnErr};
ghost use Rattle.lucid_conf.specs.Kept.{IsScene};
ghost use Rattle.lucid_core.specs.Step.{after};
ghost use Rattle.lucid_io.specs.Puts.{PutsAll, PutsPart};
ghost use Rattle.lucid_log.specs.Cells.{cells_text};
ghost use Rattle.lucid_normal_spec.specs.Stands.{StandsFor};
ghost use Rattle.lucid_pipe.specs.Packets.{Packet};
ghost use Rattle.lucid_pipe.specs.Pipe.{PipeParts, empty_pipe};
ghost use Rattle.lucid_drive.specs.Changes.{Moved};
ghost use Rattle.lucid_drive.specs.Drive.{after_steps, entries, flight_text, line, text_from};
ghost use Rattle.lucid_drive.specs.Standing.{drive_of};
ghost use Rattle.lucid_drive.specs.State.{IsEmpty, StandsAfter, StandsAt, progress_at, step_at};
ghost use Rattle.lucid_snap.specs.Log.{log_after, snap_log};
ghost use Rattle.lucid_snap.specs.Snap.{Follows, FollowsSome, KeepsFollowing};
ghost use Rattle.lucid_snap.specs.Writes.{Writes};

use crate::{Snap, SnapError, law};
use lucid_base::Memory;
use lucid_conf::Scene;
use lucid_core::Core;
use lucid_drive::{DriveState, drive_end, drive_flush, drive_step, drive_steps};
use lucid_io::{Sink, WriteFault};
use lucid_log::{ArrayCells, Piece, put_cells, put_pieces};
use lucid_pipe::{NoWatch, Pipe};
use lucid_tables::Placed;
use std::alloc::Global;

/// Drives a pipe as `drive` does, begins a snapshot after the first `after` steps, or after all if there are fewer, and writes the drive
/// log and then the snapshot (`snap_log`): how many events had entered, and the cells that aren't 0 after these. A proper prefix is written
/// if a write failed, and a prefix if memory for the snapshot was refused; the rest takes none.
pub fn snap<S: Sink>(
    alloc: Global,
    pipe: &mut Pipe,
    placed: &Placed,
    core: &Core,
    scene: &Scene,
    after: u64,
    sink: &mut S,
) -> Result<(), SnapError>
    requires scene { IsScene core.now scene.now }
    requires stands_for { StandsFor pipe.old.placed.code core.now }
    requires arrays { pipe.old.placed.code.arrays ≡ core.now.arrays }
    requires fresh { pipe.old ≡ empty_pipe pipe.old.placed }
    requires placed { pipe.old.placed ≡ placed.now }
    ensures { Writes S.written S.faults sink.old sink.new (snap_log (drive_of core.now pipe.old scene.now) after) result }
{
    let mut state = DriveState::new();
    let count = first_steps(scene, after);
    drive_steps(pipe, core, scene, &mut state, count, sink, &mut NoWatch)?;
    let entered = state.entered();
    let mut snap = begin(alloc, pipe, placed, core, scene, &state)?;
    follow(pipe, core, scene, &mut state, &mut snap, sink)?;
    put_snap(sink, core, &snap, entered)?;
    Ok(())
}

/// Returns `after` steps, or all if there are fewer.
fn first_steps(scene: &Scene, after: u64) -> u64
    ensures { result ≡ min after (length scene.now.steps) }
{
    after.min(scene.steps.len() as u64)
}

/// Begins a snapshot of a pipe at a state: of the cells after all events that had entered.
fn begin(
    alloc: Global,
    pipe: &Pipe,
    placed: &Placed,
    core: &Core,
    scene: &Scene,
    state: &DriveState,
) -> Result<Snap, Memory>
    requires placed { pipe.now.placed ≡ placed.now }
    requires at { StandsAfter core.now scene.now state.now 0 pipe.now }
    ensures { IfOk result (λ snap. Follows snap pipe.now (after core.now (entries scene.now) state.now.entered)) }
{
    pipe.keeps_laws();
    law::cells_stay_fit(core);
    let _scene = scene;
    let _state = state;
    Snap::begin(alloc, pipe, placed)
}

/// The rest of a drive, whose pipe the snapshot follows: the steps that are left, the packets in flight to their ends, and the ending.
fn follow<S: Sink>(
    pipe: &mut Pipe,
    core: &Core,
    scene: &Scene,
    state: &mut DriveState,
    snap: &mut Snap,
    sink: &mut S,
) -> Result<(), WriteFault>
    requires at { StandsAfter core.now scene.now state.old 0 pipe.old }
    requires follows { FollowsSome snap.old pipe.old }
    ensures all { OnOk result (PutsAll S.written S.faults sink.old sink.new (log_after (drive_of core.now pipe.old scene.now) state.old.done)) }
    ensures part { OnErr result (PutsPart S.written S.faults sink.old sink.new (log_after (drive_of core.now pipe.old scene.now) state.old.done)) }
    ensures copies { OnOk result ((cells : List (List ℕ)) → Follows snap.old pipe.old cells → snap.new.copies ≡ cells) }
{
    follow_steps(pipe, core, scene, state, snap, sink)?;
    follow_rest(pipe, core, scene, state, snap, sink)?;
    drive_end(pipe, core, scene, state, sink)
}

/// Returns the steps that are left.
fn follow_steps<S: Sink>(
    pipe: &mut Pipe,
    core: &Core,
    scene: &Scene,
    state: &mut DriveState,
    snap: &mut Snap,
    sink: &mut S,
) -> Result<(), WriteFault>
    requires at { StandsAfter core.now scene.now state.old 0 pipe.old }
    requires follows { FollowsSome snap.old pipe.old }
    ensures placed { pipe.new.placed ≡ pipe.old.placed }
    ensures all { OnOk result (PutsAll S.written S.faults sink.old sink.new (text_from (drive_of core.now pipe.old scene.now) (progress_at (drive_of core.now pipe.old scene.now) state.old.done 0) (drop state.old.done scene.now.steps))) }
    ensures part { OnErr result (PutsPart S.written S.faults sink.old sink.new (text_from (drive_of core.now pipe.old scene.now) (progress_at (drive_of core.now pipe.old scene.now) state.old.done 0) (drop state.old.done scene.now.steps))) }
    ensures at { OnOk result (StandsAfter core.now scene.now state.new 0 pipe.new) }
    ensures done { OnOk result (state.new.done ≡ length scene.now.steps) }
    ensures follows { OnOk result (KeepsFollowing snap.old pipe.old snap.new pipe.new) }
{
    for _step in state.done()..scene.steps.len() as u64 {
        follow_step(pipe, core, scene, state, snap, sink)?;
    }
    Ok(())
}

/// One step.
fn follow_step<S: Sink>(
    pipe: &mut Pipe,
    core: &Core,
    scene: &Scene,
    state: &mut DriveState,
    snap: &mut Snap,
    sink: &mut S,
) -> Result<(), WriteFault>
    requires at { StandsAfter core.now scene.now state.old 0 pipe.old }
    requires there { state.old.done < length scene.now.steps }
    requires follows { FollowsSome snap.old pipe.old }
    ensures placed { pipe.new.placed ≡ pipe.old.placed }
    ensures all { OnOk result (PutsAll S.written S.faults sink.old sink.new (step_at (drive_of core.now pipe.old scene.now) state.old.done).text) }
    ensures part { OnErr result (PutsPart S.written S.faults sink.old sink.new (step_at (drive_of core.now pipe.old scene.now) state.old.done).text) }
    ensures at { OnOk result (StandsAfter core.now scene.now state.new 0 pipe.new) }
    ensures done { OnOk result (state.new.done ≡ state.old.done + 1) }
    ensures follows { OnOk result (KeepsFollowing snap.old pipe.old snap.new pipe.new) }
{
    match drive_step(pipe, core, scene, state, sink)? {
        None => Ok(()),
        Some(k) => {
            pass(snap, pipe, k);
            Ok(())
        }
    }
}

/// Returns the packets in flight.
fn follow_rest<S: Sink>(
    pipe: &mut Pipe,
    core: &Core,
    scene: &Scene,
    state: &mut DriveState,
    snap: &mut Snap,
    sink: &mut S,
) -> Result<(), WriteFault>
    requires at { StandsAfter core.now scene.now state.old 0 pipe.old }
    requires all_done { state.old.done ≡ length scene.now.steps }
    requires follows { FollowsSome snap.old pipe.old }
    ensures placed { pipe.new.placed ≡ pipe.old.placed }
    ensures all { OnOk result (PutsAll S.written S.faults sink.old sink.new (flight_text (drive_of core.now pipe.old scene.now) (after_steps (drive_of core.now pipe.old scene.now)))) }
    ensures part { OnErr result (PutsPart S.written S.faults sink.old sink.new (flight_text (drive_of core.now pipe.old scene.now) (after_steps (drive_of core.now pipe.old scene.now)))) }
    ensures empty { OnOk result (IsEmpty pipe.new) }
    ensures at { OnOk result (StandsAt core.now scene.now state.new pipe.new) }
    ensures done { OnOk result (state.new.done ≡ length scene.now.steps) }
    ensures entered { OnOk result (state.new.entered ≡ (after_steps (drive_of core.now pipe.old scene.now)).entered) }
    ensures follows { OnOk result (KeepsFollowing snap.old pipe.old snap.new pipe.new) }
{
    pipe.keeps_laws();
    'flush: while let Some(k) = drive_flush(pipe, core, scene, state, sink)? {
        pass(snap, pipe, k);
    }
    Ok(())
}

/// A packet of a pipe that the snapshot follows passed stage `k`.
fn pass(snap: &mut Snap, pipe: &Pipe, k: usize)
    requires { (before : PipeParts) × (p : Packet) × (Moved before k p pipe.now) × FollowsSome snap.old before }
    ensures { (before : PipeParts) (p : Packet) → Moved before k p pipe.now → KeepsFollowing snap.old before snap.new pipe.now }
{
    pipe.keeps_laws();
    snap.passed(pipe, k);
}

/// The cells of a snapshot.
#[derive(Clone, Copy)]
struct SnapCells<'s> {
    snap: &'s Snap,
}

impl<'s> ArrayCells for SnapCells<'s> {
    ghost held = { λ c. c.snap.now.copies };

    fn value(&self, array: u32, cell: u64) -> u64 {
        self.snap.get(array, cell)
    }
}

/// Writes how many events had entered, and the cells of the snapshot that aren't 0.
fn put_snap<S: Sink>(sink: &mut S, core: &Core, snap: &Snap, entered: u64) -> Result<(), WriteFault>
    ensures all { OnOk result (PutsAll S.written S.faults sink.old sink.new (line (codes "snap after ") entered ++ cells_text 0 core.now.arrays snap.now.copies)) }
    ensures part { OnErr result (PutsPart S.written S.faults sink.old sink.new (line (codes "snap after ") entered ++ cells_text 0 core.now.arrays snap.now.copies)) }
{
    put_pieces(
        sink,
        &[
            Piece::Text(b"snap after "),
            Piece::Number(entered),
            Piece::Text(b"\n"),
        ],
    )?;
    put_cells(sink, 0, core.arrays(), &SnapCells { snap })
}
