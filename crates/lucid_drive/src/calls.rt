// The calls of a drive, one step at a time: the text that each writes, its effect on the pipe, and the state of the pipe after it. None
// allocates.
ghost use Rattle.std.specs.Prelude.{◌≡◌, ◌<◌, ◌+◌, ◌^◌, ◌↔◌, ℕ, None, Some, true, length, is_some, slice_get, if◌then◌else◌, nat_lt, IfOk, IfSome, OnOk, OnErr};
ghost use Rattle.std.specs.Result.{is_err};
ghost use Rattle.lucid_io.specs.Puts.{PutsAll, PutsPart};
ghost use Rattle.lucid_pipe.specs.Pipe.{packet_at};
ghost use Rattle.lucid_conf.specs.declared.scene.Step.TheVariants.{Go};
ghost use Rattle.lucid_core.specs.Step.{after};
ghost use Rattle.lucid_drive.specs.Changes.{Changes};
ghost use Rattle.lucid_drive.specs.Drive.{entries, last_text};
ghost use Rattle.lucid_drive.specs.Flush.{last_below};
ghost use Rattle.lucid_drive.specs.Happened.{entered_after, happened_at, happened_within};
ghost use Rattle.lucid_drive.specs.Standing.{drive_of};
ghost use Rattle.lucid_drive.specs.State.{IsEmpty, StandsAfter, StandsAt, flush_at, moves_after, step_at};

use crate::ending::put_end;
use crate::happened::Happened;
use crate::moves::{go, go_within, step};
use crate::put::{put_happened, put_moved, put_out};
use crate::{DriveState, law};
use lucid_conf::{Scene, Step};
use lucid_core::Core;
use lucid_io::{Sink, WriteFault};
use lucid_pipe::{Pipe, Stuck};

/// Does the next step and writes its text: its line, and the block of a packet that leaves. Returns Some(k) exactly if that step was a go
/// of slot `k` that moved a packet. After an error the pipe is at no state, and a proper prefix of the text was written.
pub fn drive_step<S: Sink>(
    pipe: &mut Pipe,
    core: &Core,
    scene: &Scene,
    state: &mut DriveState,
    sink: &mut S,
) -> Result<Option<usize>, WriteFault>
    requires at { StandsAfter core.now scene.now state.old 0 pipe.old }
    requires there { state.old.done < length scene.now.steps }
    ensures placed { pipe.new.placed ≡ pipe.old.placed }
    ensures all { OnOk result (PutsAll S.written S.faults sink.old sink.new (step_at (drive_of core.now pipe.old scene.now) state.old.done).text) }
    ensures part { OnErr result (PutsPart S.written S.faults sink.old sink.new (step_at (drive_of core.now pipe.old scene.now) state.old.done).text) }
    ensures moved { IfOk result (λ moved. moved ≡ (step_at (drive_of core.now pipe.old scene.now) state.old.done).stage) }
    ensures changes { IfOk result (λ moved. Changes pipe.old moved pipe.new) }
    ensures done { OnOk result (state.new.done ≡ state.old.done + 1) }
    ensures at { OnOk result (StandsAfter core.now scene.now state.new 0 pipe.new) }
    ensures failed { OnErr result (state.new ≡ record state.old { failed = true }) }
{
    let _events = scene.events.len();
    let _steps = scene.steps.len();
    let chosen = step_of(scene, state.done);
    match slot_within(pipe, chosen) {
        Some(k) => step_within(pipe, core, scene, state, sink, k),
        None => step_any(pipe, core, scene, state, sink, chosen),
    }
}

/// Returns the slot of a step that moves a packet from a slot that isn't the last.
fn slot_within(pipe: &Pipe, step: Step) -> Option<usize>
    ensures { IfSome result (λ k. (step ≡ Go k) × (k + 1 < length pipe.now.slots)) }
{
    match step {
        Step::Go(k) => {
            let k = k as usize;
            if k + 1 < pipe.stages() { Some(k) } else { None }
        }
        _ => None,
    }
}

/// Does this step, which is next and moves the packet in slot `k`, if it can. No packet can leave, so there is no room here for one that did:
/// nearly all steps of a drive are such.
fn step_within<S: Sink>(
    pipe: &mut Pipe,
    core: &Core,
    scene: &Scene,
    state: &mut DriveState,
    sink: &mut S,
    k: usize,
) -> Result<Option<usize>, WriteFault>
    requires at { StandsAfter core.now scene.now state.old 0 pipe.old }
    requires there { state.old.done < length scene.now.steps }
    requires this { slice_get scene.now.steps state.old.done ≡ Some (Go k) }
    requires within { k + 1 < length pipe.old.slots }
    ensures placed { pipe.new.placed ≡ pipe.old.placed }
    ensures all { OnOk result (PutsAll S.written S.faults sink.old sink.new (step_at (drive_of core.now pipe.old scene.now) state.old.done).text) }
    ensures part { OnErr result (PutsPart S.written S.faults sink.old sink.new (step_at (drive_of core.now pipe.old scene.now) state.old.done).text) }
    ensures moved { IfOk result (λ moved. moved ≡ (step_at (drive_of core.now pipe.old scene.now) state.old.done).stage) }
    ensures changes { IfOk result (λ moved. Changes pipe.old moved pipe.new) }
    ensures done { OnOk result (state.new.done ≡ state.old.done + 1) }
    ensures at { OnOk result (StandsAfter core.now scene.now state.new 0 pipe.new) }
    ensures failed { OnErr result (state.new ≡ record state.old { failed = true }) }
{
    let _events = scene.events.len();
    let _steps = scene.steps.len();
    let moved = go_within(pipe, core, scene, k);
    match put_moved(sink, core, k, moved) {
        Ok(()) => {
            state.done += 1;
            Ok(moved_slot(k, moved))
        }
        Err(fault) => {
            state.failed = true;
            Err(fault)
        }
    }
}

/// Returns the slot, if its packet moved.
fn moved_slot(k: usize, moved: Result<(), Stuck>) -> Option<usize>
    ensures { result ≡ happened_at (happened_within k moved) }
{
    match moved {
        Ok(()) => Some(k),
        Err(_) => None,
    }
}

/// Does this step, which is the next one, of any kind.
#[inline(never)]
fn step_any<S: Sink>(
    pipe: &mut Pipe,
    core: &Core,
    scene: &Scene,
    state: &mut DriveState,
    sink: &mut S,
    chosen: Step,
) -> Result<Option<usize>, WriteFault>
    requires at { StandsAfter core.now scene.now state.old 0 pipe.old }
    requires there { state.old.done < length scene.now.steps }
    requires this { slice_get scene.now.steps state.old.done ≡ Some chosen }
    ensures placed { pipe.new.placed ≡ pipe.old.placed }
    ensures all { OnOk result (PutsAll S.written S.faults sink.old sink.new (step_at (drive_of core.now pipe.old scene.now) state.old.done).text) }
    ensures part { OnErr result (PutsPart S.written S.faults sink.old sink.new (step_at (drive_of core.now pipe.old scene.now) state.old.done).text) }
    ensures moved { IfOk result (λ moved. moved ≡ (step_at (drive_of core.now pipe.old scene.now) state.old.done).stage) }
    ensures changes { IfOk result (λ moved. Changes pipe.old moved pipe.new) }
    ensures done { OnOk result (state.new.done ≡ state.old.done + 1) }
    ensures at { OnOk result (StandsAfter core.now scene.now state.new 0 pipe.new) }
    ensures failed { OnErr result (state.new ≡ record state.old { failed = true }) }
{
    let _events = scene.events.len();
    let _steps = scene.steps.len();
    let happened = step(pipe, core, scene, state.entered, chosen);
    match put_happened(sink, core, &happened) {
        Ok(()) => {
            state.done += 1;
            state.entered = entered_by(state.entered, &happened);
            Ok(slot_of(&happened))
        }
        Err(fault) => {
            state.failed = true;
            Err(fault)
        }
    }
}

/// Returns the step of this number.
fn step_of(scene: &Scene, number: u64) -> Step
    requires { number < length scene.now.steps }
    ensures { slice_get scene.now.steps number ≡ Some result }
{
    scene.steps.as_slice()[number as usize]
}

/// Returns how many events entered, once this happened.
fn entered_by(entered: u64, happened: &Happened) -> u64
    requires { entered_after entered happened.now < 2 ^ 64 }
    ensures { result ≡ entered_after entered happened.now }
{
    match happened {
        Happened::Entered(_) => entered + 1,
        _ => entered,
    }
}

/// Returns the slot whose packet moved.
fn slot_of(happened: &Happened) -> Option<usize>
    ensures { result ≡ happened_at happened.now }
{
    match happened {
        Happened::Went(k) => Some(*k),
        Happened::Left(k, _) => Some(*k),
        _ => None,
    }
}

/// Moves the oldest packet by one stage `k`, writes its block if it leaves, and returns Some(k); None exactly if the pipe is empty. After
/// an error the pipe is at no state, and a proper prefix of the block was written.
pub fn drive_flush<S: Sink>(
    pipe: &mut Pipe,
    core: &Core,
    scene: &Scene,
    state: &mut DriveState,
    sink: &mut S,
) -> Result<Option<usize>, WriteFault>
    requires at { StandsAt core.now scene.now state.old pipe.old }
    requires all_done { state.old.done ≡ length scene.now.steps }
    ensures placed { pipe.new.placed ≡ pipe.old.placed }
    ensures all { (moves : ℕ) → StandsAfter core.now scene.now state.old moves pipe.old
        → OnOk result (PutsAll S.written S.faults sink.old sink.new (flush_at (drive_of core.now pipe.old scene.now) state.old.done moves).text) }
    ensures part { (moves : ℕ) → StandsAfter core.now scene.now state.old moves pipe.old
        → OnErr result (PutsPart S.written S.faults sink.old sink.new (flush_at (drive_of core.now pipe.old scene.now) state.old.done moves).text) }
    ensures moved { (moves : ℕ) → StandsAfter core.now scene.now state.old moves pipe.old
        → IfOk result (λ moved. moved ≡ (flush_at (drive_of core.now pipe.old scene.now) state.old.done moves).stage) }
    ensures empty { IfOk result (λ moved. (moved ≡ None) ↔ IsEmpty pipe.old) }
    ensures changes { IfOk result (λ moved. Changes pipe.old moved pipe.new) }
    ensures still { IfOk result (λ moved. moved ≡ None → pipe.new ≡ pipe.old) }
    ensures done { state.new.done ≡ state.old.done }
    ensures at { (moves : ℕ) → StandsAfter core.now scene.now state.old moves pipe.old
        → IfOk result (λ moved. StandsAfter core.now scene.now state.new (moves_after moved moves) pipe.new) }
    ensures failed { OnErr result (state.new ≡ record state.old { failed = true }) }
{
    match oldest(pipe) {
        None => Ok(None),
        Some(k) => {
            let happened = go(pipe, core, scene, k);
            match put_out(sink, core, &happened) {
                Ok(()) => {
                    state.flushed = one_more(state.flushed);
                    Ok(Some(k))
                }
                Err(fault) => {
                    state.failed = true;
                    Err(fault)
                }
            }
        }
    }
}

/// Returns the last slot that is taken.
fn oldest(pipe: &Pipe) -> Option<usize>
    ensures { result ≡ last_below (λ k. is_some (packet_at pipe.now k)) (length pipe.now.slots) }
{
    let mut k = pipe.stages();
    'search: while k > 0 {
        k -= 1;
        if pipe.slot(k) {
            return Some(k);
        }
    }
    None
}

/// Returns a count, one more, which stops at the greatest number.
fn one_more(n: u64) -> u64
    ensures { result ≡ (if nat_lt (n + 1) (2 ^ 64) then n + 1 else n) }
{
    if n < u64::MAX { n + 1 } else { n }
}

/// Writes the cells that aren't 0 and the ending, once all steps are done and no packet is in the pipe.
pub fn drive_end<S: Sink>(
    pipe: &Pipe,
    core: &Core,
    scene: &Scene,
    state: &DriveState,
    sink: &mut S,
) -> Result<(), WriteFault>
    requires at { StandsAt core.now scene.now state.now pipe.now }
    requires all_done { state.now.done ≡ length scene.now.steps }
    requires empty { IsEmpty pipe.now }
    ensures cells { pipe.now.cells ≡ after core.now (entries scene.now) state.now.entered }
    ensures all { OnOk result (PutsAll S.written S.faults sink.old sink.new (last_text (drive_of core.now pipe.now scene.now) state.now.entered)) }
    ensures part { OnErr result (PutsPart S.written S.faults sink.old sink.new (last_text (drive_of core.now pipe.now scene.now) state.now.entered)) }
{
    pipe.keeps_laws();
    law::cells_stay_fit(core);
    let events = scene.events.len() as u64;
    put_end(sink, core, pipe, state.entered, events - state.entered)
}
