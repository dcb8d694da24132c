// The steps of a drive, as moves of its pipe. Each holds for any progress of the drive, and requires no more of the pipe.
ghost use Rattle.std.specs.Prelude.{◌≡◌, ◌+◌, ◌<◌, ◌^◌, None, length};
ghost use Rattle.lucid_conf.specs.Kept.{IsScene, IsStep};
ghost use Rattle.lucid_normal_spec.specs.Stands.{StandsFor};
ghost use Rattle.lucid_drive.specs.Changes.{Changes};
ghost use Rattle.lucid_drive.specs.Drive.{Progress, does, enters, goes, look_text, stays};
ghost use Rattle.lucid_drive.specs.Happened.{Did, happened_at, happened_within};
ghost use Rattle.lucid_drive.specs.Standing.{IsAt, drive_of};

use crate::happened::{Happened, told, told_entry};
use crate::law;
use lucid_conf::{FileEvent, Scene, Step};
use lucid_core::Core;
use lucid_pipe::{Pipe, Stuck};

/// The packet in slot `k` moves on, if it can.
pub(crate) fn go(pipe: &mut Pipe, core: &Core, scene: &Scene, k: usize) -> Happened
    ensures placed { pipe.new.placed ≡ pipe.old.placed }
    ensures changes { Changes pipe.old (happened_at result) pipe.new }
    ensures did { (p : Progress) → IsAt core.now scene.now p pipe.old → Did core.now scene.now p.entered (goes (drive_of core.now pipe.old scene.now) p k) result pipe.new }
{
    pipe.keeps_laws();
    law::cells_stay_fit(core);
    law::outs_fit(core);
    let moved = pipe.go(k);
    told(k, moved)
}

/// The packet in slot `k`, which isn't the last, moves on, if it can: then nothing leaves.
pub(crate) fn go_within(pipe: &mut Pipe, core: &Core, scene: &Scene, k: usize) -> Result<(), Stuck>
    requires { k + 1 < length pipe.old.slots }
    ensures placed { pipe.new.placed ≡ pipe.old.placed }
    ensures changes { Changes pipe.old (happened_at (happened_within k result)) pipe.new }
    ensures did { (p : Progress) → IsAt core.now scene.now p pipe.old → Did core.now scene.now p.entered (goes (drive_of core.now pipe.old scene.now) p k) (happened_within k result) pipe.new }
{
    pipe.keeps_laws();
    law::cells_stay_fit(core);
    law::outs_fit(core);
    pipe.go_within(k)
}

/// The next event of the file, of number `entered`, enters, if there is one and it can.
#[tactic(auto, using(crate::proofs::Steps::did_nothing))]
pub(crate) fn enter(pipe: &mut Pipe, core: &Core, scene: &Scene, entered: u64) -> Happened
    requires scene { IsScene core.now scene.now }
    requires stands_for { StandsFor pipe.old.placed.code core.now }
    ensures placed { pipe.new.placed ≡ pipe.old.placed }
    ensures changes { Changes pipe.old (happened_at result) pipe.new }
    ensures did { (p : Progress) → p.entered ≡ entered → IsAt core.now scene.now p pipe.old → Did core.now scene.now p.entered (enters (drive_of core.now pipe.old scene.now) p) result pipe.new }
{
    if entered < scene.events.len() as u64 {
        enter_at(pipe, core, scene, entered)
    } else {
        Happened::Nothing
    }
}

/// The event of this number enters, if it can.
fn enter_at(pipe: &mut Pipe, core: &Core, scene: &Scene, entered: u64) -> Happened
    requires scene { IsScene core.now scene.now }
    requires stands_for { StandsFor pipe.old.placed.code core.now }
    requires there { entered < length scene.now.events }
    ensures placed { pipe.new.placed ≡ pipe.old.placed }
    ensures changes { Changes pipe.old (happened_at result) pipe.new }
    ensures did { (p : Progress) → p.entered ≡ entered → IsAt core.now scene.now p pipe.old → Did core.now scene.now p.entered (enters (drive_of core.now pipe.old scene.now) p) result pipe.new }
{
    pipe.keeps_laws();
    let e = scene.events.as_slice()[entered as usize];
    in_range(&e);
    let came = pipe.enter(e.event, e.at, e.switch);
    told_entry(entered, came)
}

/// The cell of a declared array is shown.
pub(crate) fn look(pipe: &Pipe, core: &Core, scene: &Scene, array: u32, cell: u64) -> Happened
    requires there { array < length core.now.arrays }
    ensures still { happened_at result ≡ None }
    ensures did { (p : Progress) → IsAt core.now scene.now p pipe.now → Did core.now scene.now p.entered (stays (look_text (drive_of core.now pipe.now scene.now) p array cell) p) result pipe.now }
{
    pipe.keeps_laws();
    law::cells_stay_fit(core);
    let value = pipe.look(array, cell);
    Happened::Looked(array, cell, value)
}

/// The numbers of an event are below the bounds of their types. It does nothing.
fn in_range(e: &FileEvent)
    ensures id { e.now.event.id < 2 ^ 32 }
    ensures at { e.now.at < 2 ^ 64 }
    ensures me { e.now.switch < 2 ^ 32 }
{
    let _id = e.event.id;
    let _at = e.at;
    let _me = e.switch;
}

/// A step of the scenario.
pub(crate) fn step(
    pipe: &mut Pipe,
    core: &Core,
    scene: &Scene,
    entered: u64,
    step: Step,
) -> Happened
    requires scene { IsScene core.now scene.now }
    requires stands_for { StandsFor pipe.old.placed.code core.now }
    requires step { IsStep core.now step }
    ensures placed { pipe.new.placed ≡ pipe.old.placed }
    ensures changes { Changes pipe.old (happened_at result) pipe.new }
    ensures did { (p : Progress) → p.entered ≡ entered → IsAt core.now scene.now p pipe.old → Did core.now scene.now p.entered (does (drive_of core.now pipe.old scene.now) p step) result pipe.new }
{
    match step {
        Step::Enter => enter(pipe, core, scene, entered),
        Step::Go(k) => go(pipe, core, scene, k as usize),
        Step::Look { array, cell } => look(pipe, core, scene, array, cell),
    }
}
