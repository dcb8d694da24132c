// The scenario file. Each line of `read_scene` is a line of the table.
ghost use Rattle.std.specs.Prelude.{◌≡◌, ◌≤◌, ◌*◌, IfOk};
ghost use Rattle.serde_json.specs.View.{view};
ghost use Rattle.lucid_conf.specs.Answers.{Answers, Gives};
ghost use Rattle.lucid_conf.specs.Kept.{IsScene};
ghost use Rattle.lucid_conf.specs.Tables.{scene_read, switches_read, stop_read, cells as cells_in};

use crate::down::down;
use crate::events::events;
use crate::links::links;
use crate::reading::{bad, file, number, required, value_of};
use crate::steps::steps;
use crate::{ConfError, Key, Scene};
use lucid_core::Core;
use lucid_json::Value;
use std::alloc::Global;

const KEYS: [Key; 7] = [
    Key::Version,
    Key::Switches,
    Key::Stop,
    Key::Links,
    Key::Down,
    Key::Events,
    Key::Steps,
];

// The most cells of all switches together, and the most ticks.
const MOST_CELLS: u64 = 4_194_304;

const MOST_TICKS: u64 = 131_072;

/// Reads a scenario for this program. Returns Ok exactly if the bytes are JSON that `scene_read` reads, with its result; `NotJson`
/// exactly if they are no JSON; `BadField` exactly if `scene_read` refuses, with its key and place.
pub fn scene_of(alloc: Global, bytes: &[u8], core: &Core) -> Result<Scene, ConfError>
    ensures answers { Answers result (scene_read core.now) bytes.now }
    ensures keeps { IfOk result (IsScene core.now) }
{
    let mut value = value_of(alloc, bytes)?;
    let read = read_scene(alloc, &mut value, core);
    drop(value);
    read
}

/// The cells of all arrays. A core has at most 64 arrays, of sizes below 2^32.
fn cells(core: &Core) -> u64
    ensures value { result ≡ cells_in core.now.arrays }
    ensures few { result ≤ 64 * 4294967295 }
{
    let mut sum = 0u64;
    for array in core.arrays() {
        sum += array.size as u64;
    }
    sum
}

fn switches(value: &Value, core: &Core) -> Result<u32, ConfError>
    ensures { Gives result (switches_read core.now (view value.now)) }
{
    let switches = number(value, Key::Switches, 1, 64, 1)?;
    if cells(core) * switches > MOST_CELLS {
        return bad(Key::Switches);
    }
    Ok(switches as u32)
}

fn stop(value: &Value, switches: u32) -> Result<u64, ConfError>
    ensures { Gives result (stop_read switches (view value.now)) }
{
    let stop = required(value, Key::Stop)?;
    match stop.checked_mul(switches as u64) {
        Some(ticks) if ticks <= MOST_TICKS => Ok(stop),
        _ => bad(Key::Stop),
    }
}

// Moves the events and the steps out of the value.
fn read_scene(alloc: Global, value: &mut Value, core: &Core) -> Result<Scene, ConfError>
    ensures { Gives result (scene_read core.now (view value.old)) }
{
    file(value, &KEYS)?;
    let version = number(value, Key::Version, 1, 2, 1)?;
    let switches = switches(value, core)?;
    let stop = stop(value, switches)?;
    let links = links(alloc, value, switches)?;
    let down = down(alloc, value, version, links.as_slice())?;
    let events = events(alloc, value, core, switches)?;
    let steps = steps(alloc, value, core)?;
    Ok(Scene {
        switches,
        stop,
        links,
        down,
        events,
        steps,
    })
}
