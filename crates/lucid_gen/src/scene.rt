// The scenario of a seed, event by event.
ghost use Rattle.std.specs.Prelude.{◌≡◌, ◌++◌, ◌<◌, IfOk, OnOk, string_bytes};
ghost use Rattle.lucid_gen.specs.Draws.{Writes};
ghost use Rattle.lucid_gen.specs.Scene as spec;

use crate::choices::{Entry, draw_entry};
use crate::numbers::Numbers;
use lucid_base::Memory;
use std::alloc::Global;

/// The text of the scenario of this seed with `n` events, at least one (`scene_text`), or Memory.
pub fn make_scene(alloc: Global, seed: u64, n: u32) -> Result<Vec<u8>, Memory>
    requires { 0 < n }
    ensures { IfOk result (λ text. text.items ≡ spec.scene_text seed n) }
{
    let mut numbers = Numbers::new(seed);
    let mut text = String::new(alloc);
    write!(
        text,
        "{{\"switches\":4,\"stop\":1000,\"links\":[[0,1,1],[2,3,2]],\"events\":["
    )?;
    write_items(&mut text, &mut numbers, n)?;
    writeln!(text, "]}}")?;
    Ok(text.into_bytes())
}

fn write_items(text: &mut String, numbers: &mut Numbers, n: u32) -> Result<(), Memory>
    requires { 0 < n }
    ensures { OnOk result (Writes (spec.items n) numbers.old.state (string_bytes text.old) numbers.new.state (string_bytes text.new)) }
{
    write_entry(text, draw_entry(numbers))?;
    for _at in 1..n {
        write!(text, ",")?;
        write_entry(text, draw_entry(numbers))?;
    }
    Ok(())
}

fn write_entry(text: &mut String, entry: Entry) -> Result<(), Memory>
    ensures { OnOk result (string_bytes text.new ≡ string_bytes text.old ++ spec.entry_text entry) }
{
    let Entry {
        at,
        switch,
        event,
        index,
        value,
    } = entry;
    write!(
        text,
        "{{\"at\":{at},\"switch\":{switch},\"name\":\"e{event}\",\"args\":[{index},{value}]}}"
    )?;
    Ok(())
}
