// The events of a scenario.
ghost use Rattle.std.specs.Prelude.{◌≡◌, []};
ghost use Rattle.serde_json.specs.Find.{get as get_of};
ghost use Rattle.serde_json.specs.View.{view, items_view, members_view};
ghost use Rattle.lucid_conf.specs.declared.key.Key.TheVariants as key;
ghost use Rattle.lucid_conf.specs.Answers.{Gives};
ghost use Rattle.lucid_conf.specs.Items.{is_event_key as is_key, are_event_keys as are_keys, event as event_read};
ghost use Rattle.lucid_conf.specs.Keys.{name_of};
ghost use Rattle.lucid_conf.specs.Named.{NumbersLast, event_names};
ghost use Rattle.lucid_conf.specs.Reading.{each, list};

use crate::items::{args_of, number_of, text_of};
use crate::names::{Names, events_by_name, number_named};
use crate::reading::{bad_at, take_items};
use crate::{ConfError, FileEvent, Key};
use lucid_base::{Event, Items};
use lucid_core::Core;
use lucid_json::{Map, Value, get, members_in};
use std::alloc::Global;

fn is_event_key(key: &str) -> bool
    ensures { result ≡ is_key key.now }
{
    matches!(key, "at" | "switch" | "name" | "args")
}

fn are_event_keys(members: &Map<String, Value>) -> bool
    ensures { result ≡ are_keys (members_view members.now.entries) }
{
    for (key, _) in members.iter() {
        if !is_event_key(key.as_str()) {
            return false;
        }
    }
    true
}

fn event(core: &Core, names: &Names, switches: u32, item: &Value) -> Option<FileEvent>
    requires { NumbersLast names.now (event_names core.now.events) }
    ensures { result ≡ event_read core.now switches [] (view item.now) }
{
    if !are_event_keys(members_in(item)?) {
        return None;
    }
    match (
        number_of(item, "at"),
        number_of(item, "switch"),
        text_of(item, "name"),
        get(item, "args"),
    ) {
        (Some(at), Some(switch), Some(name), Some(args)) if switch < switches as u64 => {
            let id = number_named(names, name)?;
            let args = args_of(args)?;
            let event = Event { id, args };
            if !core.fits(&event) {
                return None;
            }
            Some(FileEvent {
                at,
                switch: switch as u32,
                event,
            })
        }
        _ => None,
    }
}

/// The events that the file has, which are moved out of its value. The steps stay.
pub(crate) fn events(
    alloc: Global,
    value: &mut Value,
    core: &Core,
    switches: u32,
) -> Result<Items<FileEvent>, ConfError>
    ensures value { Gives result (list (view value.old) key.Events (event_read core.now switches)) }
    ensures steps { get_of (name_of key.Steps) (view value.new) ≡ get_of (name_of key.Steps) (view value.old) }
{
    let values = take_items(alloc, value, Key::Events)?;
    let names = events_by_name(alloc, core.events())?;
    each_event(alloc, core, &names, switches, values)
}

// Drops the value of each event as soon as the event is read.
fn each_event(
    alloc: Global,
    core: &Core,
    names: &Names,
    switches: u32,
    values: Vec<Value>,
) -> Result<Items<FileEvent>, ConfError>
    requires { NumbersLast names.now (event_names core.now.events) }
    ensures { Gives result (each key.Events (event_read core.now switches) [] (items_view values.items)) }
{
    let mut events = Items::new(alloc);
    for value in values {
        let read = event(core, names, switches, &value);
        drop(value);
        match read {
            None => return bad_at(Key::Events, events.len()),
            Some(event) => events.push(event)?,
        }
    }
    Ok(events)
}
