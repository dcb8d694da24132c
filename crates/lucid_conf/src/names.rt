// A program's events and arrays by name: the map of a name gives the number of the last that is declared with it.
ghost use Rattle.std.specs.Prelude.{◌≡◌, ℕ, List, OnOk, IfOk, Some, if◌then◌else◌};
ghost use Rattle.std.specs.Str.{bytes_eq};
ghost use Rattle.std.specs.HashMap.{get_by_text};
ghost use Rattle.lucid_conf.specs.Named.{event_names, array_names, NumbersLast};
ghost use Rattle.lucid_seed.specs.Started.{seeded_by};

use indexmap::IndexMap;
use lucid_base::{ArrayDef, Id, Memory};
use lucid_core::EventDef;
use lucid_seed::{Seed, Seeded};
use std::alloc::Global;

/// Seeded by the names that it has, so that names which collide in it can't be chosen beforehand.
pub(crate) type Names = IndexMap<String, u32, Seeded>;

// Makes the hashers of a table of these events, seeded by their names.
fn seeded_by_events(events: &[EventDef]) -> Seeded
    ensures { result.start ≡ seeded_by (event_names events.now) }
{
    let mut seed = Seed::new();
    for event in events {
        seed.add(event.name.bytes());
    }
    seed.hashers()
}

// Makes the hashers of a table of these arrays, seeded by their names.
fn seeded_by_arrays(arrays: &[ArrayDef]) -> Seeded
    ensures { result.start ≡ seeded_by (array_names arrays.now) }
{
    let mut seed = Seed::new();
    for array in arrays {
        seed.add(array.name.bytes());
    }
    seed.hashers()
}

fn put(alloc: Global, names: &mut Names, id: &Id, number: usize) -> Result<(), Memory>
    ensures { OnOk result ((n : List ℕ) → get_by_text names.new n ≡ (if bytes_eq n id.now then Some number else get_by_text names.old n)) }
{
    match u32::try_from(number) {
        Ok(number) => {
            let name = String::from_str(alloc, id.as_str())?;
            names.insert(name, number)?;
            Ok(())
        }
        // No memory holds this many declarations.
        Err(_) => Err(Memory),
    }
}

/// The events by name.
pub(crate) fn events_by_name(alloc: Global, events: &[EventDef]) -> Result<Names, Memory>
    ensures { IfOk result (λ names. NumbersLast names (event_names events.now)) }
{
    let mut names = IndexMap::with_hasher(alloc, seeded_by_events(events));
    for i in 0..events.len() {
        put(alloc, &mut names, &events[i].name, i)?;
    }
    Ok(names)
}

/// The arrays by name.
pub(crate) fn arrays_by_name(alloc: Global, arrays: &[ArrayDef]) -> Result<Names, Memory>
    ensures { IfOk result (λ names. NumbersLast names (array_names arrays.now)) }
{
    let mut names = IndexMap::with_hasher(alloc, seeded_by_arrays(arrays));
    for i in 0..arrays.len() {
        put(alloc, &mut names, &arrays[i].name, i)?;
    }
    Ok(names)
}

/// The number of the last that is declared with this name.
pub(crate) fn number_named(names: &Names, name: &str) -> Option<u32>
    ensures { result ≡ get_by_text names.now name.now }
{
    match names.get(name) {
        None => None,
        Some(number) => Some(*number),
    }
}
