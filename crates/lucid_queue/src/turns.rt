// The pending events of one switch: a map of events by their keys, of which the first is the next to enter.
ghost use Rattle.std.specs.Prelude.{◌≡◌, false, [], OnOk, OnErr};
ghost use Rattle.std.specs.BTreeMap.{insert_entry};
ghost use Rattle.std.specs.List.{list_any};
ghost use Rattle.std.specs.Option.{option_map};
ghost use Rattle.lucid_queue.specs.Order.{key_cmp};
ghost use Rattle.lucid_queue.specs.Kept.{IsByKey, has_key, pending_at, front, behind_front};

use crate::pending::{PendKey, Pending};
use lucid_base::{Event, Memory};
use slab::Slab;
use std::alloc::Global;
use std::collections::BTreeMap;
use std::marker::Model;

/// The pending events of one switch. Contracts see them as the list of keys and events in the order of keys. The map has the slot of each
/// key's event, and the events are in one block of memory, of which a slot that gets free is used again.
#[derive(Drop)]
pub(crate) struct Turns {
    slots: BTreeMap<PendKey, usize>,
    events: Slab<Event>,
}

impl Model for Turns {
    ghost use Rattle.std.specs.Prelude.{List};
    ghost use Rattle.lucid_base.specs.declared.event.Event.{Event};
    ghost use Rattle.lucid_queue.specs.declared.pending.PendKey.{PendKey};
    ghost use Rattle.lucid_queue.specs.Turns.{AreKept, with_events};

    ghost Value = { List (PendKey × Event) };

    ghost view = { λ t. with_events t.events t.slots.entries };

    ghost invariant = { λ t. AreKept t.events t.slots.entries };
}

impl Turns {
    /// Returns an empty map. It takes no memory.
    pub(crate) fn new(alloc: Global) -> Turns
        ensures { result ≡ [] }
    {
        Turns {
            slots: BTreeMap::new(alloc),
            events: Slab::new(alloc),
        }
    }

    /// Returns whether an event with this key waits.
    pub(crate) fn has(&self, key: &PendKey) -> bool
        ensures { result ≡ list_any (has_key key.now) self.now }
    {
        self.slots.contains_key(key)
    }

    /// Adds an event whose key no other has.
    pub(crate) fn push(&mut self, key: PendKey, event: Event) -> Result<(), Memory>
        requires { list_any (has_key key) self.old ≡ false }
        ensures waits { OnOk result (self.new ≡ insert_entry key_cmp self.old key event) }
        ensures unchanged { OnErr result (self.new ≡ self.old) }
        ensures by_key { IsByKey self.old → IsByKey self.new }
    {
        self.events.reserve(1)?;
        let slot = self.events.vacant_key();
        self.slots.insert(key, slot)?;
        self.events.insert_reserved(event);
        Ok(())
    }

    /// Removes and returns the first event, if it is ready at the tick. It waited at this switch.
    pub(crate) fn pop_ready(&mut self, switch: u32, tick: u64) -> Option<Pending>
        ensures first { result ≡ option_map (pending_at switch) (front tick self.old) }
        ensures others { self.new ≡ behind_front tick self.old }
    {
        let (key, _) = self.slots.first_key_value()?;
        if key.ready > tick {
            return None;
        }
        let (key, slot) = self.slots.pop_first()?;
        let event = self.events.remove(slot);
        Some(Pending { key, switch, event })
    }
}
