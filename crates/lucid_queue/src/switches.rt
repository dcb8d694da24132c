// The pending events of all switches: a list in which each switch finds its own by its number.
ghost use Rattle.std.specs.Prelude.{◌≡◌, ◌<◌, false, [], length, OnOk, OnErr};
ghost use Rattle.std.specs.List.{find, list_any, AllByRecursion};
ghost use Rattle.std.specs.List.Sorted.{IsStrictlySortedBy};
ghost use Rattle.lucid_queue.specs.Kept.{IsByKey, all_from};
ghost use Rattle.lucid_queue.specs.Order.{pending_cmp, is_before, has_place};
ghost use Rattle.lucid_queue.specs.Waiting.{put_in, without_first, is_ready};

use crate::pending::Pending;
use crate::turns::Turns;
use lucid_base::Memory;
use std::alloc::Global;
use std::marker::Model;

/// The pending events of all switches; each switch is the index of its turns.
#[derive(Drop)]
pub(crate) struct Switches {
    turns: Vec<Turns>,
    alloc: Global,
}

impl Model for Switches {
    ghost use Rattle.std.specs.Prelude.{List};
    ghost use Rattle.std.specs.List.{AllByRecursion};
    ghost use Rattle.lucid_queue.specs.declared.pending.Pending.{Pending};
    ghost use Rattle.lucid_queue.specs.Kept.{IsByKey, all_from};

    ghost Value = { List Pending };

    ghost view = { λ s. all_from 0 s.turns.items };

    ghost invariant = { λ s. AllByRecursion IsByKey s.turns.items };
}

impl Switches {
    /// Returns an empty queue. It takes no memory.
    pub(crate) fn new(alloc: Global) -> Switches
        ensures { result ≡ [] }
    {
        Switches {
            turns: Vec::new(alloc),
            alloc,
        }
    }

    /// Returns whether the switch and the key of `p` are those of an event that waits.
    pub(crate) fn has(&self, p: &Pending) -> bool
        ensures { result ≡ list_any (has_place p.now) self.now }
    {
        match self.turns.get(p.switch as usize) {
            Some(turns) => turns.has(&p.key),
            None => false,
        }
    }

    /// Adds an event whose switch and key no other has.
    pub(crate) fn push(&mut self, p: &Pending) -> Result<(), Memory>
        requires { list_any (has_place p.now) self.old ≡ false }
        ensures waits { OnOk result (self.new ≡ put_in is_before p.now self.old) }
        ensures unchanged { OnErr result (self.new ≡ self.old) }
        ensures in_order { IsStrictlySortedBy pending_cmp self.new }
    {
        let switch = p.switch as usize;
        reach(&mut self.turns, self.alloc, switch)?;
        self.turns[switch].push(p.key, p.event)
    }

    /// Removes and returns the first event of the switch, if it is ready at the tick.
    pub(crate) fn pop_ready(&mut self, switch: u32, tick: u64) -> Option<Pending>
        ensures first { result ≡ find (is_ready switch tick) self.old }
        ensures others { self.new ≡ without_first (is_ready switch tick) self.old }
        ensures in_order { IsStrictlySortedBy pending_cmp self.new }
    {
        self.turns.get_mut(switch as usize)?.pop_ready(switch, tick)
    }
}

/// Makes empty maps for all switches up to this one.
fn reach(turns: &mut Vec<Turns>, alloc: Global, switch: usize) -> Result<(), Memory>
    ensures reached { OnOk result (switch < length turns.new.items) }
    ensures unchanged { all_from 0 turns.new.items ≡ all_from 0 turns.old.items }
    ensures by_key { AllByRecursion IsByKey turns.old.items → AllByRecursion IsByKey turns.new.items }
{
    while turns.len() <= switch {
        turns.push(Turns::new(alloc))?;
    }
    Ok(())
}
