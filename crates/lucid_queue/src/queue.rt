// The queue of a network: pending events by switch and key, and their number.
ghost use Rattle.std.specs.Prelude.{◌≡◌, false, true, [], length, IfSome, IfErr, OnOk, OnErr};
ghost use Rattle.std.specs.List.{find, list_any, All};
ghost use Rattle.std.specs.List.Sorted.{IsStrictlySortedBy};
ghost use Rattle.std.specs.Ordering.{is_lt};
ghost use Rattle.lucid_queue.specs.Order.{key_cmp, pending_cmp, is_before, has_place};
ghost use Rattle.lucid_queue.specs.Waiting.{put_in, without_first, is_ready};

use crate::pending::Pending;
use crate::switches::Switches;
use lucid_base::Memory;
use std::alloc::Global;
use std::marker::Model;

/// The pending events of all switches. Contracts see them as a list in the order of switches and, at one switch, of keys.
#[derive(Drop)]
pub struct Queue {
    switches: Switches,
    count: usize,
}

impl Model for Queue {
    ghost use Rattle.std.specs.Prelude.{◌≡◌, List, length};
    ghost use Rattle.std.specs.List.Sorted.{IsStrictlySortedBy};
    ghost use Rattle.lucid_queue.specs.declared.pending.Pending.{Pending};
    ghost use Rattle.lucid_queue.specs.Order.{pending_cmp};

    ghost Value = { List Pending };

    ghost view = { λ q. q.switches };

    ghost invariant = { λ q. (q.count ≡ length q.switches) × IsStrictlySortedBy pending_cmp q.switches };
}

impl Queue {
    /// Returns an empty queue. It takes no memory.
    pub fn new(alloc: Global) -> Queue
        ensures { result ≡ [] }
    {
        Queue {
            switches: Switches::new(alloc),
            count: 0,
        }
    }

    /// Returns how many events wait, without walking through them.
    pub fn len(&self) -> usize
        ensures len { result ≡ length self.now }
        ensures in_order { IsStrictlySortedBy pending_cmp self.now }
    {
        self.count
    }

    /// Returns whether the switch and the key of `p` are those of an event that waits.
    pub fn has(&self, p: &Pending) -> bool
        ensures { result ≡ list_any (has_place p.now) self.now }
    {
        self.switches.has(p)
    }

    fn keep(&mut self, p: &Pending) -> Result<(), Memory>
        requires { list_any (has_place p.now) self.old ≡ false }
        ensures waits { OnOk result (self.new ≡ put_in is_before p.now self.old) }
        ensures unchanged { OnErr result (self.new ≡ self.old) }
    {
        let count = self.count.checked_add(1).ok_or(Memory)?;
        self.switches.push(p)?;
        self.count = count;
        Ok(())
    }

    /// Adds an event whose switch and key no other has. If memory runs out, the queue is unchanged and the event is returned.
    pub fn push(&mut self, p: Pending) -> Result<(), (Pending, Memory)>
        requires { list_any (has_place p) self.old ≡ false }
        ensures waits { OnOk result (self.new ≡ put_in is_before p self.old) }
        ensures handed_back { IfErr result (λ e. e.0 ≡ p) }
        ensures unchanged { OnErr result (self.new ≡ self.old) }
    {
        match self.keep(&p) {
            Ok(()) => Ok(()),
            Err(memory) => Err((p, memory)),
        }
    }

    /// Removes and returns the event with the least key of those that are ready at the switch and the tick. None exactly if none is ready.
    pub fn pop_ready(&mut self, switch: u32, tick: u64) -> Option<Pending>
        ensures first { result ≡ find (is_ready switch tick) self.old }
        ensures others { self.new ≡ without_first (is_ready switch tick) self.old }
        ensures least { IfSome result (λ p. All (λ q. is_ready switch tick q ≡ true → is_lt (key_cmp q.key p.key) ≡ false) self.old) }
        ensures in_order { IsStrictlySortedBy pending_cmp self.old }
    {
        let pending = self.switches.pop_ready(switch, tick)?;
        self.count -= 1;
        Some(pending)
    }
}
