// Scratch lists of a run, kept from one run to the next, so that they are allocated once.
ghost use Rattle.std.specs.Prelude.{◌≡◌, []};

use crate::draft::Draft;
use crate::run::Write;
use lucid_base::{Bits, Items};
use std::alloc::Global;
use std::mem;

/// Scratch lists for the locals of a handler, for the cells that it writes and for its outs. A caller that runs many events keeps one.
/// Each run begins by clearing them.
#[derive(Drop)]
pub struct Scratch {
    pub(crate) locals: Items<Bits>,
    pub(crate) writes: Vec<Write>,
    pub(crate) outs: Vec<Draft>,
}

impl Scratch {
    /// Returns empty lists. Allocates nothing.
    pub fn new(alloc: Global) -> Scratch
        ensures locals { result.locals ≡ [] }
        ensures writes { result.writes.items ≡ [] }
        ensures outs { result.outs.items ≡ [] }
    {
        Scratch {
            locals: Items::new(alloc),
            writes: Vec::new(alloc),
            outs: Vec::new(alloc),
        }
    }

    /// Takes the list of locals, emptied, with its memory.
    pub(crate) fn take_locals(&mut self, alloc: Global) -> Items<Bits>
        ensures { result ≡ [] }
    {
        without_items(mem::replace(&mut self.locals, Items::new(alloc)))
    }

    /// Takes the list of writes, emptied, with its memory.
    pub(crate) fn take_writes(&mut self, alloc: Global) -> Vec<Write>
        ensures { result.items ≡ [] }
    {
        self.writes.clear();
        mem::replace(&mut self.writes, Vec::new(alloc))
    }

    /// Takes the list of outs, emptied, with its memory.
    pub(crate) fn take_outs(&mut self, alloc: Global) -> Vec<Draft>
        ensures { result.items ≡ [] }
    {
        self.outs.clear();
        mem::replace(&mut self.outs, Vec::new(alloc))
    }
}

/// Returns the list emptied, with its memory.
fn without_items(items: Items<Bits>) -> Items<Bits>
    ensures { result ≡ [] }
{
    let mut left = items;
    while let Some(_) = left.pop() {}
    left
}
