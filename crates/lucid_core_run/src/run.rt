// The state of a running body, with an undo log of the cells that it wrote.
// Only this file writes cells during a run. It records the old value before each write, so that a run that runs out of memory can be undone.
ghost use Rattle.std.specs.Prelude.{◌≡◌, ◌≤◌, ◌++◌, [], ◌∷◌, All, IfOk, OnOk, OnErr, length, slice_index_or, slice_set};
ghost use Rattle.lucid_base.specs.Cells.{cell_at, with_cell};
ghost use Rattle.lucid_core.specs.Fits.{carried};
ghost use Rattle.lucid_core_run.specs.Running.{Running, out_of, rewound, with_state};
ghost use Rattle.lucid_core.specs.Values.{memop as memop_of, nothing as no_value};

use crate::draft::Draft;
use crate::operate::nothing;
use crate::scratch::Scratch;
use lucid_base::{Bits, Cells, Items, MemAlu, Memory, Outs};
use std::alloc::Global;
use std::marker::Model;
use std::mem;

/// The value of a cell before a write.
#[derive(Clone, Copy)]
pub struct Write {
    array: u32,
    cell: u64,
    old: u64,
}

/// The locals and the answer of a caller, kept while the callee runs.
#[derive(Drop)]
pub struct Caller {
    locals: Items<Bits>,
    answer: Bits,
}

/// A run in progress. Contracts see the state so far and the cells that the run began with.
#[derive(Drop)]
pub struct Run {
    cells: Cells,
    writes: Vec<Write>,
    outs: Vec<Draft>,
    locals: Items<Bits>,
    answer: Bits,
}

impl Model for Run {
    ghost use Rattle.std.specs.Prelude.{map};
    ghost use Rattle.lucid_core_run.specs.Running.{Running, out_of, rewound};

    ghost Value = { Running };

    ghost view = { λ r. record { state = record { cells = r.cells; outs = map out_of r.outs.items; locals = r.locals; answer = r.answer }; start = rewound r.writes.items r.cells } };
}

impl Run {
    /// Begins a run with no outs and no answer. The lists of writes and of outs are empty; they may have capacity.
    pub fn begin(cells: Cells, locals: Items<Bits>, writes: Vec<Write>, outs: Vec<Draft>) -> Run
        requires writes { writes.items ≡ [] }
        requires outs { outs.items ≡ [] }
        ensures state { result.state ≡ record { cells = cells; outs = []; locals = locals; answer = no_value } }
        ensures start { result.start ≡ cells }
    {
        Run {
            cells,
            writes,
            outs,
            locals,
            answer: nothing(),
        }
    }

    /// Stores the cells as they are now, and keeps the lists for the next run.
    pub fn finish(self, cells: &mut Cells, scratch: &mut Scratch)
        ensures { cells.new ≡ self.state.cells }
    {
        let Run {
            cells: after,
            writes,
            outs,
            locals,
            answer: _,
        } = self;
        let lists = Scratch {
            locals,
            writes,
            outs,
        };
        drop(mem::replace(cells, after));
        drop(mem::replace(scratch, lists));
    }

    /// Copies the outs to the caller's empty `outs`. In a valid core they are at most 8, of at most 8 numbers each.
    pub fn collect(&self, outs: &mut Outs)
        requires empty { outs.old ≡ [] }
        requires few { length self.now.state.outs ≤ 8 }
        requires small { All (λ out. length (carried out) ≤ 8) self.now.state.outs }
        ensures { outs.new ≡ self.now.state.outs }
    {
        for draft in self.outs.as_slice() {
            outs.push(draft.out());
        }
    }

    /// Stores the cells that the run began with.
    pub fn undo(self, cells: &mut Cells)
        ensures { cells.new ≡ self.start }
    {
        let Run {
            cells: written,
            writes,
            outs,
            locals,
            answer: _,
        } = self;
        drop(outs);
        drop(locals);
        drop(mem::replace(cells, rewind(written, writes)));
    }

    pub fn local(&self, i: u32) -> Bits
        ensures { result ≡ slice_index_or self.now.state.locals i no_value }
    {
        match self.locals.as_slice().get(i as usize) {
            None => nothing(),
            Some(value) => *value,
        }
    }

    pub fn assign(&mut self, i: u32, value: Bits)
        ensures { self.new ≡ with_state self.old (record self.old.state { locals = slice_set self.old.state.locals i value }) }
    {
        if (i as usize) < self.locals.len() {
            self.locals.set(i as usize, value);
        }
    }

    pub fn set_answer(&mut self, value: Bits)
        ensures { self.new ≡ with_state self.old (record self.old.state { answer = value }) }
    {
        self.answer = value;
    }

    pub fn send(&mut self, draft: Draft) -> Result<(), Memory>
        ensures sent { OnOk result (self.new ≡ with_state self.old (record self.old.state { outs = self.old.state.outs ++ out_of draft ∷ [] })) }
        ensures start { OnErr result (self.new.start ≡ self.old.start) }
    {
        self.outs.push(draft)?;
        Ok(())
    }

    /// Begins a body on these locals, with no answer yet. Returns the caller's locals and answer, for `leave`.
    pub fn enter(&mut self, locals: Items<Bits>) -> Caller
        ensures kept { result ≡ record { locals = self.old.state.locals; answer = self.old.state.answer } }
        ensures entered { self.new ≡ with_state self.old (record self.old.state { locals = locals; answer = no_value }) }
    {
        Caller {
            locals: mem::replace(&mut self.locals, locals),
            answer: mem::replace(&mut self.answer, nothing()),
        }
    }

    /// Ends a body and returns its answer. The caller continues with its own locals and answer.
    pub fn leave(&mut self, caller: Caller) -> Bits
        ensures answered { result ≡ self.old.state.answer }
        ensures restored { self.new ≡ with_state self.old (record self.old.state { locals = caller.locals; answer = caller.answer }) }
    {
        let Caller { locals, answer } = caller;
        self.locals = locals;
        mem::replace(&mut self.answer, answer)
    }

    pub fn copy_locals(&self, alloc: Global) -> Result<Items<Bits>, Memory>
        ensures { IfOk result (λ locals. locals ≡ self.now.state.locals) }
    {
        Ok(Items::from_slice(alloc, self.locals.as_slice())?)
    }

    /// Calls an array: answers by the memop `get` and stores by the memop `set`, both applied to the old value of the cell.
    pub fn touch(
        &mut self,
        array: u32,
        index: u64,
        get: &MemAlu,
        get_arg: Bits,
        set: &MemAlu,
        set_arg: Bits,
    ) -> Result<Bits, Memory>
        ensures gives { IfOk result (λ v. v ≡ memop_of get.now (cell_at self.old.state.cells array index) get_arg) }
        ensures stored { OnOk result (self.new ≡ with_state self.old (record self.old.state { cells = with_cell self.old.state.cells array index (memop_of set.now (cell_at self.old.state.cells array index) set_arg).value })) }
        ensures start { OnErr result (self.new.start ≡ self.old.start) }
    {
        let touched = self
            .cells
            .touch(array, index, get, get_arg.value, set, set_arg.value);
        match self.writes.push(Write {
            array,
            cell: index,
            old: touched.held,
        }) {
            Ok(()) => Ok(touched.answer),
            Err(_) => {
                self.cells.set(array, index, touched.held);
                Err(Memory)
            }
        }
    }
}

/// Returns the cells as they were before the writes.
fn rewind(mut cells: Cells, writes: Vec<Write>) -> Cells
    ensures { result ≡ rewound writes.items cells }
{
    let mut left = writes;
    while let Some(write) = left.pop() {
        cells.set(write.array, write.cell, write.old);
    }
    cells
}
