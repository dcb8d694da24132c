// A pipe, as its callers see it. How packets move in its memory is in moving.rt.
ghost use Rattle.std.specs.Prelude.{◌≡◌, ◌<◌, ℕ, List, ◌+◌, ◌↔◌, None, Err, length, is_some, IsSome, IsErr, IfOk, IfErr, OnOk, OnErr, IfSome};
ghost use Rattle.std.specs.List.{AllByRecursion};
ghost use Rattle.lucid_base.specs.Cells.{cell_at, row_of, zero_cells};
ghost use Rattle.lucid_base.specs.declared.event.Event.{Event as EventParts};
ghost use Rattle.lucid_code.specs.Inputs.{IsInput};
ghost use Rattle.lucid_code.specs.Run.{run_code};
ghost use Rattle.lucid_tables.specs.Laws.{KeepsToItsArrays};
ghost use Rattle.lucid_tables.specs.Placed.{IsPlaced, stage_of};
ghost use Rattle.lucid_tables.specs.Stages.{pass};
ghost use Rattle.lucid_pipe.specs.Laws.{MovesKeep, MovesAsRows};
ghost use Rattle.lucid_pipe.specs.declared.passed.Stuck.TheVariants as stuck;
ghost use Rattle.lucid_pipe.specs.Pipe.{empty_pipe, packet_at, gone, comes_out, entered, in_flight, sizes};
ghost use Rattle.lucid_pipe.specs.Settled.{settled, with_left, with_pass};
ghost use Rattle.lucid_pipe.specs.Sights.{sight_of, PlacesFall};

use crate::block::Blocks;
use crate::moving::{enter, go_on};
use crate::slots::{Slot, block_at, free_slots, places, taken_slots};
use crate::{Busy, Passed, Sight, Stuck, laws as law};
use lucid_base::{Cells, Event, Items, Memory};
use lucid_tables::Placed;
use std::alloc::Global;
use std::marker::Model;

/// The stages of a placed code, the cells of its arrays, and before each stage a slot for one packet. Contracts see these.
#[derive(Drop)]
pub struct Pipe<'a> {
    placed: &'a Placed,
    cells: Cells,
    /// As many blocks as slots: the memory of the packets.
    blocks: Blocks,
    slots: Vec<Slot>,
}

impl<'a> Model for Pipe<'a> {
    ghost use Rattle.lucid_pipe.specs.Pipe.{PipeParts};
    ghost use Rattle.lucid_pipe.specs.Views.{pipe_of, IsPipe};

    ghost Value = { PipeParts };

    ghost view = { λ p. pipe_of p.placed.now p.cells p.blocks p.slots.items };

    ghost invariant = { λ p. IsPipe p.placed.now p.cells p.blocks p.slots.items };
}

impl<'a> Pipe<'a> {
    /// Returns a pipe without packets, in which all cells are 0. It takes all the memory that the pipe ever needs: that of the cells, and a
    /// block of registers for each slot.
    #[tactic(auto, using(crate::proofs::Moves::starts_pipe, crate::proofs::Moves::starts))]
    pub fn new(alloc: Global, placed: &'a Placed) -> Result<Pipe<'a>, Memory>
        ensures { IfOk result (λ pipe. pipe ≡ empty_pipe placed.now) }
    {
        let count = placed.stages().len();
        let slots = free_slots(alloc, count)?;
        let cells = Cells::zeros(alloc, placed.code().arrays())?;
        let blocks = Blocks::new(alloc, placed, count)?;
        Ok(Pipe {
            placed,
            cells,
            blocks,
            slots,
        })
    }

    /// Makes a packet of an event, in slot 0, before stage 0, at the tick `now` and the switch `me`. The event has at most as many
    /// arguments as the code has fields for them, and each fits its field. Returns Busy exactly if slot 0 is taken. Then the pipe is
    /// unchanged, and the event is returned. It takes no memory.
    pub fn enter(&mut self, event: Event, now: u64, me: u32) -> Result<(), Busy>
        requires { IsInput self.old.placed.code me event }
        ensures busy { IsErr result ↔ IsSome (packet_at self.old 0) }
        ensures handed { IfErr result (λ busy. busy ≡ record { event = event }) }
        ensures stuck { OnErr result (self.new ≡ self.old) }
        ensures placed { self.new.placed ≡ self.old.placed }
        ensures long { length self.new.slots ≡ length self.new.placed.stages }
        ensures enters { OnOk result (self.new ≡ entered self.old event now me) }
        ensures settles { OnOk result (settled self.new ≡ with_pass self.old.placed event now me (settled self.old)) }
    {
        if block_at(self.slots.as_slice(), 0).is_some() {
            return Err(Busy { event });
        }
        enter(
            self.placed,
            &self.cells,
            &mut self.blocks,
            &mut self.slots,
            event,
            now,
            me,
        );
        Ok(())
    }

    /// Executes stage `k` for the packet in slot `k`, and moves it to the next slot. After the last stage the packet leaves the pipe and is
    /// returned. Returns Empty exactly if there is no slot `k` or no packet in it, and Ahead exactly if there is one and the next slot is
    /// taken. After both the pipe is unchanged. Allocates nothing and copies no field. It is inlined, since its result is large and a
    /// caller that matches it in place then pays for no copy.
    #[inline(always)]
    pub fn go(&mut self, k: usize) -> Result<Option<Passed>, Stuck>
        ensures empty { (result ≡ Err stuck.Empty) ↔ (packet_at self.old k ≡ None) }
        ensures ahead { (result ≡ Err stuck.Ahead) ↔ (IsSome (packet_at self.old k) × IsSome (packet_at self.old (k + 1))) }
        ensures stuck { OnErr result (self.new ≡ self.old) }
        ensures placed { self.new.placed ≡ self.old.placed }
        ensures long { length self.new.slots ≡ length self.new.placed.stages }
        ensures goes { OnOk result (IfSome (packet_at self.old k) (λ p. self.new ≡ gone self.old k p)) }
        ensures out { IfOk result (λ out. IfSome (packet_at self.old k) (λ p. out ≡ comes_out self.old k p)) }
        ensures settles { IfOk result (λ out. settled self.old ≡ with_left out (settled self.new)) }
    {
        match go_on(
            self.placed,
            &mut self.cells,
            &mut self.blocks,
            &mut self.slots,
            k,
        ) {
            Err(stuck) => Err(stuck),
            Ok(None) => Ok(None),
            Ok(Some(number)) => Ok(Some(self.blocks.passed(number))),
        }
    }

    /// Like `go`, but writes a leaving packet to the caller's variable, which becomes None if nothing leaves. So a caller that passes it on
    /// by reference moves it once. After an error the variable is unchanged.
    pub fn go_into(&mut self, k: usize, out: &mut Option<Passed>) -> Result<(), Stuck>
        ensures empty { (result ≡ Err stuck.Empty) ↔ (packet_at self.old k ≡ None) }
        ensures ahead { (result ≡ Err stuck.Ahead) ↔ (IsSome (packet_at self.old k) × IsSome (packet_at self.old (k + 1))) }
        ensures stuck { OnErr result (self.new ≡ self.old) }
        ensures kept { OnErr result (out.new ≡ out.old) }
        ensures placed { self.new.placed ≡ self.old.placed }
        ensures long { length self.new.slots ≡ length self.new.placed.stages }
        ensures goes { OnOk result (IfSome (packet_at self.old k) (λ p. self.new ≡ gone self.old k p)) }
        ensures out { OnOk result (IfSome (packet_at self.old k) (λ p. out.new ≡ comes_out self.old k p)) }
    {
        match go_on(
            self.placed,
            &mut self.cells,
            &mut self.blocks,
            &mut self.slots,
            k,
        ) {
            Err(stuck) => Err(stuck),
            Ok(None) => {
                *out = None;
                Ok(())
            }
            Ok(Some(number)) => {
                *out = Some(self.blocks.passed(number));
                Ok(())
            }
        }
    }

    /// Like `go` for a slot that isn't the last, so nothing leaves. A caller that moves many packets then needs no space for one that left.
    pub fn go_within(&mut self, k: usize) -> Result<(), Stuck>
        requires { k + 1 < length self.old.slots }
        ensures empty { (result ≡ Err stuck.Empty) ↔ (packet_at self.old k ≡ None) }
        ensures ahead { (result ≡ Err stuck.Ahead) ↔ (IsSome (packet_at self.old k) × IsSome (packet_at self.old (k + 1))) }
        ensures stuck { OnErr result (self.new ≡ self.old) }
        ensures placed { self.new.placed ≡ self.old.placed }
        ensures long { length self.new.slots ≡ length self.new.placed.stages }
        ensures goes { OnOk result (IfSome (packet_at self.old k) (λ p. (self.new ≡ gone self.old k p) × (comes_out self.old k p ≡ None))) }
    {
        match go_on(
            self.placed,
            &mut self.cells,
            &mut self.blocks,
            &mut self.slots,
            k,
        ) {
            Err(stuck) => Err(stuck),
            Ok(_) => Ok(()),
        }
    }

    /// Returns a cell of an array. Cell `i` is `i` modulo the size; an array that isn't declared or is in no stage holds 0.
    #[tactic(auto, using(crate::proofs::Idle::zero_row))]
    pub fn look(&self, array: u32, cell: u64) -> u64
        ensures value { result ≡ cell_at self.now.cells array cell }
        ensures idle { stage_of self.now.placed.stages array ≡ None → result ≡ 0 }
    {
        self.cells.get(array, cell)
    }

    /// Returns how many packets are in the pipe.
    #[tactic(auto, using(crate::proofs::Moves::same_count))]
    pub fn packets(&self) -> usize
        ensures { result ≡ in_flight self.now }
    {
        taken_slots(self.slots.as_slice())
    }

    /// Returns whether a packet is in slot `k`; false if there is no such slot.
    pub fn slot(&self, k: usize) -> bool
        ensures { result ≡ is_some (packet_at self.now k) }
    {
        block_at(self.slots.as_slice(), k).is_some()
    }

    /// Returns the number of stages, which is that of the slots.
    pub fn stages(&self) -> usize
        ensures slots { result ≡ length self.now.slots }
        ensures placed { result ≡ length self.now.placed.stages }
    {
        self.placed.stages().len()
    }

    /// Returns the cells by array, in memory of their own.
    pub fn rows(&self, alloc: Global) -> Result<Items<Items<u64>>, Memory>
        ensures { IfOk result (λ rows. rows ≡ self.now.cells) }
    {
        self.cells.rows(alloc)
    }

    /// Returns the sight that a watch gets of the pipe of a switch.
    #[tactic(auto, using(crate::proofs::Places::same_places))]
    pub(crate) fn sight(&self, alloc: Global, switch: u32) -> Result<Sight, Memory>
        ensures { IfOk result (λ sight. sight ≡ sight_of switch self.now) }
    {
        let cells = self.cells.rows(alloc)?;
        match places(alloc, self.slots.as_slice()) {
            Ok(places) => Ok(Sight {
                switch,
                places,
                cells,
            }),
            Err(memory) => {
                drop(cells);
                Err(memory)
            }
        }
    }

    /// The places of the packets, the oldest first, fall strictly and are those of the taken slots. There are as many arrays as are
    /// declared, and one that is in no stage holds 0. It does nothing.
    #[tactic(auto, using(crate::proofs::Places::places_fall, crate::proofs::Moves::pipe_long, crate::proofs::Moves::many_arrays))]
    pub fn places_fall(&self)
        ensures law { PlacesFall self.now }
        ensures many { length self.now.cells ≡ length self.now.placed.code.arrays }
        ensures idle { (g : ℕ) → stage_of self.now.placed.stages g ≡ None → row_of self.now.cells g ≡ row_of (zero_cells self.now.placed.code.arrays) g }
        ensures long { length self.now.slots ≡ length self.now.placed.stages }
    {
        let _slots = self.slots.len();
    }

    /// Laws of each pipe, for a caller that has a pipe and not its placed code: the laws of its moves; that its stages are placed, keep
    /// to their arrays and have the effect of the code; and the relation of its cells to the stages. It does nothing.
    pub fn keeps_laws(&self)
        ensures keep { MovesKeep self.now.placed }
        ensures rows { MovesAsRows self.now.placed }
        ensures placed { IsPlaced self.now.placed.code self.now.placed.stages }
        ensures arrays { AllByRecursion (KeepsToItsArrays self.now.placed.code) self.now.placed.stages }
        ensures pass { (cells : List (List ℕ)) (now me : ℕ) (event : EventParts) → IsInput self.now.placed.code me event
            → pass self.now.placed.code self.now.placed.stages cells now me event ≡ run_code self.now.placed.code cells now me event }
        ensures idle { (g : ℕ) → stage_of self.now.placed.stages g ≡ None → row_of self.now.cells g ≡ row_of (zero_cells self.now.placed.code.arrays) g }
        ensures sized { sizes self.now.cells ≡ sizes (zero_cells self.now.placed.code.arrays) }
        ensures long { length self.now.slots ≡ length self.now.placed.stages }
    {
        law::moves_keep(self.placed);
        law::moves_as_rows(self.placed);
        let _code = self.placed.code();
        let _stages = self.placed.stages();
        let _slots = self.slots.len();
    }
}
