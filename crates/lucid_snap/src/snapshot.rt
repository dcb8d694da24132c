// A snapshot of a pipe whose packets move.
ghost use Rattle.std.specs.Prelude.{◌≡◌, ◌<◌, ◌+◌, ◌-◌, ◌&&◌, [], ℕ, List, length, nat_eq, slice_index_or, if◌then◌else◌, IfOk};
ghost use Rattle.std.proofs.Common.{suc};
ghost use Rattle.lucid_tables.specs.Numbers.{is_in};
ghost use Rattle.lucid_base.specs.Cells.{cell_at, row_of};
ghost use Rattle.lucid_pipe.specs.Packets.{Packet};
ghost use Rattle.lucid_pipe.specs.Pipe.{PipeParts, in_flight, sizes};
ghost use Rattle.lucid_pipe.specs.Settled.{settled};
ghost use Rattle.lucid_drive.specs.Changes.{Moved};
ghost use Rattle.lucid_snap.specs.Snap.{Follows, snap_of};
ghost use Rattle.lucid_snap.specs.Calls.{HasPassed};

use crate::copy::{arrays_of, copied, copy_arrays, free_first, read};
use lucid_base::{Items, Memory};
use lucid_pipe::Pipe;
use lucid_tables::Placed;
use std::alloc::Global;
use std::marker::Model;

/// For each array as many cells as it has, the arrays of each stage, how many stages are copied, which are the first, and how many packets
/// it waits for.
#[derive(Drop)]
pub struct Snap {
    copies: Vec<Items<u64>>,
    stages: Vec<Items<u32>>,
    copied: usize,
    waits: usize,
}

impl Model for Snap {
    ghost use Rattle.lucid_snap.specs.Snap.{SnapParts, snap_of};

    ghost Value = { SnapParts };

    ghost view = { λ s. snap_of s.copies.items s.stages.items s.copied s.waits };
}

impl Snap {
    /// Begins a snapshot of the settled state of a pipe of this code. Allocates all memory that it needs.
    pub fn begin(alloc: Global, pipe: &Pipe, placed: &Placed) -> Result<Snap, Memory>
        requires { pipe.now.placed ≡ placed.now }
        ensures follows { IfOk result (λ snap. Follows snap pipe.now (settled pipe.now).cells) }
        ensures waits { IfOk result (λ snap. snap.old ≡ in_flight pipe.now) }
    {
        pipe.keeps_laws();
        let rows = pipe.rows(alloc)?;
        let copies = copied(alloc, rows.as_slice())?;
        let stages = arrays_of(alloc, placed.stages())?;
        let copied = free_first(pipe);
        let waits = pipe.packets();
        Ok(Snap {
            copies,
            stages,
            copied,
            waits,
        })
    }

    /// A packet of a pipe that it follows passed stage `k`, which left this pipe. It takes no memory.
    pub fn passed(&mut self, pipe: &Pipe, k: usize)
        requires sized { sizes self.old.copies ≡ sizes pipe.now.cells }
        ensures { (before : PipeParts) (p : Packet) (cells : List (List ℕ)) → Moved before k p pipe.now → Follows self.old before cells → Follows self.new pipe.now cells }
    {
        pipe.keeps_laws();
        if k < self.stages.len() {
            pass(
                &mut self.copies,
                &self.stages,
                &mut self.copied,
                &mut self.waits,
                pipe,
                k,
            );
        }
    }

    /// Returns whether all stages are copied.
    pub fn whole(&self) -> bool
        ensures { result ≡ nat_eq self.now.old 0 }
    {
        self.waits == 0
    }

    /// Returns a cell of an array in the snapshot, of its final content once the snapshot is whole. Cell `i` is `i` modulo the size.
    /// Allocates nothing.
    #[tactic(auto, using(crate::proofs::Copying::got))]
    pub fn get(&self, array: u32, cell: u64) -> u64
        ensures copy { result ≡ cell_at self.now.copies array cell }
        ensures value { (pipe : PipeParts) (cells : List (List ℕ)) → Follows self.now pipe cells → self.now.old ≡ 0 → result ≡ cell_at cells array cell }
    {
        read(self.copies.as_slice(), array, cell)
    }
}

/// Stage `k` is copied if it is the first that isn't, and the snapshot waits for one less if a packet left.
fn pass(
    copies: &mut Vec<Items<u64>>,
    stages: &Vec<Items<u32>>,
    copied: &mut usize,
    waits: &mut usize,
    pipe: &Pipe,
    k: usize,
)
    requires there { k < length stages.now.items }
    requires sized { sizes copies.old.items ≡ sizes pipe.now.cells }
    ensures { HasPassed (snap_of copies.old.items stages.now.items copied.old waits.old) pipe.now k (snap_of copies.new.items stages.now.items copied.new waits.new) }
{
    copy_next(copies, stages, copied, pipe, k);
    wait_less(waits, stages.len(), k);
}

/// Stage `k` is copied if it is the first that isn't.
fn copy_next(
    copies: &mut Vec<Items<u64>>,
    stages: &Vec<Items<u32>>,
    copied: &mut usize,
    pipe: &Pipe,
    k: usize,
)
    requires there { k < length stages.now.items }
    requires sized { sizes copies.old.items ≡ sizes pipe.now.cells }
    ensures copied { copied.new ≡ (if nat_eq k copied.old then suc k else copied.old) }
    ensures sized { sizes copies.new.items ≡ sizes copies.old.items }
    ensures rows { (g : ℕ) → row_of copies.new.items g ≡ (if nat_eq k copied.old && is_in g (slice_index_or stages.now.items k []) then row_of pipe.now.cells g else row_of copies.old.items g) }
{
    if k == *copied {
        copy_arrays(pipe, stages[k].as_slice(), copies);
        *copied = k + 1;
    }
}

/// Subtracts one if stage `k` is the last of `count`.
fn wait_less(waits: &mut usize, count: usize, k: usize)
    requires { k < count }
    ensures { waits.new ≡ (if nat_eq (k + 1) count then waits.old - 1 else waits.old) }
{
    if k + 1 == count && *waits > 0 {
        *waits -= 1;
    }
}
