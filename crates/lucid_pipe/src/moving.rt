// How packets move in the memory of a pipe. Every slot, taken or not, has a block of its own: a packet that moves passes the number of
// its block to the next slot and takes the number from there in exchange. No field is copied. Contracts see the pipe that the memory
// represents.
ghost use Rattle.std.specs.Prelude.{◌≡◌, ◌+◌, ◌<◌, ◌≤◌, ◌↔◌, None, Some, Err, length, nat_lt, if◌then◌else◌, map, slice_set, IsSome, IfOk, OnOk, OnErr, IfSome};
ghost use Rattle.lucid_pipe.specs.declared.passed.Stuck.TheVariants as stuck;
ghost use Rattle.lucid_pipe.specs.Packets.{entering};
ghost use Rattle.lucid_pipe.specs.Pipe.{packet_at, gone, comes_out};
ghost use Rattle.lucid_pipe.specs.Settled.{settled, with_left, with_pass};
ghost use Rattle.lucid_pipe.specs.Slots.{block_at};
ghost use Rattle.lucid_pipe.specs.Views.{in_slot, pipe_of, told_by, IsPipe};

use crate::block::Blocks;
use crate::slots::{Slot, block_at, hand_on};
use crate::{Stuck, laws as law};
use lucid_base::{Cells, Event};
use lucid_tables::Placed;

/// Loads an event into the block of the first slot, which is free.
pub(crate) fn enter(
    placed: &Placed,
    cells: &Cells,
    blocks: &mut Blocks,
    slots: &mut Vec<Slot>,
    event: Event,
    now: u64,
    me: u32,
)
    requires pipe { IsPipe placed.now cells.now blocks.old slots.old.items }
    requires few { length event.args ≤ placed.now.code.inputs.args }
    requires free { block_at slots.old.items 0 ≡ None }
    ensures pipe { IsPipe placed.now cells.now blocks.new slots.new.items }
    ensures enters { map (in_slot placed.now.code blocks.new) slots.new.items
        ≡ slice_set (map (in_slot placed.now.code blocks.old) slots.old.items) 0 (Some (entering placed.now.code event now me)) }
    ensures settles { settled (pipe_of placed.now cells.now blocks.new slots.new.items)
        ≡ with_pass placed.now event now me (settled (pipe_of placed.now cells.now blocks.old slots.old.items)) }
{
    law::moves_keep(placed);
    let here = slots[0];
    blocks.load(here.block, placed, event, now, me);
    slots[0] = Slot {
        block: here.block,
        taken: true,
    };
}

/// Moves the packet in slot `k`. If it leaves, its block is returned. It is inlined, since most callers know already that a packet is
/// there.
#[inline(always)]
pub(crate) fn go_on(
    placed: &Placed,
    cells: &mut Cells,
    blocks: &mut Blocks,
    slots: &mut Vec<Slot>,
    k: usize,
) -> Result<Option<usize>, Stuck>
    requires { IsPipe placed.now cells.old blocks.old slots.old.items }
    ensures pipe { IsPipe placed.now cells.new blocks.new slots.new.items }
    ensures empty { (result ≡ Err stuck.Empty) ↔ (packet_at (pipe_of placed.now cells.old blocks.old slots.old.items) k ≡ None) }
    ensures ahead { let old = pipe_of placed.now cells.old blocks.old slots.old.items in
        (result ≡ Err stuck.Ahead) ↔ (IsSome (packet_at old k) × IsSome (packet_at old (k + 1))) }
    ensures stuck { OnErr result (pipe_of placed.now cells.new blocks.new slots.new.items ≡ pipe_of placed.now cells.old blocks.old slots.old.items) }
    ensures goes { let old = pipe_of placed.now cells.old blocks.old slots.old.items in
        OnOk result (IfSome (packet_at old k) (λ p. pipe_of placed.now cells.new blocks.new slots.new.items ≡ gone old k p)) }
    ensures there { IfOk result (λ out. IfSome out (λ number. number < length blocks.new)) }
    ensures out { let old = pipe_of placed.now cells.old blocks.old slots.old.items in
        IfOk result (λ out. IfSome (packet_at old k) (λ p. told_by blocks.new out ≡ comes_out old k p)) }
    ensures settles { IfOk result (λ out. settled (pipe_of placed.now cells.old blocks.old slots.old.items)
        ≡ with_left (told_by blocks.new out) (settled (pipe_of placed.now cells.new blocks.new slots.new.items))) }
{
    let Some(number) = block_at(slots.as_slice(), k) else {
        return Err(Stuck::Empty);
    };
    if block_at(slots.as_slice(), k + 1).is_some() {
        return Err(Stuck::Ahead);
    }
    Ok(pass_on(placed, cells, blocks, slots, k, number))
}

/// Moves the packet of a block in slot `k`. If it leaves, its block is returned.
#[inline(never)]
fn pass_on(
    placed: &Placed,
    cells: &mut Cells,
    blocks: &mut Blocks,
    slots: &mut Vec<Slot>,
    k: usize,
    number: usize,
) -> Option<usize>
    requires pipe { IsPipe placed.now cells.old blocks.old slots.old.items }
    requires taken { block_at slots.old.items k ≡ Some number }
    requires free { block_at slots.old.items (k + 1) ≡ None }
    ensures pipe { IsPipe placed.now cells.new blocks.new slots.new.items }
    ensures goes { let old = pipe_of placed.now cells.old blocks.old slots.old.items in
        IfSome (packet_at old k) (λ p. pipe_of placed.now cells.new blocks.new slots.new.items ≡ gone old k p) }
    ensures there { IfSome result (λ number. number < length blocks.new) }
    ensures out { let old = pipe_of placed.now cells.old blocks.old slots.old.items in
        IfSome (packet_at old k) (λ p. told_by blocks.new result ≡ comes_out old k p) }
    ensures settles { settled (pipe_of placed.now cells.old blocks.old slots.old.items)
        ≡ with_left (told_by blocks.new result) (settled (pipe_of placed.now cells.new blocks.new slots.new.items)) }
{
    law::moves_keep(placed);
    blocks.run(number, placed, k, cells);
    hand_on(slots, k);
    comes_out(slots.len(), k, number)
}

/// Returns the block of a packet that was in slot `k` of `count`, if it left.
fn comes_out(count: usize, k: usize, number: usize) -> Option<usize>
    requires { k < count }
    ensures { result ≡ (if nat_lt (k + 1) count then None else Some number) }
{
    if k + 1 < count { None } else { Some(number) }
}
