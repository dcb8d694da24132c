// The counts of an `if`, once its branches are counted.
ghost use Rattle.std.specs.Prelude.{◌≡◌, IfOk, OnOk, drop};
ghost use Rattle.lucid_inline_count.specs.Branches.{chosen, followed};
ghost use Rattle.lucid_inline_count.specs.Flags.{put_back as before};
ghost use Rattle.lucid_inline_count.specs.Found.{joined as joined_of, joins as joins_of};
ghost use Rattle.lucid_inline_count.specs.Held.{Keeps};

use crate::body::{Body, Part};
use crate::counts::{Counts, count};
use crate::held::{Note, distinct, put_back};
use lucid_base::Memory;
use std::alloc::Global;

/// A block that ends in an `if` whose second branch is still to be counted.
#[derive(Drop)]
pub struct Open {
    /// The statements before the `if`.
    pub front: Part,
    /// The condition with the first branch.
    pub tested: Counts,
    pub yes: Part,
    /// How many locals were assigned before the `if`.
    pub from: usize,
    /// The way back to the locals held before the block.
    pub notes: Vec<Note>,
}

/// The moves where two branches join that assigned the locals after the first `from`.
fn joins(
    alloc: Global,
    body: &mut Body,
    returns: bool,
    value: bool,
    from: usize,
) -> Result<u64, Memory>
    ensures joins { IfOk result (λ n. n ≡ joins_of returns value body.old.held.items (drop from body.old.assigned.items)) }
    ensures held { OnOk result (body.new.held.items ≡ body.old.held.items) }
    ensures assigned { OnOk result (Keeps body.old.held.items from body.old.assigned.items body.new.assigned.items) }
{
    if returns {
        Ok(if value { 2 } else { 0 })
    } else {
        let joined = keep_held(alloc, body, from)?;
        Ok((joined as u64).saturating_mul(2))
    }
}

/// Keeps, of the locals that were assigned after the first `from`, those that are held, each once. Returns how many these are.
fn keep_held(alloc: Global, body: &mut Body, from: usize) -> Result<usize, Memory>
    ensures joined { IfOk result (λ n. n ≡ joined_of body.old.held.items (drop from body.old.assigned.items)) }
    ensures held { OnOk result (body.new.held.items ≡ body.old.held.items) }
    ensures assigned { OnOk result (Keeps body.old.held.items from body.old.assigned.items body.new.assigned.items) }
{
    let found = distinct(alloc, &mut body.held, behind(&body.assigned, from))?;
    body.assigned.truncate(from);
    body.assigned.extend_from_slice(found.as_slice())?;
    Ok(found.len())
}

/// Returns the locals that were assigned after the first `from`.
fn behind(assigned: &[u32], from: usize) -> &[u32]
    ensures { result.now ≡ drop from assigned.now }
{
    if from <= assigned.len() {
        &assigned[from..]
    } else {
        &[]
    }
}

/// Counts an `if` of these branches, which assigned the locals after the first `from`. Where no branch returns, each that is held stays once.
pub fn either(
    alloc: Global,
    body: &mut Body,
    tested: Counts,
    yes: Part,
    no: Part,
    from: usize,
) -> Result<Part, Memory>
    ensures part { IfOk result (λ p. p ≡ chosen tested yes no body.old.held.items (drop from body.old.assigned.items)) }
    ensures held { OnOk result (body.new.held.items ≡ body.old.held.items) }
    ensures assigned { OnOk result (Keeps body.old.held.items from body.old.assigned.items body.new.assigned.items) }
{
    let returns = yes.returns || no.returns;
    let value = yes.value && no.value;
    let joins = joins(alloc, body, returns, value, from)?;
    Ok(Part {
        counts: tested.and(no.counts).and(count(joins, 0)),
        sets: None,
        returns,
        value,
    })
}

/// Counts a block whose second branch is this, and goes back to the locals held before it.
pub fn close(alloc: Global, body: &mut Body, one: Open, no: Part) -> Result<Part, Memory>
    ensures part { IfOk result (λ p. p ≡ followed one.front (chosen one.tested one.yes no body.old.held.items (drop one.from body.old.assigned.items))) }
    ensures held { OnOk result (body.new.held.items ≡ before one.notes.items body.old.held.items) }
    ensures assigned { OnOk result (Keeps body.old.held.items one.from body.old.assigned.items body.new.assigned.items) }
{
    let Open {
        front,
        tested,
        yes,
        from,
        notes,
    } = one;
    let last = either(alloc, body, tested, yes, no, from)?;
    put_back(&mut body.held, notes);
    Ok(front.and(last))
}
