// The work of each node.
ghost use Rattle.std.specs.Prelude.{◌≡◌, ◌++◌, [], ◌∷◌, Some, map, IfOk, OnOk};
ghost use Rattle.lucid_code.specs.Uses.{is_same, called_by};
ghost use Rattle.lucid_stages.specs.NodeWorks as spec;

use crate::node::Work;
use lucid_base::{Items, Memory};
use lucid_code::{Node, Op};
use std::alloc::Global;

/// The work of these nodes, one by one.
pub fn works(alloc: Global, ops: &[Op], nodes: &[Node]) -> Result<Items<Work>, Memory>
    ensures { IfOk result (λ works. works ≡ map (spec.work_of ops.now) nodes.now) }
{
    let mut works = Items::new(alloc);
    for node in nodes {
        works.push(work(alloc, ops, *node)?)?;
    }
    Ok(works)
}

/// The work of a node.
pub fn work(alloc: Global, ops: &[Op], node: Node) -> Result<Work, Memory>
    ensures { IfOk result (λ work. work ≡ spec.work_of ops.now node) }
{
    match node {
        Node::Pure(at) => work_at(alloc, ops, Items::from_slice(alloc, &[at])?, false),
        Node::Array(array) => work_at(alloc, ops, calls_of(alloc, ops, array)?, true),
    }
}

/// The reads and writes of the operations at these places.
fn work_at(alloc: Global, ops: &[Op], places: Items<u32>, is_array: bool) -> Result<Work, Memory>
    ensures { IfOk result (λ work. work ≡ spec.work_at ops.now places is_array) }
{
    let mut reads = Vec::new(alloc);
    let mut writes = Vec::new(alloc);
    for place in places.as_slice() {
        put_uses(ops, *place, &mut reads, &mut writes)?;
    }
    Ok(Work {
        ops: places,
        reads: Items::from_vec(reads),
        writes: Items::from_vec(writes),
        is_array,
    })
}

/// Appends the reads and writes of the operation at a place to two lists.
fn put_uses(
    ops: &[Op],
    place: u32,
    reads: &mut Vec<u32>,
    writes: &mut Vec<u32>,
) -> Result<(), Memory>
    ensures reads { OnOk result (reads.new.items ≡ reads.old.items ++ spec.reads_at ops.now (place ∷ [])) }
    ensures writes { OnOk result (writes.new.items ≡ writes.old.items ++ spec.writes_at ops.now (place ∷ [])) }
{
    match ops.get(place as usize) {
        None => Ok(()),
        Some(op) => {
            op.put_reads(reads)?;
            if let Some(field) = op.act.written() {
                writes.push(field)?;
            }
            Ok(())
        }
    }
}

/// The places of the calls of an array. More operations than 32 bits can number count as out of memory.
pub(crate) fn calls_of(alloc: Global, ops: &[Op], array: u32) -> Result<Items<u32>, Memory>
    ensures { IfOk result (λ calls. calls ≡ spec.calls_of ops.now array) }
{
    let mut calls = Items::new(alloc);
    for (at, op) in ops.iter().enumerate() {
        if calls_array(op, array) {
            match u32::try_from(at) {
                Ok(at) => calls.push(at)?,
                Err(_) => return Err(Memory),
            }
        }
    }
    Ok(calls)
}

/// Whether an operation calls this array.
fn calls_array(op: &Op, array: u32) -> bool
    ensures { result ≡ is_same (called_by op.now.act) (Some array) }
{
    match op.act.called() {
        None => false,
        Some(found) => found == array,
    }
}
