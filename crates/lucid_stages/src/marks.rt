// A number for each field: the position of the nodes that write it.
ghost use Rattle.std.specs.Prelude.{◌≡◌, ◌<◌, ◌^◌, length, nat_lt, slice_index, IfOk};
ghost use Rattle.std.specs.List.{AllByRecursion, list_any};
ghost use Rattle.lucid_stages.specs.Marks.{raised, floor, Within, end_marks, zeros};

use crate::node::Work;
use lucid_base::Memory;
use std::alloc::Global;

/// For each field the number of the node after its last writer, and 0 if none writes it.
pub fn ends(alloc: Global, nodes: &[Work], fields: usize) -> Result<Vec<u32>, Memory>
    requires within { AllByRecursion (λ w. Within fields w.writes) nodes.now }
    requires few { length nodes.now < 2 ^ 32 }
    ensures { IfOk result (λ ends. ends.items ≡ end_marks (zeros fields) 0 nodes.now) }
{
    let mut ends = no_marks(alloc, fields)?;
    for (at, node) in nodes.iter().enumerate() {
        raise(&mut ends, node.writes.as_slice(), at as u32 + 1);
    }
    Ok(ends)
}

/// 0 for each field.
pub fn no_marks(alloc: Global, fields: usize) -> Result<Vec<u32>, Memory>
    ensures { IfOk result (λ marks. marks.items ≡ zeros fields) }
{
    Ok(vec![in alloc; 0u32; fields]?)
}

/// Raises the marks of these fields to a number, if they are less.
pub fn raise(marks: &mut Vec<u32>, fields: &[u32], to: u32)
    requires { Within (length marks.old.items) fields.now }
    ensures { marks.new.items ≡ raised marks.old.items fields.now to }
{
    for field in fields {
        let found = &mut marks[*field as usize];
        *found = (*found).max(to);
    }
}

/// The mark of a field, and 0 if it has none.
fn mark_at(marks: &[u32], field: u32) -> u32
    ensures { result ≡ slice_index marks.now field }
{
    match marks.get(field as usize) {
        None => 0,
        Some(mark) => *mark,
    }
}

/// The greatest mark of these fields.
pub fn floor_of(marks: &[u32], fields: &[u32]) -> u32
    ensures { result ≡ floor marks.now fields.now }
{
    let mut most = 0;
    for field in fields {
        most = mark_at(marks, *field).max(most);
    }
    most
}

/// Whether the mark of one of these fields is past a number.
pub fn any_past(marks: &[u32], fields: &[u32], at: u32) -> bool
    ensures { result ≡ list_any (λ k. nat_lt at (slice_index marks.now k)) fields.now }
{
    fields.iter().any(|field| at < mark_at(marks, *field))
}
