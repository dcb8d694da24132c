// Flags that are set for a while: which locals are held.
ghost use Rattle.std.specs.Prelude.{◌≡◌, IfOk, OnOk, false, length, slice_index_or, slice_set};
ghost use Rattle.lucid_inline_count.specs.Found.{joined as joined_of};
ghost use Rattle.lucid_inline_count.specs.Flags.{put_back as before};
ghost use Rattle.lucid_inline_count.specs.Held.{IsAlike};

use lucid_base::Memory;
use std::alloc::Global;

/// The old value of a flag.
#[derive(Clone, Copy)]
pub struct Note {
    local: u32,
    was: bool,
}

fn is_held(held: &[bool], i: u32) -> bool
    ensures { result ≡ slice_index_or held.now i false }
{
    match held.get(i as usize) {
        None => false,
        Some(flag) => *flag,
    }
}

/// Sets the flag and notes its old value. A local that does not exist has none.
pub fn set(held: &mut Vec<bool>, notes: &mut Vec<Note>, i: u32, flag: bool) -> Result<(), Memory>
    ensures set { OnOk result (held.new.items ≡ slice_set held.old.items i flag) }
    ensures back { OnOk result (before notes.new.items held.new.items ≡ before notes.old.items held.old.items) }
{
    if (i as usize) < held.len() {
        let was = is_held(held.as_slice(), i);
        notes.push(Note { local: i, was })?;
        held[i as usize] = flag;
    }
    Ok(())
}

/// The flags as they were before they were noted.
pub fn put_back(held: &mut Vec<bool>, notes: Vec<Note>)
    ensures { held.new.items ≡ before notes.items held.old.items }
{
    let mut left = notes;
    while let Some(note) = left.pop() {
        if (note.local as usize) < held.len() {
            held[note.local as usize] = note.was;
        }
    }
}

/// Returns the locals that are held and named, each once. The work is in proportion to the names.
pub fn distinct(alloc: Global, held: &mut Vec<bool>, names: &[u32]) -> Result<Vec<u32>, Memory>
    ensures joined { IfOk result (λ found. length found.items ≡ joined_of held.old.items names.now) }
    ensures alike { IfOk result (λ found. IsAlike held.old.items found.items names.now) }
    ensures kept { OnOk result (held.new.items ≡ held.old.items) }
{
    let mut notes = Vec::new(alloc);
    let mut found = Vec::new(alloc);
    for x in names {
        if is_held(held.as_slice(), *x) {
            set(held, &mut notes, *x, false)?;
            found.push(*x)?;
        }
    }
    put_back(held, notes);
    Ok(found)
}
