// Marks of fields, as those that are read.
ghost use Rattle.std.specs.Prelude.{◌≡◌, true, false, slice_index_or, slice_set};
ghost use Rattle.lucid_pass.specs.Marks.{marked};

/// A mark for each of these fields.
pub fn mark_all(marks: &mut Vec<bool>, fields: &[u32])
    ensures { marks.new.items ≡ marked fields.now marks.old.items }
{
    for k in fields {
        mark(marks, *k);
    }
}

/// A mark for field `k`.
pub fn mark(marks: &mut Vec<bool>, k: u32)
    ensures { marks.new.items ≡ slice_set marks.old.items k true }
{
    if (k as usize) < marks.len() {
        marks[k as usize] = true;
    }
}

/// Returns whether field `k` has a mark.
pub fn is_set(marks: &[bool], k: usize) -> bool
    ensures { result ≡ slice_index_or marks.now k false }
{
    match marks.get(k) {
        None => false,
        Some(mark) => *mark,
    }
}
