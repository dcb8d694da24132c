// Which operation writes a field, if just one does.
ghost use Rattle.std.specs.Prelude.{◌≡◌, slice_index_or, IfOk, IsTrue};
ghost use Rattle.std.specs.List.{list_all};
ghost use Rattle.lucid_pass.specs.Marks.{writes_below};
ghost use Rattle.lucid_pass_rewrites.specs.Writers.{Tells, with_writer, nobody};

use lucid_base::Memory;
use lucid_code::Op;
use std::alloc::Global;

/// The writer of a field: no operation, the one at this place, or several.
#[derive(Clone, Copy)]
pub(crate) enum Writer {
    Nobody,
    One(usize),
    Many,
}

/// Returns the writer of each field below `fields`.
pub(crate) fn writers_of(alloc: Global, ops: &[Op], fields: usize) -> Result<Vec<Writer>, Memory>
    requires { IsTrue (list_all (writes_below fields) ops.now) }
    ensures { IfOk result (λ writers. Tells ops.now writers.items) }
{
    let mut writers = vec![in alloc; Writer::Nobody; fields]?;
    for (at, op) in ops.iter().enumerate() {
        if let Some(k) = op.act.written() {
            let found = &mut writers[k as usize];
            *found = with_writer(*found, at);
        }
    }
    Ok(writers)
}

fn with_writer(writer: Writer, at: usize) -> Writer
    ensures { result ≡ with_writer writer at }
{
    match writer {
        Writer::Nobody => Writer::One(at),
        Writer::One(_) => Writer::Many,
        Writer::Many => Writer::Many,
    }
}

/// Returns the writer of field `k`.
pub(crate) fn who_writes(writers: &[Writer], k: u32) -> Writer
    ensures { result ≡ slice_index_or writers.now k nobody }
{
    match writers.get(k as usize) {
        None => Writer::Nobody,
        Some(found) => *found,
    }
}
