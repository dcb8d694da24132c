// Which operation reads a field, if just one does.
ghost use Rattle.std.specs.Prelude.{◌≡◌, slice_index_or, slice_set, IfOk, OnOk};
ghost use Rattle.lucid_code.specs.Uses.{read_by};
ghost use Rattle.lucid_pass_rewrites.specs.Readers.{TellReads, with_reader, with_readers};
ghost use Rattle.lucid_pass_rewrites.specs.Writers.{nobody};

use crate::writers::Writer;
use lucid_base::Memory;
use lucid_code::Op;
use std::alloc::Global;

/// Returns the reader of each field below `fields`.
pub(crate) fn readers_of(alloc: Global, ops: &[Op], fields: usize) -> Result<Vec<Writer>, Memory>
    ensures { IfOk result (λ readers. TellReads fields ops.now readers.items) }
{
    let mut readers = vec![in alloc; Writer::Nobody; fields]?;
    let mut reads = Vec::new(alloc);
    for (at, op) in ops.iter().enumerate() {
        add_reads(op, at, &mut reads, &mut readers)?;
    }
    Ok(readers)
}

fn add_reads(
    op: &Op,
    at: usize,
    reads: &mut Vec<u32>,
    readers: &mut Vec<Writer>,
) -> Result<(), Memory>
    ensures { OnOk result (readers.new.items ≡ with_readers readers.old.items (read_by op.now) at) }
{
    reads.clear();
    op.put_reads(reads)?;
    add_reader(readers, reads.as_slice(), at);
    Ok(())
}

fn add_reader(readers: &mut Vec<Writer>, fields: &[u32], at: usize)
    ensures { readers.new.items ≡ with_readers readers.old.items fields.now at }
{
    for k in fields {
        set_reader(readers, *k, at);
    }
}

fn set_reader(readers: &mut Vec<Writer>, k: u32, at: usize)
    ensures { readers.new.items ≡ slice_set readers.old.items k (with_reader (slice_index_or readers.old.items k nobody) at) }
{
    if (k as usize) < readers.len() {
        let found = &mut readers[k as usize];
        *found = with_reader(*found, at);
    }
}

fn with_reader(reader: Writer, at: usize) -> Writer
    ensures { result ≡ with_reader reader at }
{
    match reader {
        Writer::Nobody => Writer::One(at),
        Writer::One(other) => {
            if other == at {
                Writer::One(at)
            } else {
                Writer::Many
            }
        }
        Writer::Many => Writer::Many,
    }
}
