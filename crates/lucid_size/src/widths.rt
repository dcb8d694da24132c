// The widths at which each template is used.
ghost use Rattle.std.specs.Prelude.{◌≡◌, ◌<◌, [], All, IfOk, length};
ghost use Rattle.lucid_size.specs.Widths.{AreDealt, IsRisingOf};

use crate::step::Instance;
use lucid_base::{Items, Memory};
use std::alloc::Global;

/// For each template the widths of its instances, in the order in which they were found.
pub(crate) fn deal(
    alloc: Global,
    found: &[Instance],
    templates: usize,
) -> Result<Vec<Items<u64>>, Memory>
    requires { All (λ i. i.template < templates) found.now }
    ensures dealt { IfOk result (λ rows. AreDealt rows.items found.now) }
    ensures many { IfOk result (λ rows. length rows.items ≡ templates) }
{
    let mut rows = no_rows(alloc, templates)?;
    for instance in found {
        rows[instance.template].push(instance.width)?;
    }
    Ok(rows)
}

/// Makes `rows` empty rows.
fn no_rows(alloc: Global, rows: usize) -> Result<Vec<Items<u64>>, Memory>
    ensures many { IfOk result (λ made. length made.items ≡ rows) }
    ensures dealt { IfOk result (λ made. AreDealt made.items []) }
{
    let mut made = Vec::new(alloc);
    for _i in 0..rows {
        made.push(Items::new(alloc))?;
    }
    Ok(made)
}

/// The same numbers, each once and rising.
pub(crate) fn rising(alloc: Global, row: &[u64]) -> Result<Vec<u64>, Memory>
    ensures { IfOk result (λ sorted. IsRisingOf row.now sorted.items) }
{
    let mut sorted = Vec::new(alloc);
    sorted.extend_from_slice(row)?;
    sorted.sort_unstable();
    sorted.dedup();
    Ok(sorted)
}
