// The line of a table.
use lucid_base::Items;

/// A table by its stage and its number there, both from 0: how many rows it has, how many operations they name, each counted once, and the
/// arrays that these call, in rising order.
#[derive(Drop)]
pub(crate) struct TableLine {
    pub(crate) stage: u64,
    pub(crate) table: u64,
    pub(crate) rows: u64,
    pub(crate) ops: u64,
    pub(crate) arrays: Items<u32>,
}
