// Finds the least place for a node among the stages so far.
ghost use Rattle.std.specs.Prelude.{◌≡◌, ◌<◌, ◌≤◌, ℕ, true, None, Ok, length, IfOk, IfSome, IsSome};
ghost use Rattle.lucid_tables.specs.Rows.{table as table_of_rows};
ghost use Rattle.lucid_merge.specs.Product.{product};
ghost use Rattle.lucid_stages.specs.Stage.{rows_at};
ghost use Rattle.lucid_layout.specs.Fit.{TableFits, StageFits, Least};
ghost use Rattle.lucid_layout.specs.Find.{LeastTable, Fits, TableAt};

use crate::filling::{Filling, grow_at};
use lucid_base::{Items, Memory};
use lucid_conf::Limits;
use lucid_merge::merge;
use lucid_stages::Pair;
use lucid_tables::Table;
use std::alloc::Global;

/// Merges a table of the stage, or the next new one, with this table. Returns None if it then has more than `rows` rows.
#[tactic(auto, using(crate::proofs::FindLemmas::within_none, crate::proofs::FindLemmas::within_some))]
fn merged_at(
    alloc: Global,
    stage: &mut Filling,
    t: u32,
    more: &Table,
    rows: usize,
) -> Result<Option<Table>, Memory>
    ensures same { stage.new ≡ stage.old }
    ensures none { result ≡ Ok None → rows < length (product (rows_at stage.old t) more.now.rows) }
    ensures some { IfOk result (λ o. IfSome o (λ x. (x ≡ table_of_rows (product (rows_at stage.old t) more.now.rows)) × (length (product (rows_at stage.old t) more.now.rows) ≤ rows))) }
{
    if (t as usize) < stage.tables.len() {
        grow_at(alloc, &mut stage.tables, t as usize, more, rows)
    } else {
        let empty = Table {
            keys: Items::new(alloc),
            rows: Items::new(alloc),
        };
        merge(alloc, &empty, more, rows)
    }
}

/// Finds the least table of the stage that fits, and its content then.
fn find_table(
    alloc: Global,
    stage: &mut Filling,
    more: &Table,
    limits: &Limits,
) -> Result<Option<(u32, Table)>, Memory>
    ensures same { stage.new ≡ stage.old }
    ensures none { result ≡ Ok None → (t : ℕ) → TableFits limits.now stage.old more.now.rows t → ⊥ }
    ensures some { IfOk result (λ o. IfSome o (λ x. LeastTable limits.now stage.old more.now.rows x.0 x.1)) }
{
    for t in 0..limits.tables {
        if t as usize > stage.tables.len() {
            return Ok(None);
        }
        match merged_at(alloc, stage, t, more, limits.rows as usize)? {
            Some(table) => return Ok(Some((t, table))),
            None => {}
        }
    }
    Ok(None)
}

/// Like `find_table`, but None if the node calls an array and the stage has no room for one more.
fn find_in(
    alloc: Global,
    stage: &mut Filling,
    array: bool,
    more: &Table,
    limits: &Limits,
) -> Result<Option<(u32, Table)>, Memory>
    ensures same { stage.new ≡ stage.old }
    ensures none { result ≡ Ok None → (t : ℕ) → StageFits limits.now stage.old array more.now.rows t → ⊥ }
    ensures room { IfOk result (λ o. IsSome o → array ≡ true → stage.old.arrays < limits.now.arrays) }
    ensures some { IfOk result (λ o. IfSome o (λ x. LeastTable limits.now stage.old more.now.rows x.0 x.1)) }
{
    if array && stage.arrays >= limits.arrays {
        return Ok(None);
    }
    find_table(alloc, stage, more, limits)
}

/// Finds the least place from stage `low` on, and its table then.
pub(crate) fn find(
    alloc: Global,
    stages: &mut Vec<Filling>,
    low: u32,
    array: bool,
    more: &Table,
    limits: &Limits,
) -> Result<Option<(Pair, Table)>, Memory>
    requires { length stages.old.items ≡ limits.now.stages }
    ensures same { stages.new.items ≡ stages.old.items }
    ensures none { result ≡ Ok None → (p : Pair) → Fits limits.now stages.old.items low array more.now.rows p → ⊥ }
    ensures some { IfOk result (λ o. IfSome o (λ x. Least (Fits limits.now stages.old.items low array more.now.rows) x.0 × TableAt stages.old.items more.now.rows x.0 x.1)) }
{
    for k in low..limits.stages {
        match find_in(alloc, &mut stages[k as usize], array, more, limits)? {
            Some((table, made)) => return Ok(Some((Pair { stage: k, table }, made))),
            None => {}
        }
    }
    Ok(None)
}
