// The stages that nodes at their places make.
ghost use Rattle.std.specs.Prelude.{◌≡◌, ◌<◌, ◌^◌, ℕ, true, length, map, IfOk, IfErr};
ghost use Rattle.std.specs.List.{AllByRecursion, range_with_len};
ghost use Rattle.lucid_conf.specs.Kept.{AreLimits};
ghost use Rattle.lucid_stages.specs.Marks.{Within};
ghost use Rattle.lucid_audit.specs.Audit as spec;
ghost use Rattle.lucid_audit.specs.Refused.{PassesIn, Passes};

use crate::AuditError;
use crate::crowd::arrays_at;
use crate::growth::table_at;
use lucid_base::{Items, Memory};
use lucid_code::Code;
use lucid_conf::Limits;
use lucid_stages::{Seat, Stage};
use lucid_tables::Table;
use std::alloc::Global;

/// Returns how many tables a stage has: one more than the number of the last that has a node.
fn tables_in(seats: &[Seat], k: u32, limits: &Limits) -> u32
    requires limits { AreLimits limits.now }
    requires there { AllByRecursion (λ s. spec.IsThere limits.now s.at) seats.now }
    ensures { result ≡ spec.tables_in k seats.now }
{
    let mut count = 0;
    for seat in seats {
        if seat.at.stage == k {
            count = (seat.at.table + 1).max(count);
        }
    }
    count
}

/// Returns the tables of a stage, or the first that has too many rows.
fn tables(
    alloc: Global,
    code: &Code,
    seats: &[Seat],
    k: u32,
    limits: &Limits,
) -> Result<Items<Table>, AuditError>
    requires ops { AllByRecursion (λ s. Within (length code.now.ops) s.node.ops) seats.now }
    requires limits { AreLimits limits.now }
    requires there { AllByRecursion (λ s. spec.IsThere limits.now s.at) seats.now }
    ensures tables { IfOk result (λ tables. tables ≡ map (spec.table_at code.now.ops seats.now k) (range_with_len 0 (spec.tables_in k seats.now))) }
    ensures few { IfOk result (λ tables. (t : ℕ) → t < spec.tables_in k seats.now → spec.rows_are_few code.now.ops limits.now seats.now k t ≡ true) }
    ensures err { IfErr result (PassesIn code.now.ops limits.now seats.now k) }
{
    let count = tables_in(seats, k, limits);
    let mut tables = Items::new(alloc);
    for t in 0..count {
        match table_at(alloc, code, seats, k, t, limits.rows as usize)? {
            None => return Err(AuditError::Rows { stage: k, table: t }),
            Some(table) => tables.push(table)?,
        }
    }
    Ok(tables)
}

/// Returns the stages, or the first table that has too many rows.
pub(crate) fn stages(
    alloc: Global,
    code: &Code,
    seats: &[Seat],
    limits: &Limits,
) -> Result<Vec<Stage>, AuditError>
    requires ops { AllByRecursion (λ s. Within (length code.now.ops) s.node.ops) seats.now }
    requires few { length seats.now < 2 ^ 32 }
    requires limits { AreLimits limits.now }
    requires there { AllByRecursion (λ s. spec.IsThere limits.now s.at) seats.now }
    ensures stages { IfOk result (λ stages. stages.items ≡ spec.stages code.now.ops limits.now seats.now) }
    ensures few { IfOk result (λ stages. (k t : ℕ) → k < limits.now.stages → t < spec.tables_in k seats.now → spec.rows_are_few code.now.ops limits.now seats.now k t ≡ true) }
    ensures err { IfErr result (Passes code.now.ops limits.now seats.now) }
{
    let mut stages = Vec::new(alloc);
    for k in 0..limits.stages {
        let tables = tables(alloc, code, seats, k, limits)?;
        stages.push(Stage {
            tables,
            arrays: arrays_at(seats, k),
        })?;
    }
    Ok(stages)
}
