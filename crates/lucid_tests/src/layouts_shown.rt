// The result of `place` as a text: for each table its stage, its number and the operations of each row, and for each stage its arrays.
use lucid_code::Code;
use lucid_conf::limits_of;
use lucid_layout::{FitError, place};
use lucid_tables::{Row, StageCode, Table};
use std::alloc::Global;
use std::process::Abort;

fn put(rt: &impl Abort, text: &mut String, part: &str) {
    text.push_str(part).expect(rt, "memory");
}

fn put_number(rt: &impl Abort, text: &mut String, number: u64) {
    write!(text, "{number}").expect(rt, "memory");
}

fn put_row(rt: &impl Abort, text: &mut String, row: &Row) {
    put(rt, text, "[");
    for op in row.ops.as_slice() {
        put(rt, text, " ");
        put_number(rt, text, u64::from(*op));
    }
    put(rt, text, " ]");
}

fn put_table(rt: &impl Abort, text: &mut String, stage: usize, number: usize, table: &Table) {
    put_number(rt, text, stage as u64);
    put(rt, text, ".");
    put_number(rt, text, number as u64);
    put(rt, text, " ");
    for row in table.rows.as_slice() {
        put_row(rt, text, row);
    }
    put(rt, text, "; ");
}

fn put_stage(rt: &impl Abort, text: &mut String, at: usize, stage: &StageCode) {
    let tables = stage.tables.as_slice();
    for number in 0..tables.len() {
        put_table(rt, text, at, number, &tables[number]);
    }
    for array in stage.arrays.as_slice() {
        put(rt, text, "array ");
        put_number(rt, text, u64::from(*array));
        put(rt, text, "; ");
    }
}

fn put_stages(rt: &impl Abort, text: &mut String, stages: &[StageCode]) {
    for at in 0..stages.len() {
        put_stage(rt, text, at, &stages[at]);
    }
}

fn put_cause(rt: &impl Abort, text: &mut String, error: FitError) {
    let (cause, number) = match error {
        FitError::Ops(n) => ("ops ", n),
        FitError::Fields(n) => ("bits ", n),
        FitError::Arms(array) => ("arms ", u64::from(array)),
        FitError::Node(node) => ("node ", u64::from(node)),
        FitError::Memory => ("memory ", 0),
    };
    put(rt, text, cause);
    put_number(rt, text, number);
}

fn put_layout(rt: &impl Abort, alloc: Global, text: &mut String, code: &Code, limits: &str) {
    match limits_of(alloc, limits.as_bytes()) {
        Err(_) => {}
        Ok(limits) => match place(alloc, code, &limits) {
            Err(error) => put_cause(rt, text, error),
            Ok(placed) => {
                put_stages(rt, text, placed.stages());
                drop(placed);
            }
        },
    }
}

/// Returns whether the result of `place` for code within the limits of a text is this; none is for limits that are not valid.
pub(crate) fn is_laid(
    rt: &impl Abort,
    alloc: Global,
    code: &Code,
    limits: &str,
    expected: &str,
) -> bool {
    let mut text = String::new(alloc);
    put_layout(rt, alloc, &mut text, code, limits);
    let is_laid = text.as_str() == expected;
    drop(text);
    is_laid
}
