// The limits file. Each line of `read_limits` is a line of the table.
ghost use Rattle.std.specs.Prelude.{IfOk};
ghost use Rattle.serde_json.specs.View.{view};
ghost use Rattle.lucid_conf.specs.Answers.{Answers, Gives};
ghost use Rattle.lucid_conf.specs.Kept.{AreLimits};
ghost use Rattle.lucid_conf.specs.Tables.{limits_read};

use crate::reading::{file, number, value_of};
use crate::{ConfError, Key};
use lucid_json::Value;
use std::alloc::Global;

/// The capacities of a target.
#[derive(Clone, Copy)]
pub struct Limits {
    /// Stages of the pipeline, 1 to 32.
    pub stages: u32,
    /// Tables of a stage, 1 to 64.
    pub tables: u32,
    /// Rows of a table, 1 to 1,024.
    pub rows: u32,
    /// Arrays of a stage, 1 to 64.
    pub arrays: u32,
    /// Calls of one array, 1 to 64.
    pub arms: u32,
    /// Bits that a packet carries, 1 to 1,048,576.
    pub bits: u64,
    /// Ticks from the last stage back to the first, 0 to 65,536.
    pub recirc: u64,
}

const KEYS: [Key; 7] = [
    Key::Stages,
    Key::Tables,
    Key::Rows,
    Key::Arrays,
    Key::Arms,
    Key::Bits,
    Key::Recirc,
];

/// Reads limits. Returns Ok exactly if the bytes are JSON that `limits_read` reads, with its result; `NotJson` exactly if they are no
/// JSON; `BadField` exactly if `limits_read` refuses, with its key (no key of this file has a place).
pub fn limits_of(alloc: Global, bytes: &[u8]) -> Result<Limits, ConfError>
    ensures answers { Answers result limits_read bytes.now }
    ensures ranges { IfOk result AreLimits }
{
    let value = value_of(alloc, bytes)?;
    let read = read_limits(&value);
    drop(value);
    read
}

fn read_limits(value: &Value) -> Result<Limits, ConfError>
    ensures { Gives result (limits_read (view value.now)) }
{
    file(value, &KEYS)?;
    let stages = number(value, Key::Stages, 1, 32, 12)? as u32;
    let tables = number(value, Key::Tables, 1, 64, 16)? as u32;
    let rows = number(value, Key::Rows, 1, 1_024, 64)? as u32;
    let arrays = number(value, Key::Arrays, 1, 64, 4)? as u32;
    let arms = number(value, Key::Arms, 1, 64, 8)? as u32;
    let bits = number(value, Key::Bits, 1, 1_048_576, 16_384)?;
    let recirc = number(value, Key::Recirc, 0, 65_536, 0)?;
    Ok(Limits {
        stages,
        tables,
        rows,
        arrays,
        arms,
        bits,
        recirc,
    })
}
