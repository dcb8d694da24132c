// The counts of code, and whether they keep their limits.
ghost use Rattle.std.specs.Prelude.{◌≡◌, ◌+◌, ◌<◌, ◌≤◌, ◌^◌, ℕ, None, Ok, length, slice_index, IfOk, IfErr, IfSome, OnOk};
ghost use Rattle.lucid_stages.specs.Counts.{bits_of, width_of, count_of, FirstCrowded, CountsFail, CountsFit};

use crate::CountError;
use crate::node_works::calls_of;
use lucid_base::{Memory, Width};
use lucid_code::Code;
use lucid_conf::Limits;
use lucid_tables::registers_of;
use std::alloc::Global;

/// The most operations of code that is placed.
const MOST_OPS: usize = 4_096;

/// Whether the counts of the code keep their limits: its operations, then its bits, then the calls of each array (`CountsFit` of
/// specs/Counts). The first that doesn't is the error (`CountsFail`).
pub fn test_counts(alloc: Global, code: &Code, limits: &Limits) -> Result<(), CountError>
    ensures ok { OnOk result (CountsFit code.now limits.now) }
    ensures err { IfErr result (CountsFail code.now limits.now) }
{
    let ops = code.ops().len();
    if ops > MOST_OPS {
        return Err(CountError::Ops(ops as u64));
    }
    let bits = bits_of(alloc, code)?;
    if bits > limits.bits {
        return Err(CountError::Fields(bits));
    }
    match first_crowded(alloc, code, limits.arms)? {
        None => Ok(()),
        Some(array) => Err(CountError::Arms(array)),
    }
}

/// The bits that a packet carries: the widths of the inputs and of each field that some operation reads or writes.
pub fn bits_of(alloc: Global, code: &Code) -> Result<u64, Memory>
    ensures { IfOk result (λ n. n ≡ bits_of code.now) }
{
    let registers = registers_of(alloc, code)?;
    Ok(width_of(code.fields(), registers.as_slice()))
}

/// The sum of these fields' widths.
fn width_of(widths: &[Width], fields: &[u32]) -> u64
    requires { length fields.now < 2 ^ 32 }
    ensures { result ≡ width_of widths.now fields.now }
{
    let mut sum = 0u64;
    for field in fields {
        sum += width_at(widths, *field);
    }
    sum
}

/// The width of a field, and 0 if there is none of that number.
fn width_at(widths: &[Width], field: u32) -> u64
    ensures value { result ≡ slice_index widths.now field }
    ensures few { result ≤ 64 }
{
    match widths.get(field as usize) {
        None => 0,
        Some(width) => u64::from(width.get()),
    }
}

/// The first array that has more calls than `most`. More arrays than 32 bits can number count as out of memory.
fn first_crowded(alloc: Global, code: &Code, most: u32) -> Result<Option<u32>, Memory>
    ensures none { result ≡ Ok None → (g : ℕ) → g < length code.now.arrays → count_of code.now g ≤ most }
    ensures some { IfOk result (λ found. IfSome found (FirstCrowded code.now most)) }
{
    let arrays = match u32::try_from(code.arrays().len()) {
        Ok(arrays) => arrays,
        Err(_) => return Err(Memory),
    };
    for array in 0..arrays {
        if calls_of(alloc, code.ops(), array)?.len() > most as usize {
            return Ok(Some(array));
        }
    }
    Ok(None)
}
