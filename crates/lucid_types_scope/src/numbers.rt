// Counts as numbers of 32 bits. No memory holds more things than there are numbers, so a count past the last one is reported as out of
// memory.
ghost use Rattle.std.specs.Prelude.{◌≡◌, ◌+◌, IfOk};

use lucid_base::Memory;

/// Returns the number of the next item of a list of this length.
pub fn number(len: usize) -> Result<u32, Memory>
    ensures { IfOk result (λ number. number ≡ len) }
{
    match u32::try_from(len) {
        Ok(number) => Ok(number),
        Err(_) => Err(Memory),
    }
}

/// Returns the number after this one.
pub fn next(number: u32) -> Result<u32, Memory>
    ensures { IfOk result (λ next. next ≡ number + 1) }
{
    match number.checked_add(1) {
        Some(next) => Ok(next),
        None => Err(Memory),
    }
}
