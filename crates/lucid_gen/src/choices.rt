// The random choices for a program and for a scenario.
ghost use Rattle.std.specs.Prelude.{◌≡◌};
ghost use Rattle.lucid_gen.specs.Choices as spec;

use crate::numbers::Numbers;

/// A handler's use of an array.
#[derive(Clone, Copy)]
pub(crate) enum Call {
    Nothing,
    /// Adds the cell to `v`.
    Get,
    /// Adds `v` to the cell.
    Set,
    /// Both, and 1 more in place of `v` for the answer; only where `v` is above this number.
    Update { above: u64 },
}

/// The event that a handler generates: its number, its delay, and whether it goes to the other switch of a pair.
#[derive(Clone, Copy)]
pub(crate) struct Generate {
    pub(crate) crosses: bool,
    pub(crate) event: u64,
    pub(crate) delay: u64,
}

/// An event of a scenario: when and where it is ready, its number, and its arguments.
#[derive(Clone, Copy)]
pub(crate) struct Entry {
    pub(crate) at: u64,
    pub(crate) switch: u64,
    pub(crate) event: u64,
    pub(crate) index: u64,
    pub(crate) value: u64,
}

/// The size of an array, 1 to 64.
pub(crate) fn draw_size(numbers: &mut Numbers) -> u64
    ensures gives { result ≡ (spec.size numbers.old.state).gives }
    ensures after { numbers.new.state ≡ (spec.size numbers.old.state).after }
{
    1 + numbers.draw(64)
}

/// Draws a handler's use of the next array.
pub(crate) fn draw_call(numbers: &mut Numbers) -> Call
    ensures gives { result ≡ (spec.call numbers.old.state).gives }
    ensures after { numbers.new.state ≡ (spec.call numbers.old.state).after }
{
    match numbers.draw(4) {
        0 => Call::Nothing,
        1 => Call::Get,
        2 => Call::Set,
        _ => Call::Update {
            above: numbers.draw(1000),
        },
    }
}

/// The event that a handler generates.
pub(crate) fn draw_generate(numbers: &mut Numbers) -> Generate
    ensures gives { result ≡ (spec.generated numbers.old.state).gives }
    ensures after { numbers.new.state ≡ (spec.generated numbers.old.state).after }
{
    Generate {
        crosses: numbers.draw(2) == 1,
        event: numbers.draw(8),
        delay: numbers.draw(100),
    }
}

/// An event of a scenario.
pub(crate) fn draw_entry(numbers: &mut Numbers) -> Entry
    ensures gives { result ≡ (spec.entry numbers.old.state).gives }
    ensures after { numbers.new.state ≡ (spec.entry numbers.old.state).after }
{
    Entry {
        at: numbers.draw(100),
        switch: numbers.draw(4),
        event: numbers.draw(8),
        index: numbers.draw(1000),
        value: numbers.draw(1000),
    }
}
