// The outcome of a step, apart from writing it, so that a step has one return for the pipe and one for the sink.
ghost use Rattle.std.specs.Prelude.{◌≡◌};
ghost use Rattle.lucid_drive.specs.Happened.{entry_of, happened_of};

use lucid_pipe::{Busy, Passed, Stuck};

/// The outcome of a step.
#[derive(Clone, Copy)]
pub(crate) enum Happened {
    /// No event was left.
    Nothing,
    /// The first slot was taken.
    Busy,
    /// The event of this number entered.
    Entered(u64),
    /// No packet was in this slot.
    Empty(usize),
    /// The slot behind this one was taken.
    Ahead(usize),
    /// The packet in this slot moved on.
    Went(usize),
    /// The packet in this slot came out.
    Left(usize, Passed),
    /// A cell of an array held this.
    Looked(u32, u64, u64),
}

/// Returns the outcome if a packet in slot `k` moved, or the reason why it did not.
pub(crate) fn told(k: usize, moved: Result<Option<Passed>, Stuck>) -> Happened
    ensures { result ≡ happened_of k moved }
{
    match moved {
        Err(Stuck::Empty) => Happened::Empty(k),
        Err(Stuck::Ahead) => Happened::Ahead(k),
        Ok(None) => Happened::Went(k),
        Ok(Some(passed)) => Happened::Left(k, passed),
    }
}

/// Returns the outcome if the event of this number entered, or if the first slot was taken.
pub(crate) fn told_entry(number: u64, came: Result<(), Busy>) -> Happened
    ensures { result ≡ entry_of number came }
{
    match came {
        Ok(()) => Happened::Entered(number),
        Err(_) => Happened::Busy,
    }
}
