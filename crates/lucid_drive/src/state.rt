// How far a drive is.
ghost use Rattle.std.specs.Prelude.{◌≡◌, false};

/// The number of steps done, of moves of the oldest packet after the last of them, and of events that entered. `StandsAt` relates it to a
/// pipe.
#[derive(Clone, Copy)]
pub struct DriveState {
    pub(crate) done: u64,
    pub(crate) flushed: u64,
    pub(crate) entered: u64,
    pub(crate) failed: bool,
}

impl DriveState {
    /// Returns the state before the first step.
    pub fn new() -> DriveState
        ensures { result ≡ record { done = 0; flushed = 0; entered = 0; failed = false } }
    {
        DriveState {
            done: 0,
            flushed: 0,
            entered: 0,
            failed: false,
        }
    }

    /// Returns the number of steps done.
    pub fn done(&self) -> u64
        ensures { result ≡ self.now.done }
    {
        self.done
    }

    /// Returns the number of moves of the oldest packet, which stops at the greatest number of 64 bits.
    pub fn flushed(&self) -> u64
        ensures { result ≡ self.now.flushed }
    {
        self.flushed
    }

    /// Returns the number of events that entered.
    pub fn entered(&self) -> u64
        ensures { result ≡ self.now.entered }
    {
        self.entered
    }

    /// Returns whether a step or a flush returned an error. Then the pipe is at no state any more.
    pub fn failed(&self) -> bool
        ensures { result ≡ self.now.failed }
    {
        self.failed
    }
}
