// Events that wait, and the keys by which they take their turns.
use lucid_base::Event;

/// When an event takes its turn at its switch: keys compare field by field, false before true.
#[derive(Clone, Copy, Debug, PartialEq, Eq, PartialOrd, Ord)]
pub struct PendKey {
    /// The tick from which on it may enter.
    pub ready: u64,
    /// Whether a handler made it: events of the file go first.
    pub made: bool,
    /// The tick at which its parent entered, 0 for one of the file.
    pub tick: u64,
    /// The switch at which its parent entered, 0 for one of the file.
    pub parent: u32,
    /// Its place among its parent's outs, or in the file.
    pub index: u32,
}

/// An event that waits at a switch.
#[derive(Clone, Copy, Debug, PartialEq, Eq)]
pub struct Pending {
    pub key: PendKey,
    pub switch: u32,
    pub event: Event,
}
