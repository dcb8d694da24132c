// A scenario after reading: the events of a network and their ticks.
use lucid_base::{Event, Items};

/// A link between two switches, which takes both directions.
#[derive(Clone, Copy)]
pub struct Link {
    pub a: u32,
    pub b: u32,
    /// Ticks that an event takes from one end to the other.
    pub latency: u64,
}

/// The link between two switches is down for departures at ticks from `from` to before `until`.
#[derive(Clone, Copy)]
pub struct Down {
    pub a: u32,
    pub b: u32,
    pub from: u64,
    pub until: u64,
}

/// An event of the file, and where and from which tick on it waits.
#[derive(Clone, Copy)]
pub struct FileEvent {
    pub at: u64,
    pub switch: u32,
    pub event: Event,
}

/// One step of a pipeline that is driven by hand.
#[derive(Clone, Copy)]
pub enum Step {
    /// The next event of the file enters.
    Enter,
    /// The packet in the slot of this number, from 0, goes on by one.
    Go(u32),
    /// The cell of the array of this number is shown.
    Look { array: u32, cell: u64 },
}

/// The content of a scenario file. The invariants of one that was read are `IsScene` in specs/Kept.antt.
#[derive(Drop)]
pub struct Scene {
    /// How many switches there are; they are numbered from 0.
    pub switches: u32,
    /// The tick before which the network runs, from tick 0.
    pub stop: u64,
    pub links: Items<Link>,
    pub down: Items<Down>,
    pub events: Items<FileEvent>,
    pub steps: Items<Step>,
}
