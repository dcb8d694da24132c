// The part of a block besides its registers.
use crate::sent::Sent;
use lucid_base::{Args, Event};

/// The event, the tick and the switch at which a packet entered, and its outs so far.
#[derive(Drop)]
pub(crate) struct Head {
    pub(crate) event: Event,
    pub(crate) tick: u64,
    pub(crate) me: u32,
    pub(crate) sent: Sent,
}

impl Head {
    /// That of a block without a packet.
    pub(crate) fn new() -> Head {
        Head {
            event: Event {
                id: 0,
                args: Args::new(),
            },
            tick: 0,
            me: 0,
            sent: Sent::new(),
        }
    }
}
