// Events, and the outs of a handler.
use crate::Args;

/// The event numbered `id` among the declared events, with its arguments.
#[derive(Clone, Copy, Debug, PartialEq, Eq)]
pub struct Event {
    pub id: u32,
    pub args: Args,
}

/// The destination of a generated event: the switch that generates it, or the switch of that number.
#[derive(Clone, Copy, Debug, PartialEq, Eq)]
pub enum Target {
    Here,
    At(u64),
}

/// One thing that a handler sends out: an event after `delay` ticks, or the text numbered `form` with its arguments.
#[derive(Clone, Copy, Debug, PartialEq, Eq)]
pub enum Out {
    Gen {
        event: Event,
        delay: u64,
        to: Target,
    },
    Say {
        form: u32,
        args: Args,
    },
}
