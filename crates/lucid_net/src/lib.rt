// A network of switches, run tick by tick, in one of two modes. In the first, each handler runs whole. In the second, each switch has a
// pipeline, on which packets overlap.
// In a tick the switches take turns by number. A switch takes the event that was ready first (the least key), and the events that its
// handler sends are queued or lost. In the first mode the handler runs at once, and its log block is written (src/turns.rt). In the
// second, the event enters as a packet, packets move one stage a tick, and the block is written when the packet departs (src/pipes.rt).
// Promises: both modes write the log that lucid_net_spec defines, or a prefix of it if a write or an allocation failed. A caller may pass a
// watch: after each tick it is shown the slots and the cells of each pipeline. A network with pipelines, once made, takes memory only for
// queued events. Cells are updated in place.
// The files of specs/ to read are `Seen` (the model of a network), `Holds` (the pipeline of a switch), `Rows` (its stages, each with its
// cells and its packet), `Sights` (what a watch is shown), `Writes` (the written text) and `Wanting` (when memory may run out). The others
// describe functions within the crate.
// Used by lucid_top_pipes, lucid_top and lucid_top_laws. The promises of Copperfinch rest on the definitions of this crate
// (docs/TRUSTED.md). Bodies and proofs may change; a public clause may only get stronger.
#![tactic(auto)]

mod ending;
mod error;
mod law;
mod leaving;
mod links;
mod machines;
mod moving;
mod net;
mod pipes;
mod sending;
mod starting;
mod switches;
mod turns;
mod ways;
mod windows;
mod world;

pub use error::NetError;
pub use net::Net;
