// Packets of any kind that move through stages: each stage has cells of its own, and makes new cells and a new packet from these and a
// packet.
// Promises, as laws on functions that do nothing (specs/Picture, Places, Stream, Sights): for any order of moves, cells, places and leaving
// packets are those of whole passes in the order of entry.
// Definitions: Rows has stages with their packets, a whole pass and the settled state of a pipe. Moves has the moves: one packet moves, one
// enters, all move. Picture and Places determine the pipe by the entered events and the number of packets that traversed each stage. Stream
// and Sights are about pipes in which all packets move once a tick.
// Used by lucid_pipe, lucid_drive, lucid_net_laws and lucid_net. Promises of the program rest on its definitions
// (docs/TRUSTED.md). Proofs may change; a law may only get stronger.
#![tactic(auto)]

mod laws;

pub use laws::{moves_keep_the_picture, ticks_keep_the_picture};
