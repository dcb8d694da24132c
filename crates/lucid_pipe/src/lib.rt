// The pipeline machine: stages with at most one packet in front of each. The caller may move packets in any order, but none overtakes
// another. Moving a packet takes no memory.
// Promises: each move (`enter`, `go`) has exactly its defined effect. Whatever moves were made, the cells and the sent events, once all
// packets have departed, are the same as if each packet had left before the next entered. When a caller shows a pipe to an observer
// (`Watch::see`), the observer sees the slots and the cells of that pipe.
// The files of specs/ to read are `Packets` and `Pipe` (a pipe, and how a packet enters and moves), `Settled` (the pipe once all packets in
// flight have departed), `Moves` (lists of moves), `Sights` (what a watch is shown), `Laws` (the laws for callers) and `Rows` (the stages,
// each with its cells and its packet). You need not read the rest: `Blocks`, `Slots`, `Outs`, `Views` and `InPlace` say how packets lie in
// memory, and proofs/ holds only proofs.
// Used by many crates. The promises of Copperfinch rest on the definitions of this crate (docs/TRUSTED.md). Bodies and proofs may change; a
// public clause may only get stronger.
#![tactic(auto)]

mod act;
mod block;
mod head;
mod laws;
mod moving;
mod passed;
mod pipe;
mod read;
mod sent;
mod sight;
mod slots;
mod stage;
mod watch;

pub use laws::{moves_are_passes, moves_as_rows, moves_keep};
pub use passed::{Busy, Passed, Stuck};
pub use pipe::Pipe;
pub use sight::Sight;
pub use watch::{MemWatch, NoWatch, Watch};
