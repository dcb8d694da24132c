// The texts of a run: blocks, cells and endings. All of a text is written, or a proper prefix of it if the sink's count of faults rose in
// that call. Pieces are buffered, and each call flushes its own buffer. The texts are defined in specs/, beside their formats. Nothing here
// allocates.
// Used by many crates. Promises of the program rest on its definitions (docs/TRUSTED.md). It changes only to correct a fault: README.md,
// *Frozen*.
#![tactic(auto)]

mod block;
mod cell;
mod cells;
mod ending;
mod filled;
mod pieces;

pub use block::put_block;
pub use cells::{ArrayCells, put_cells};
pub use ending::put_ending;
pub use pieces::{Piece, put_numbered, put_pieces};
