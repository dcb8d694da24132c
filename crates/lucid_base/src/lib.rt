// The base types of all crates: numbers of a stated width, names, events and outs. Each type keeps its bounds as a fact of the type, and
// each operation equals its formula in specs/. Depends only on std and libraries of list types and short vectors. Only the making of a name
// and of cells allocates.
// Used by many crates. Promises of the program rest on its definitions (docs/TRUSTED.md). It changes only to correct a fault: README.md,
// *Frozen*.
#![tactic(auto)]

mod args;
mod array;
mod bits;
mod cells;
mod event;
mod hash;
mod id;
mod memory;
mod memory_alu;
mod number;
mod ops;
mod outs;
mod span;
mod steps;
mod width;

pub use args::Args;
pub use array::{ArrayDef, ArrayName};
pub use bits::Bits;
pub use cells::{Cells, Touched};
pub use event::{Event, Out, Target};
pub use hash::{hash_bits, hash_byte, hash_start, hash_word};
pub use id::Id;
pub use memory::Memory;
pub use memory_alu::{MemAlu, MemArg, MemSide};
pub use ops::{BinOp, CmpOp, UnOp, apply_bin, apply_un, cast, compare};
pub use outs::Outs;
pub use span::Span;
pub use sqlite_items::{Boxed, Items};
pub use steps::{Steps, uncounted};
pub use width::Width;
