// Defines three things: the core (a program after elaboration), the rules that make a core valid, and the meaning of a core, which is the
// effect of one event whose handler runs whole.
// Promises: every value of type `Core` or `Flat` is valid (specs/Valid.antt). The laws of laws.rt hold for all cells, ticks, switches and events.
// The meaning is the function `step` of specs/Step.antt, over specs/Meaning.antt (expressions and statements) and specs/Computations.antt
// (their effects on the state). The interpreter is the crate lucid_core_run.
// Used by many crates. The promises of Copperfinch rest on the definitions of this crate (docs/TRUSTED.md). It changes only to correct a
// fault, as README.md of this crate says under *Frozen*.
#![tactic(auto)]

mod body;
mod cells;
mod defs;
mod dismantle;
mod ending;
mod fits;
mod laws;
mod program;

pub use body::{Expr, Stmt, Touch};
pub use cells::NewCells;
pub use defs::{EventDef, FunDef, HandlerDef, MemopDef};
pub use ending::Ending;
pub use laws::{
    cells_stay_fit, flat_cells_stay_fit, flat_one_handler, flat_outs_fit, flat_widths_are_static,
    one_handler, outs_are_of_steps, outs_fit, widths_are_static,
};
pub use lucid_base::{ArrayDef, ArrayName, Cells};
pub use program::{Core, Flat};
