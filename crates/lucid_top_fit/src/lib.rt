// From a program to its placed code: inlining, normal form, passes in boxes, and first fit or audited places of a file. Each part gives the
// answer of its definition, and otherwise the first cause (specs/Fit, specs/Placing). The passes run exactly on the normal form
// (specs/Passes). For any passes the placed code represents the program: every event through it has the effect of the program. If each pass
// keeps nodes after their reads, a node has no place only because no stage has room for it.
// Used by lucid_top, lucid_top_laws and lucid_main. Promises of the program rest on its definitions (docs/TRUSTED.md). Bodies and proofs
// may change; a public clause may only get stronger.
#![tactic(auto)]

mod causes;
mod law;
mod layout;
mod passes;
mod placement;
mod room;

pub use layout::{Fitting, fitted, placed};
pub use passes::{Composition, composed};
pub use placement::{audited, counted, plan};
pub use room::programs_lack_room;
