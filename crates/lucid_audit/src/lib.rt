// Placements by hand or by another tool: read from a file, and audited.
// Promises: `plan_of` reads a placement file, or reports its first fault. `audit` accepts a placement, and returns the placed code, exactly
// if three things hold. The whole code keeps the limits on its operations, on its bits and on the calls of each array. Each node is in a
// later stage than the nodes that it reads from. No table and no stage exceeds a limit. Otherwise `audit` returns the first cause. The
// same code, limits and placement always give the same result.
// Read specs/PlanFile, specs/Audit and specs/Refused.
// Used by lucid_layout_laws, lucid_top_fit, lucid_top and lucid_top_laws. Promises of Copperfinch rest on the definitions of this crate
// (docs/TRUSTED.md). Bodies and proofs may change; a public clause may only get stronger.
#![tactic(auto)]

mod auditing;
mod crowd;
mod early;
mod error;
mod examples;
mod growth;
mod law;
mod laws;
mod plan;
mod plan_file;
mod ranges;
mod seating;
mod staging;

pub use auditing::audit;
pub use error::AuditError;
pub use laws::audits_are_one;
pub use plan::{Plan, PlanError, PlanKey};
pub use plan_file::plan_of;
