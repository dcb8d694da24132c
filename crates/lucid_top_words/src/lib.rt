// The words of a call, and its outcome: the command, the files that the words name, read in word order, and the reason for missing output,
// with its status and its line. A part of the work `Prepares` something or refuses, and one part follows another (specs/Outcome). The words
// are read by place (specs/Command). The files are read as specs/Files defines, from which all claims about statuses 2 and 3 follow. The
// line of a refusal is the one of specs/Refusal.
// Used by lucid_top_program, lucid_top_fit, lucid_top_pipes, lucid_top, lucid_top_laws and lucid_main. Promises of the program rest on its
// definitions (docs/TRUSTED.md). Bodies and proofs may change; a public clause may only get stronger.
#![tactic(auto)]

mod command;
mod files;
mod line;
mod no_fit;
mod number;
mod placement;
mod refusal;
mod sizes;
mod status;
mod word;

pub use command::{Command, GenKind, NamedFile};
pub use files::read_files;
pub use line::refuse;
pub use no_fit::NoFit;
pub use number::arguments;
pub use placement::BadPlacement;
pub use refusal::Refusal;
pub use sizes::BadSizes;
pub use status::{Status, faults_alone_are_free};
pub use word::word_bytes;
