// The one call of the program, `lucid`, with its contract.
// Promises: docs/PROMISES.md explains each clause. The files that the words name are read in word order, and the answer for the words and the
// contents is written. One definition, `Ended` of specs/Call.antt, covers files, streams, passes, the watch, the status and the error line.
// The output of pipelines is the log of handlers that run whole, as specs/Headline.antt says.
// A command is one file in commands/, and a line in each table of specs/Answer.
// Used by lucid_top_laws and lucid_main. Promises of the program rest on its definitions (docs/TRUSTED.md). Bodies and proofs may change; a
// public clause may only get stronger.
#![tactic(auto)]

mod causes;
mod commands;
mod example;
mod law;
mod premises;
mod room;
mod top;

pub use example::answers_are_there;
pub use lucid_top_words::{Status, faults_alone_are_free};
pub use premises::premises_are_exact;
pub use room::commands_lack_room;
pub use top::lucid;
