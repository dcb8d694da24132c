// Files that are read and sinks that are written, as every program above sees them: two traits whose clauses define the effect of each call
// on the bytes and on a count of faults; in-memory fakes with fully specified contents; and OS adapters whose contents are unspecified. A
// call returns a fault only if the count of its object rose in that call.
// Used by many crates. Promises of the program rest on its definitions (docs/TRUSTED.md). It changes only to correct a fault: README.md,
// *Frozen*.
#![tactic(auto)]

mod counts;
mod disk;
mod files;
mod history;
mod machine;
mod mem_files;
mod mem_sink;
mod past;
mod reading;
mod real_files;
mod real_out;
mod room;
mod sink;
mod writing;

pub use counts::rises_are_seen;
pub use disk::Disk;
pub use files::{Failed, Files};
pub use history::histories_agree;
pub use machine::{RealDisk, RealStream};
pub use mem_files::{MemFile, MemFiles};
pub use mem_sink::MemSink;
pub use reading::{Take, read_all};
pub use real_files::RealFiles;
pub use real_out::RealOut;
pub use room::{ROOM, Room, hold, release};
pub use sink::Sink;
pub use writing::{WriteFault, put_all};
