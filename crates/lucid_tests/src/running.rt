// Calls of the program over files and sinks in memory, of which chosen calls and writes fail.
use crate::files::files;
use crate::lists::{PROGRAM, list};
use lucid_io::MemSink;
use lucid_pass::Pass;
use lucid_pipe::Watch;
use lucid_top::{Status, lucid};
use std::alloc::Global;
use std::process::Abort;

/// The number of a call that nothing makes.
pub(crate) const NEVER: u64 = u64::MAX;

/// The failures, each by its number from 0: an opening or a read of a file, a write of the output, a write of the line of errors.
#[derive(Clone, Copy)]
pub(crate) struct Faults {
    pub(crate) read: u64,
    pub(crate) write: u64,
    pub(crate) tell: u64,
}

/// Nothing fails.
pub(crate) const NONE: Faults = Faults {
    read: NEVER,
    write: NEVER,
    tell: NEVER,
};

/// The results of a call.
#[derive(Drop)]
pub(crate) struct Ran {
    pub(crate) status: Status,
    pub(crate) out: MemSink,
    pub(crate) err: MemSink,
}

/// More bytes than any call here writes.
const ROOM: usize = 8192;

/// Runs the call of these words, with these faults and these passes, over a watch.
pub(crate) fn run<V: Watch>(
    rt: &impl Abort,
    alloc: Global,
    line: &str,
    faults: Faults,
    passes: &mut Vec<Box<dyn Pass>>,
    watch: &mut V,
) -> Ran {
    let words = words(rt, alloc, line);
    let mut files = files(rt, alloc, faults.read);
    let mut out = sink(rt, alloc, faults.write);
    let mut err = sink(rt, alloc, faults.tell);
    let status = lucid(
        alloc,
        words.as_slice(),
        &mut files,
        &mut out,
        &mut err,
        passes,
        watch,
    );
    drop(files);
    drop(words);
    Ran { status, out, err }
}

/// Like `run`, with the passes of the program.
pub(crate) fn run_watched<V: Watch>(
    rt: &impl Abort,
    alloc: Global,
    line: &str,
    faults: Faults,
    watch: &mut V,
) -> Ran {
    let mut passes = list(rt, alloc, &PROGRAM);
    let ran = run(rt, alloc, line, faults, &mut passes, watch);
    drop(passes);
    ran
}

/// A sink whose write of this number fails.
fn sink(rt: &impl Abort, alloc: Global, fault: u64) -> MemSink {
    let fails = vec![in alloc; fault].expect(rt, "memory");
    MemSink::new(alloc, ROOM, fails).expect(rt, "memory")
}

fn words(rt: &impl Abort, alloc: Global, line: &str) -> Vec<String> {
    let mut words = Vec::new(alloc);
    for word in line.split(' ') {
        if !word.is_empty() {
            let word = String::from_str(alloc, word).expect(rt, "memory");
            words.push(word).expect(rt, "memory");
        }
    }
    words
}
