// The files that the rows of the table name.
use lucid_io::{MemFile, MemFiles};
use std::alloc::Global;
use std::process::Abort;

/// The name of a file, its text, and how often the text is repeated in it.
type TestFile = (&'static str, &'static str, usize);

const FILES: [TestFile; 18] = [
    // One array, in which each packet leaves a number.
    (
        "first",
        "global Array.t<<32>> last = Array.create(4);
event seen(int i, int n);
event pkt(int i);
handle pkt(int i) { Array.set(last, i, 7); generate seen(i, 7); }
",
        1,
    ),
    // More than one read gives.
    ("long", "\n", 5000),
    // Two arrays out of order.
    (
        "crossed",
        "global Array.t<<32>> x = Array.create(4);
global Array.t<<32>> y = Array.create(4);
event pkt(int i);
handle pkt(int i) { Array.set(y, i, 1); Array.set(x, i, 2); }
",
        1,
    ),
    // A function over a width.
    (
        "sized",
        "event out(int<<8>> a, int<<16>> b);
fun <<w>> int<<w>> inc(int<<w>> x) { return x + 1; }
event go();
handle go() { generate out(inc<<8>>(255), inc<<16>>(255)); }
",
        1,
    ),
    // One array in both branches.
    (
        "branches",
        "global Array.t<<32>> x = Array.create(2);
event out(int n);
event e(int v);
handle e(int v) { int n = 0; if (v == 0) { n = Array.get(x, 0); } else { n = Array.get(x, 1); } generate out(n); }
",
        1,
    ),
    // An event from one switch to another, and to one that does not exist.
    (
        "send",
        "event note(int n);
event send(int to, int n);
handle send(int to, int n) { generate Event.locate(note(n), to); generate Event.locate(note(n), 9); }
",
        1,
    ),
    (
        "linked",
        r#"{"switches":2,"stop":20,"links":[[0,1,5]],
"events":[{"at":0,"switch":0,"name":"send","args":[1,7]},{"at":8,"switch":1,"name":"note","args":[8]}]}"#,
        1,
    ),
    // An array whose cell is sent, and places for its two nodes.
    (
        "ask",
        "global Array.t<<32>> x = Array.create(4);
event seen(int n);
event ask();
handle ask() { generate seen(Array.get(x, 0)); }
",
        1,
    ),
    (
        "asked",
        r#"{"stop":30,"events":[{"at":0,"switch":0,"name":"ask","args":[]},{"at":0,"switch":0,"name":"ask","args":[]}]}"#,
        1,
    ),
    ("places", r#"{"nodes":[[0,1],[1,0]]}"#, 1),
    // Two arrays, of which the second gets the result of the first, and one pipe that is driven by hand.
    (
        "sums",
        "global Array.t<<32>> x = Array.create(2);
global Array.t<<32>> y = Array.create(2);
memop plus(int stored, int a) { return stored + a; }
event hit(int v);
handle hit(int v) { int n = Array.update(x, 0, plus, v, plus, v); Array.set(y, 0, n); }
",
        1,
    ),
    (
        "steps",
        r#"{"stop":1,"events":[{"at":0,"switch":0,"name":"hit","args":[3]},{"at":0,"switch":0,"name":"hit","args":[4]}],
"steps":[["enter"],["enter"],["go",0],["enter"],["look","y",0],["go",1],["look","y",0]]}"#,
        1,
    ),
    // Counts in an array, and two events that enter one after another.
    (
        "hits",
        "global Array.t<<32>> hits = Array.create(4);
memop plus(int stored, int x) { return stored + x; }
event seen(int i, int n);
event pkt(int i);
handle pkt(int i) { int n = Array.update(hits, i, plus, 1, plus, 1); generate Event.delay(seen(i, n), 10); }
",
        1,
    ),
    (
        "twice",
        r#"{"stop":30,"events":[{"at":0,"switch":0,"name":"pkt","args":[1]},{"at":0,"switch":0,"name":"pkt","args":[1]}]}"#,
        1,
    ),
    // Limits: none that is named, and fewer stages.
    ("default", "{}", 1),
    ("two", r#"{"stages":2,"recirc":1}"#, 1),
    ("three", r#"{"stages":3}"#, 1),
    // No JSON.
    ("bad", "?", 1),
];

/// Whether a file has the name.
pub(crate) fn is_file(word: &str) -> bool {
    is_among(&FILES, word)
}

fn is_among(files: &[TestFile], word: &str) -> bool {
    files.iter().any(|(name, _, _)| *name == word)
}

/// All of them, in memory. The opening or the read of this number fails.
pub(crate) fn files(rt: &impl Abort, alloc: Global, fault: u64) -> MemFiles {
    let held = held(rt, alloc, &FILES);
    let fails = vec![in alloc; fault].expect(rt, "memory");
    MemFiles::new(held, fails)
}

fn held(rt: &impl Abort, alloc: Global, files: &[TestFile]) -> Vec<MemFile> {
    let mut held = Vec::new(alloc);
    for file in files {
        let file = made(rt, alloc, *file);
        held.push(file).expect(rt, "memory");
    }
    held
}

fn made(rt: &impl Abort, alloc: Global, file: TestFile) -> MemFile {
    let (name, text, count) = file;
    let mut bytes = Vec::new(alloc);
    for _ in 0..count {
        bytes
            .extend_from_slice(text.as_bytes())
            .expect(rt, "memory");
    }
    let name = String::from_str(alloc, name).expect(rt, "memory");
    MemFile { name, bytes }
}
