// Lists of passes that a caller hands to the program. A program that skips a pass, runs the list in another order, counts what a pass removes
// twice, or writes before all passes have run fails here.
use crate::lists::{Listed, PROGRAM, list};
use crate::running::{NONE, Ran, run};
use lucid_pass::Pass;
use lucid_pipe::NoWatch;
use lucid_top::Status;
use std::alloc::Global;
use std::process::Abort;

/// The passes of a list, how many calls it serves, how each of them ends, its output and its line of errors, and then the name of each pass
/// and how many operations it has removed.
type ListRow = (
    &'static [Listed],
    usize,
    Status,
    &'static str,
    &'static str,
    &'static [(&'static str, u64)],
);

/// Layouts of a program with nine operations, of which nobody reads the first.
const ROWS: [ListRow; 3] = [
    // A pass of the caller, which gives the code itself, has its line.
    (
        &[Listed::Same, Listed::Dead],
        1,
        Status::Ok,
        "pass same removed 0
pass dead removed 1
ops 8 bits 289 nodes 7
stage 0 table 0 rows 1 ops 1
stage 1 table 0 rows 2 ops 2 arrays x
stage 2 table 0 rows 2 ops 2
stage 3 table 0 rows 2 ops 2
stage 4 table 0 rows 1 ops 1
",
        "",
        &[("same", 0), ("dead", 1)],
    ),
    // One list serves two calls, and counts on.
    (
        &PROGRAM,
        2,
        Status::Ok,
        "pass fold removed 0
pass copies removed 0
pass dead removed 3
pass direct removed 1
ops 5 bits 224 nodes 4
stage 0 table 0 rows 3 ops 2 arrays x
stage 1 table 0 rows 3 ops 2
stage 2 table 0 rows 1 ops 1
",
        "",
        &[("fold", 0), ("copies", 0), ("dead", 6), ("direct", 2)],
    ),
    // A pass that runs out of memory ends the call, and the passes before it have counted.
    (
        &[Listed::Dead, Listed::Failing, Listed::Copies],
        1,
        Status::Memory,
        "",
        "memory\n",
        &[("dead", 1), ("same", 0), ("copies", 0)],
    ),
];

/// Returns whether these are the passes, and each has removed its number of operations.
fn have_removed(passes: &[Box<dyn Pass>], removed: &[(&str, u64)]) -> bool {
    for at in 0..passes.len() {
        if removed.len() <= at {
            return false;
        }
        let (name, count) = removed[at];
        let pass = &passes[at];
        if pass.name().bytes() != name.as_bytes() || pass.removed() != count {
            return false;
        }
    }
    passes.len() == removed.len()
}

/// Makes a call with this list, and returns whether it ends as the row says.
fn serves(rt: &impl Abort, alloc: Global, row: ListRow, passes: &mut Vec<Box<dyn Pass>>) -> bool {
    let (_, _, status, out, err, _) = row;
    let ran = run(
        rt,
        alloc,
        "layout branches default",
        NONE,
        passes,
        &mut NoWatch,
    );
    let serves = ran.status == status
        && ran.out.bytes() == out.as_bytes()
        && ran.err.bytes() == err.as_bytes();
    drop(ran);
    serves
}

/// Returns whether this list serves all calls of the row.
fn serves_all(
    rt: &impl Abort,
    alloc: Global,
    row: ListRow,
    passes: &mut Vec<Box<dyn Pass>>,
) -> bool {
    for _call in 0..row.1 {
        if !serves(rt, alloc, row, passes) {
            return false;
        }
    }
    have_removed(passes.as_slice(), row.5)
}

/// Returns whether the list of the row serves its calls.
fn is_served(rt: &impl Abort, alloc: Global, row: ListRow) -> bool {
    let mut passes = list(rt, alloc, row.0);
    let is_served = serves_all(rt, alloc, row, &mut passes);
    drop(passes);
    is_served
}

fn all_are_served(rt: &impl Abort, alloc: Global, rows: &[ListRow]) {
    for row in rows {
        assert!(rt; is_served(rt, alloc, *row), "{}", row.3);
    }
}

#[test]
fn lists_of_the_caller_serve_their_calls(rt: HostRuntime) {
    all_are_served(&rt, rt.alloc(), &ROWS);
}
