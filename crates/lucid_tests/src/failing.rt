// The table: each form of words, how often it opens or reads a file and writes without failures, and its output and status if one of
// these fails.
use crate::files::is_file;
use crate::running::{Faults, NEVER, NONE, Ran, run_watched};
use lucid_pipe::NoWatch;
use lucid_top::Status;
use std::alloc::Global;
use std::process::Abort;

/// The words of a call, how it ends, how often it opens and reads each file, and in how many writes it writes its answer and the cause of
/// its refusal.
type FaultRow = (&'static str, Status, u64, u64, u64);

/// All files are read before any is looked at.
const ROWS: [FaultRow; 22] = [
    ("check first", Status::Ok, 3, 1, 0),
    ("check long", Status::Ok, 4, 1, 0),
    ("expand sized", Status::Ok, 3, 1, 0),
    ("once first pkt 5", Status::Ok, 3, 2, 0),
    ("layout branches default", Status::Ok, 3, 13, 0),
    ("run whole send two linked", Status::Ok, 3, 4, 0),
    ("run pipe send two linked", Status::Ok, 3, 4, 0),
    ("run placed ask two asked places", Status::Ok, 3, 5, 0),
    ("drive sums three steps", Status::Ok, 3, 11, 0),
    ("audit ask two places", Status::Ok, 3, 13, 0),
    ("snap sums three steps 3", Status::Ok, 3, 13, 0),
    ("gen program 0 1", Status::Ok, 0, 1, 0),
    ("gen limits 0 1", Status::Ok, 0, 1, 0),
    ("gen scene 0 2", Status::Ok, 0, 1, 0),
    ("bench 0 3", Status::Ok, 0, 1, 0),
    ("", Status::Usage, 0, 0, 1),
    ("picture", Status::Usage, 0, 0, 1),
    ("once first nobody 5", Status::Usage, 3, 0, 1),
    ("layout ask bad", Status::BadLimits, 3, 0, 1),
    ("run whole crossed bad bad", Status::Order, 3, 0, 4),
    ("drive sums three bad", Status::BadScene, 3, 0, 1),
    ("audit ask two bad", Status::BadPlacement, 3, 0, 1),
];

/// The calls of a row that fail.
#[derive(Clone, Copy)]
enum Fails {
    /// Each opening and each read.
    Read,
    /// Each write of the output.
    Write,
    /// Each write of the line of errors.
    Tell,
    /// The call after the last of each kind, which nothing makes. So the numbers are exact.
    Behind,
    /// The first writes, with and without the first opening. The fault can not be told.
    Untold,
}

const KINDS: [Fails; 5] = [
    Fails::Read,
    Fails::Write,
    Fails::Tell,
    Fails::Behind,
    Fails::Untold,
];

/// The number of openings and reads of all files that the words name.
fn reads_of(row: FaultRow) -> u64 {
    let (line, _, reads, _, _) = row;
    let mut sum = 0u64;
    for word in line.split(' ') {
        if is_file(word) {
            sum = sum.saturating_add(reads);
        }
    }
    sum
}

/// The file of the opening or the read of this number.
fn file_of(row: FaultRow, number: u64) -> &'static str {
    let (line, _, reads, _, _) = row;
    let mut behind = 0u64;
    for word in line.split(' ') {
        if is_file(word) {
            behind = behind.saturating_add(reads);
            if number < behind {
                return word;
            }
        }
    }
    ""
}

/// The number of calls of this kind.
fn count(row: FaultRow, kind: Fails) -> u64 {
    match kind {
        Fails::Read => reads_of(row),
        Fails::Write => row.3,
        Fails::Tell => row.4,
        Fails::Behind => 1,
        Fails::Untold => 2,
    }
}

/// The faults of the call of this number.
fn faults(row: FaultRow, kind: Fails, number: u64) -> Faults {
    match kind {
        Fails::Read => Faults {
            read: number,
            ..NONE
        },
        Fails::Write => Faults {
            write: number,
            ..NONE
        },
        Fails::Tell => Faults {
            tell: number,
            ..NONE
        },
        Fails::Behind => Faults {
            read: reads_of(row),
            write: row.3,
            tell: row.4,
        },
        Fails::Untold => Faults {
            read: if number == 0 { 0 } else { NEVER },
            write: 0,
            tell: 0,
        },
    }
}

/// The status of a call whose faults can not be told.
fn status_untold(row: FaultRow, number: u64) -> Status {
    let (_, status, reads, writes, _) = row;
    if number == 0 && reads != 0 {
        Status::ReadFault
    } else if writes != 0 {
        Status::WriteFault
    } else {
        status
    }
}

/// Returns whether the bytes are a beginning of the whole that isn't all of it.
fn is_cut(bytes: &[u8], whole: &[u8]) -> bool {
    bytes.len() < whole.len() && whole.starts_with(bytes)
}

/// Returns whether the line of errors names this file.
fn names(line: &[u8], file: &str) -> bool {
    match line.strip_prefix(b"read fault: ") {
        Some(rest) => rest.strip_suffix(b"\n") == Some(file.as_bytes()),
        None => false,
    }
}

/// Returns whether a call has the status and the output of the whole.
fn is_alike(ran: &Ran, whole: &Ran) -> bool {
    ran.status == whole.status && ran.out.bytes() == whole.out.bytes()
}

/// Returns whether a failing write has cut the output. A successful write passes something on, so each output is longer than that before.
fn is_cut_by(number: u64, before: usize, ran: &Ran, whole: &Ran) -> bool {
    let out = ran.out.bytes();
    ran.status == Status::WriteFault
        && ran.err.bytes() == b"write fault\n".as_slice()
        && is_cut(out, whole.out.bytes())
        && (number == 0) == out.is_empty()
        && (number == 0 || before < out.len())
}

/// Returns whether a call with these faults ends as it should.
fn is_right(
    row: FaultRow,
    kind: Fails,
    number: u64,
    before: usize,
    ran: &Ran,
    whole: &Ran,
) -> bool {
    let err = ran.err.bytes();
    let is_empty = ran.out.bytes().is_empty();
    match kind {
        Fails::Read => is_empty
            && ran.status == Status::ReadFault
            && names(err, file_of(row, number)),
        Fails::Write => is_cut_by(number, before, ran, whole),
        Fails::Tell => is_alike(ran, whole) && is_cut(err, whole.err.bytes()),
        Fails::Behind => is_alike(ran, whole) && err == whole.err.bytes(),
        Fails::Untold => is_empty && ran.status == status_untold(row, number) && err.is_empty(),
    }
}

/// Makes the call of this number, and returns the length of its output if it ends as it should.
fn ends_at(
    rt: &impl Abort,
    alloc: Global,
    row: FaultRow,
    kind: Fails,
    number: u64,
    before: usize,
    whole: &Ran,
) -> Option<usize> {
    let faults = faults(row, kind, number);
    let ran = run_watched(rt, alloc, row.0, faults, &mut NoWatch);
    let is_right = is_right(row, kind, number, before, &ran, whole);
    let length = ran.out.bytes().len();
    drop(ran);
    if is_right { Some(length) } else { None }
}

/// Returns whether each call of this kind ends as it should.
fn each_ends(rt: &impl Abort, alloc: Global, row: FaultRow, kind: Fails, whole: &Ran) -> bool {
    let mut before = 0usize;
    for number in 0..count(row, kind) {
        match ends_at(rt, alloc, row, kind, number, before, whole) {
            Some(length) => before = length,
            None => return false,
        }
    }
    true
}

/// Returns whether all failing calls of these kinds end as they should.
fn all_end(rt: &impl Abort, alloc: Global, row: FaultRow, kinds: &[Fails], whole: &Ran) -> bool {
    for kind in kinds {
        if !each_ends(rt, alloc, row, *kind, whole) {
            return false;
        }
    }
    true
}

/// Returns whether a call in which nothing fails ends as its row says, with an answer or a line of errors.
fn is_whole(row: FaultRow, whole: &Ran) -> bool {
    let (_, status, _, writes, tells) = row;
    whole.status == status
        && whole.out.bytes().is_empty() == (writes == 0)
        && whole.err.bytes().is_empty() == (tells == 0)
}

/// Returns whether the call of a row ends as it should, and so does each of its failing calls.
fn fails_so(rt: &impl Abort, alloc: Global, row: FaultRow) -> bool {
    let whole = run_watched(rt, alloc, row.0, NONE, &mut NoWatch);
    let fails_so = is_whole(row, &whole) && all_end(rt, alloc, row, &KINDS, &whole);
    drop(whole);
    fails_so
}

fn all_fail_so(rt: &impl Abort, alloc: Global, rows: &[FaultRow]) {
    for row in rows {
        assert!(rt; fails_so(rt, alloc, *row), "{}", row.0);
    }
}

#[test]
fn each_failing_call_ends_as_it_should(rt: HostRuntime) {
    all_fail_so(&rt, rt.alloc(), &ROWS);
}
