// Calls of the program over a watch that records all sights. A command that shows nothing fails here, so does a `run pipe` that runs handlers
// whole, and so does a watch that records nothing, or a tick with another count of packets.
use crate::running::{Faults, NEVER, NONE, run_watched};
use lucid_pipe::MemWatch;
use lucid_top::Status;
use std::alloc::Global;
use std::process::Abort;

/// The words of a call that moves packets, the write of it that fails, how it ends, how many sights it shows, and places in one of them: the
/// number of the sight, the place, and whether it is taken.
type WatchRow = (
    &'static str,
    u64,
    Status,
    usize,
    &'static [(usize, u32, bool)],
);

const ROWS: [WatchRow; 7] = [
    // Events enter at ticks 0 and 1.
    (
        "run pipe hits default twice",
        NEVER,
        Status::Ok,
        30,
        &[(1, 0, true), (1, 1, true), (1, 2, false)],
    ),
    (
        "run placed ask two asked places",
        NEVER,
        Status::Ok,
        30,
        &[(1, 0, true), (1, 1, true), (1, 2, false)],
    ),
    // Four switches for 1,000 ticks. The one event enters switch 0 at tick 7.
    (
        "bench 0 1",
        NEVER,
        Status::Ok,
        4000,
        &[(28, 0, true), (28, 1, false)],
    ),
    // After the last step one packet has passed two stages, and one none.
    (
        "drive sums three steps",
        NEVER,
        Status::Ok,
        7,
        &[(6, 0, true), (6, 1, false), (6, 2, true)],
    ),
    // The steps before a write that fails: at the beginning, in the middle and at the end.
    ("drive sums three steps", 0, Status::WriteFault, 0, &[]),
    ("drive sums three steps", 3, Status::WriteFault, 3, &[]),
    ("drive sums three steps", 8, Status::WriteFault, 7, &[]),
];

/// Returns whether a packet was at place `k` in a specified sight.
pub(crate) fn was_taken(watch: &MemWatch, sight: usize, k: u32) -> bool {
    match watch.count() {
        Some(count) => sight < count && watch.taken(sight, k),
        None => false,
    }
}

/// Makes a call over a watch, and returns how it ends.
fn watched(
    rt: &impl Abort,
    alloc: Global,
    line: &str,
    faults: Faults,
    watch: &mut MemWatch,
) -> Status {
    let ran = run_watched(rt, alloc, line, faults, watch);
    let status = ran.status;
    drop(ran);
    status
}

fn are_places(watch: &MemWatch, places: &[(usize, u32, bool)]) -> bool {
    for (sight, k, taken) in places {
        if was_taken(watch, *sight, *k) != *taken {
            return false;
        }
    }
    true
}

/// Returns whether the call of a row shows its sights.
fn shows(rt: &impl Abort, alloc: Global, row: WatchRow) -> bool {
    let (line, write, status, count, places) = row;
    let mut watch = MemWatch::new(alloc);
    let ended = watched(rt, alloc, line, Faults { write, ..NONE }, &mut watch);
    let shows = ended == status && watch.count() == Some(count) && are_places(&watch, places);
    drop(watch);
    shows
}

fn all_show(rt: &impl Abort, alloc: Global, rows: &[WatchRow]) {
    for row in rows {
        assert!(rt; shows(rt, alloc, *row), "{} {}", row.0, row.1);
    }
}

#[test]
fn each_command_that_moves_packets_shows_them(rt: HostRuntime) {
    all_show(&rt, rt.alloc(), &ROWS);
}

/// Returns whether the counter holds 0, 1 and 2 in sights 0, 1 and 2: its array is in stage 0, which a packet has run one tick after it
/// entered.
fn counts_are_seen(watch: &MemWatch) -> bool {
    match watch.count() {
        Some(count) => {
            3 < count
                && watch.cell(0, 0, 1) == Some(0)
                && watch.cell(1, 0, 1) == Some(1)
                && watch.cell(2, 0, 1) == Some(2)
        }
        None => false,
    }
}

/// The number of packets in flight after a tick. Two events enter at ticks 0 and 1, and the events that they sent at ticks 22 and 23. There
/// are 12 stages.
fn in_flight(tick: usize) -> usize {
    match tick {
        0 | 12 | 22 => 1,
        1..=11 | 23..=29 => 2,
        _ => 0,
    }
}

/// Returns whether this many of the 12 places are taken in a sight.
fn are_taken(watch: &MemWatch, sight: usize, packets: usize) -> bool {
    let mut taken = 0usize;
    for k in 0..12u32 {
        if was_taken(watch, sight, k) {
            taken = taken.saturating_add(1);
        }
    }
    taken == packets
}

/// Returns whether the packets of each tick are in flight, for as many ticks as there are stages, and the first two take the first slots.
fn flights_are_seen(watch: &MemWatch) -> bool {
    for tick in 0..30usize {
        if !are_taken(watch, tick, in_flight(tick)) {
            return false;
        }
    }
    was_taken(watch, 0, 0) && was_taken(watch, 1, 0) && was_taken(watch, 1, 1)
}

/// A watch sees the packets and the counter of a network on pipelines at each tick.
#[test]
fn a_sight_has_the_packets_and_the_cells_of_each_tick(rt: HostRuntime) {
    let mut watch = MemWatch::new(rt.alloc());
    let ended = watched(
        &rt,
        rt.alloc(),
        "run pipe hits default twice",
        NONE,
        &mut watch,
    );
    let are_seen = counts_are_seen(&watch) && flights_are_seen(&watch);
    drop(watch);
    assert!(rt; ended == Status::Ok && are_seen);
}
