// Drawn code in stages: packets that move in any order beside the interpreter, which runs them in the order in which they entered. A move that
// mixes packets, and a refusal that changes the pipe, fail here.
// Seen to fail: a `go` that asks whether slot k + 2 is free, and so moves a packet into a taken slot.
ghost use Rattle.std.specs.Prelude.{◌≡◌};

use crate::drawn::codes::code;
use crate::drawn::draws::Draws;
use crate::drawn::interpreted::interpret;
use crate::drawn::whole::{drawn_input, placed, same_rows};
use lucid_base::Cells;
use lucid_code::Code;
use lucid_pipe::{Passed, Pipe, Stuck};
use lucid_tables::Placed;
use std::alloc::Global;
use std::collections::VecDeque;
use std::process::Abort;

/// The outcomes of moves.
#[derive(Drop)]
struct Tally {
    entered: u32,
    busy: u32,
    on: u32,
    empty: u32,
    ahead: u32,
    wrong: u32,
}

fn add_one(count: &mut u32) {
    *count = count.saturating_add(1);
}

/// Enters a drawn event, if it can, and interprets it; returns the output of that run.
fn enter(
    rt: &impl Abort,
    alloc: Global,
    draws: &mut Draws,
    code: &Code,
    pipe: &mut Pipe,
    cells: &mut Cells,
    tally: &mut Tally,
) -> Option<Passed>
    requires { pipe.old.placed.code ≡ code.now }
    ensures { pipe.new.placed ≡ pipe.old.placed }
{
    let Some(input) = drawn_input(draws, code) else {
        return None;
    };
    if pipe.enter(input.event, input.now, input.me).is_err() {
        add_one(&mut tally.busy);
        return None;
    }
    add_one(&mut tally.entered);
    Some(interpret(rt, alloc, code, &input, cells))
}

/// Moves the packet of a slot, if it can. A leaving packet must have the output of the next run in the list, which is removed.
fn go(pipe: &mut Pipe, k: usize, told: &mut VecDeque<Passed>, tally: &mut Tally)
    ensures { pipe.new.placed ≡ pipe.old.placed }
{
    match pipe.go(k) {
        Err(Stuck::Empty) => add_one(&mut tally.empty),
        Err(Stuck::Ahead) => add_one(&mut tally.ahead),
        Ok(None) => add_one(&mut tally.on),
        Ok(Some(passed)) => if told.pop_front() != Some(passed) {
            add_one(&mut tally.wrong);
        },
    }
}

/// Moves all packets on, from the last stage to the first, until none is left.
fn drain(pipe: &mut Pipe, told: &mut VecDeque<Passed>, tally: &mut Tally) {
    let stages = pipe.stages();
    for _turn in 0..stages {
        for k in 0..stages {
            go(pipe, stages - 1 - k, told, tally);
        }
    }
}

/// Does two hundred drawn moves. Each packet that entered and did not leave has its output in the list.
fn fly(
    rt: &impl Abort,
    alloc: Global,
    draws: &mut Draws,
    code: &Placed,
    pipe: &mut Pipe,
    cells: &mut Cells,
    told: &mut VecDeque<Passed>,
    tally: &mut Tally,
)
    requires { pipe.old.placed ≡ code.now }
{
    let places = (code.stages().len() as u64).saturating_add(1);
    for _turn in 0..200 {
        if draws.below(4) != 0 {
            go(pipe, draws.below(places) as usize, told, tally);
        } else if let Some(passed) = enter(rt, alloc, draws, code.code(), pipe, cells, tally) {
            told.push_back(passed).expect(rt, "memory");
        }
    }
}

/// Returns whether the arrays have the same cells.
fn are_equal(rt: &impl Abort, alloc: Global, pipe: &Pipe, cells: &Cells) -> bool {
    let rows = pipe.rows(alloc).expect(rt, "memory");
    let held = cells.rows(alloc).expect(rt, "memory");
    let are_equal = same_rows(rows.as_slice(), held.as_slice());
    drop(held);
    drop(rows);
    are_equal
}

/// Flies in a new pipe until no packet is left. All that entered must have come out, and the cells must be those of the interpreter.
fn land(rt: &impl Abort, alloc: Global, draws: &mut Draws, code: &Placed, tally: &mut Tally) {
    let mut cells = Cells::zeros(alloc, code.code().arrays()).expect(rt, "memory");
    let mut pipe = Pipe::new(alloc, code).expect(rt, "memory");
    let mut told = VecDeque::new(alloc);
    fly(
        rt, alloc, draws, code, &mut pipe, &mut cells, &mut told, tally,
    );
    drain(&mut pipe, &mut told, tally);
    if !told.is_empty() || !are_equal(rt, alloc, &pipe, &cells) {
        add_one(&mut tally.wrong);
    }
    drop(told);
    drop(pipe);
    drop(cells);
}

/// Flies through a drawn code.
fn land_next(rt: &impl Abort, alloc: Global, draws: &mut Draws, tally: &mut Tally) {
    let code = code(rt, alloc, draws).expect(rt, "valid code");
    let placed = placed(alloc, &code).expect(rt, "placed code");
    drop(code);
    land(rt, alloc, draws, &placed, tally);
    drop(placed);
}

/// Flies through this many drawn codes.
fn land_all(rt: &impl Abort, alloc: Global, codes: u32) -> Tally {
    let mut draws = Draws { state: 29 };
    let mut tally = Tally {
        entered: 0,
        busy: 0,
        on: 0,
        empty: 0,
        ahead: 0,
        wrong: 0,
    };
    for _turn in 0..codes {
        land_next(rt, alloc, &mut draws, &mut tally);
    }
    tally
}

#[test]
fn moves_in_any_order_are_whole_passes(rt: HostRuntime) {
    let tally = land_all(&rt, rt.alloc(), 200);
    assert_eq!(rt; tally.wrong, 0);
    for count in [
        tally.entered,
        tally.busy,
        tally.on,
        tally.empty,
        tally.ahead,
    ] {
        assert!(rt; 1_000 <= count, "{count}");
    }
}
