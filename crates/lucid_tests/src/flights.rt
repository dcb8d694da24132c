// Packets that overlap in one pipe, step by step, with results worked by hand. A pipe that lets a packet into a taken slot or past another,
// runs a stage twice, or gives another event back fails here.
ghost use Rattle.std.specs.Prelude.{◌≡◌, IfSome};
ghost use Rattle.lucid_code.specs.Inputs.{IsInput};

use crate::codes::{COUNT, Does, Given, SWAP, code};
use lucid_base::{Args, Bits, Event, Out};
use lucid_code::{Code, Operand};
use lucid_conf::Limits;
use lucid_layout::place;
use lucid_pipe::{MemWatch, NoWatch, Passed, Pipe, Stuck, Watch};
use lucid_tables::Placed;
use std::alloc::Global;
use std::process::Abort;

/// Each packet adds its argument to the first array, stores the total in the second, and prints the total with its argument and the total
/// before. Each operation has a stage of its own, since it reads what the one before it writes.
const TOTALS: Given = Given {
    fields: &[32, 32, 32, 16, 16, 16],
    arrays: &[4, 4],
    cell: 16,
    ops: &[
        (&[], 0, Does::Touch(0, 0, COUNT, Operand::Field(3), Some(4))),
        (&[], 1, Does::Touch(1, 0, SWAP, Operand::Field(4), Some(5))),
        (&[], 2, Does::Say(&[Operand::Field(4), Operand::Field(5)])),
    ],
};

/// As many stages as operations.
const LIMITS: Limits = Limits {
    stages: 3,
    tables: 1,
    rows: 1,
    arrays: 1,
    arms: 1,
    bits: 16384,
    recirc: 0,
};

/// A step: an event of this argument enters, the packet of a slot moves, a look at the first cell of an array by an index past its size, a
/// count of the packets, or a sight for a watch that records and for one that does not.
#[derive(Clone, Copy)]
enum Step {
    Enter(u64),
    Go(usize),
    Look(u32),
    Count,
    See,
}

/// The outcome of a step; of a packet that left, the two numbers that it printed.
#[derive(Clone, Copy, PartialEq, Eq)]
enum Came {
    In,
    Busy,
    Empty,
    Ahead,
    On,
    Seen,
    Out(u64, u64),
    Is(u64),
    Other,
}

/// The event of this argument, if the code takes one. It is an input of the code, at switch 1.
#[tactic(auto, using(crate::proofs::FlightsLemmas::one))]
fn event(code: &Code, argument: u64) -> Option<Event>
    ensures { IfSome result (λ e. IsInput code.now 1 e) }
{
    let fields = code.fields();
    if code.inputs().args < 1 || fields.len() < 4 {
        return None;
    }
    Some(Event {
        id: 0,
        args: Args::from_slice(&[Bits::low(fields[3], argument).value]),
    })
}

fn enter(pipe: &mut Pipe, code: &Code, argument: u64) -> Came
    requires { pipe.old.placed.code ≡ code.now }
    ensures { pipe.new.placed ≡ pipe.old.placed }
{
    let Some(event) = event(code, argument) else {
        return Came::Other;
    };
    match pipe.enter(event, 7, 1) {
        Ok(()) => Came::In,
        Err(busy) => if busy.event == event {
            Came::Busy
        } else {
            Came::Other
        },
    }
}

/// The two numbers printed by a packet that entered at tick 7 and switch 1.
fn told(passed: &Passed) -> Came {
    match passed.outs.as_slice().first() {
        Some(Out::Say { form: 0, args }) => {
            let numbers = args.as_slice();
            if passed.now == 7 && passed.me == 1 && numbers.len() == 2 {
                Came::Out(numbers[0], numbers[1])
            } else {
                Came::Other
            }
        }
        _ => Came::Other,
    }
}

fn go(pipe: &mut Pipe, k: usize) -> Came
    ensures { pipe.new.placed ≡ pipe.old.placed }
{
    match pipe.go(k) {
        Err(Stuck::Empty) => Came::Empty,
        Err(Stuck::Ahead) => Came::Ahead,
        Ok(None) => Came::On,
        Ok(Some(passed)) => told(&passed),
    }
}

fn does(pipe: &mut Pipe, code: &Code, watch: &mut MemWatch, step: Step) -> Came
    requires { pipe.old.placed.code ≡ code.now }
    ensures { pipe.new.placed ≡ pipe.old.placed }
{
    match step {
        Step::Enter(argument) => enter(pipe, code, argument),
        Step::Go(k) => go(pipe, k),
        Step::Look(array) => Came::Is(pipe.look(array, 4)),
        Step::Count => Came::Is(pipe.packets() as u64),
        Step::See => {
            watch.see(2, pipe);
            NoWatch.see(2, pipe);
            Came::Seen
        }
    }
}

/// Returns whether all steps have their outcomes.
fn all_come(pipe: &mut Pipe, code: &Code, watch: &mut MemWatch, steps: &[(Step, Came)]) -> bool
    requires { pipe.old.placed.code ≡ code.now }
{
    for at in 0..steps.len() {
        let (step, expected) = steps[at];
        if does(pipe, code, watch, step) != expected {
            return false;
        }
    }
    true
}

/// Two packets: the second is refused while the first stands in slot 0, and follows it a stage behind.
const TWO: [(Step, Came); 21] = [
    (Step::Enter(3), Came::In),
    (Step::Enter(9), Came::Busy),
    (Step::Go(0), Came::On),
    (Step::Enter(4), Came::In),
    (Step::Go(0), Came::Ahead),
    (Step::Go(2), Came::Empty),
    (Step::Go(3), Came::Empty),
    (Step::Look(0), Came::Is(3)),
    (Step::Look(1), Came::Is(0)),
    (Step::Go(1), Came::On),
    (Step::Look(1), Came::Is(3)),
    (Step::Go(0), Came::On),
    (Step::Look(0), Came::Is(7)),
    (Step::Go(1), Came::Ahead),
    (Step::Go(2), Came::Out(3, 0)),
    (Step::Go(1), Came::On),
    (Step::Go(2), Came::Out(7, 3)),
    (Step::Count, Came::Is(0)),
    (Step::Look(0), Came::Is(7)),
    (Step::Look(1), Came::Is(7)),
    (Step::Look(2), Came::Is(0)),
];

/// Packets that fill all slots, moves of the full pipe from its end, and the last packet leaves.
const FULL: [(Step, Came); 25] = [
    (Step::Enter(1), Came::In),
    (Step::Go(0), Came::On),
    (Step::Go(1), Came::On),
    (Step::Enter(2), Came::In),
    (Step::Go(0), Came::On),
    (Step::Enter(3), Came::In),
    (Step::Count, Came::Is(3)),
    (Step::Enter(9), Came::Busy),
    (Step::Go(0), Came::Ahead),
    (Step::Go(1), Came::Ahead),
    (Step::See, Came::Seen),
    (Step::Go(2), Came::Out(1, 0)),
    (Step::Go(1), Came::On),
    (Step::Go(0), Came::On),
    (Step::Enter(65535), Came::In),
    (Step::Go(2), Came::Out(3, 1)),
    (Step::Go(1), Came::On),
    (Step::Go(2), Came::Out(6, 3)),
    (Step::Go(0), Came::On),
    (Step::See, Came::Seen),
    (Step::Go(1), Came::On),
    (Step::Go(2), Came::Out(5, 6)),
    (Step::Go(2), Came::Empty),
    (Step::Look(0), Came::Is(5)),
    (Step::Look(1), Came::Is(5)),
];

/// The places of both sights, and whether a packet was there.
const PLACES: [(usize, u32, bool); 7] = [
    (0, 0, true),
    (0, 1, true),
    (0, 2, true),
    (0, 3, false),
    (1, 0, false),
    (1, 1, true),
    (1, 2, false),
];

/// Returns whether there are so many sights, with packets in these places.
fn are_seen(watch: &MemWatch, sights: usize, places: &[(usize, u32, bool)]) -> bool {
    if watch.count() != Some(sights) {
        return false;
    }
    for at in 0..places.len() {
        let (sight, k, taken) = places[at];
        if sights <= sight || watch.taken(sight, k) != taken {
            return false;
        }
    }
    true
}

/// Returns whether the steps have their outcomes, a watch sees the packets in these places, and the pipe has two arrays after them.
fn flies(
    rt: &impl Abort,
    alloc: Global,
    placed: &Placed,
    steps: &[(Step, Came)],
    sights: usize,
    places: &[(usize, u32, bool)],
) -> bool {
    let mut pipe = Pipe::new(alloc, placed).expect(rt, "memory");
    let mut watch = MemWatch::new(alloc);
    let all_come = all_come(&mut pipe, placed.code(), &mut watch, steps);
    let rows = pipe.rows(alloc).expect(rt, "memory");
    let flies = all_come && rows.len() == 2 && are_seen(&watch, sights, places);
    drop(rows);
    drop(watch);
    drop(pipe);
    flies
}

#[test]
fn packets_that_overlap_are_as_they_are_alone(rt: HostRuntime) {
    let code = code(&rt, rt.alloc(), &TOTALS).expect(&rt, "valid code");
    let placed = place(rt.alloc(), &code, &LIMITS)
        .ok()
        .expect(&rt, "placed code");
    drop(code);
    let two = flies(&rt, rt.alloc(), &placed, &TWO, 0, &[]);
    let full = flies(&rt, rt.alloc(), &placed, &FULL, 2, &PLACES);
    drop(placed);
    assert!(rt; two && full, "two packets: {two}, a full pipe: {full}");
}
