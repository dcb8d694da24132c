// Drawn code in the stages of a target, and drawn events that go through them alone.
ghost use Rattle.std.specs.Prelude.{◌≡◌, IfSome};
ghost use Rattle.lucid_code.specs.Inputs.{IsInput};

use crate::drawn::draws::Draws;
use lucid_base::{Args, Bits, Event, Items};
use lucid_code::Code;
use lucid_conf::Limits;
use lucid_layout::place;
use lucid_pipe::{Passed, Pipe};
use lucid_tables::Placed;
use std::alloc::Global;

/// Room for all drawn code, in stages that are soon full.
const LIMITS: Limits = Limits {
    stages: 12,
    tables: 2,
    rows: 64,
    arrays: 4,
    arms: 8,
    bits: 16384,
    recirc: 0,
};

/// An event that comes at a tick and a switch.
#[derive(Clone, Copy)]
pub(crate) struct Input {
    pub(crate) event: Event,
    pub(crate) now: u64,
    pub(crate) me: u32,
}

pub(crate) fn placed(alloc: Global, code: &Code) -> Option<Placed> {
    match place(alloc, code, &LIMITS) {
        Ok(placed) => Some(placed),
        Err(_) => None,
    }
}

/// The event of these arguments, by their low bits, if the code takes two.
#[tactic(auto, using(crate::proofs::WholeLemmas::two))]
fn event(code: &Code, me: u32, id: u32, a: u64, b: u64) -> Option<Event>
    ensures { IfSome result (IsInput code.now me) }
{
    let fields = code.fields();
    if code.inputs().args < 2 || fields.len() < 5 {
        return None;
    }
    let a = Bits::low(fields[3], a).value;
    let b = Bits::low(fields[4], b).value;
    Some(Event {
        id,
        args: Args::from_slice(&[a, b]),
    })
}

/// A drawn input of the code.
pub(crate) fn drawn_input(draws: &mut Draws, code: &Code) -> Option<Input>
    ensures { IfSome result (λ i. IsInput code.now i.me i.event) }
{
    let now = draws.number();
    let me = draws.below(4) as u32;
    let id = draws.below(2) as u32;
    match event(code, me, id, draws.number(), draws.number()) {
        None => None,
        Some(event) => Some(Input { event, now, me }),
    }
}

/// Moves the one packet of a pipe to its end.
fn leave(pipe: &mut Pipe) -> Option<Passed>
    ensures { pipe.new.placed ≡ pipe.old.placed }
{
    for k in 0..pipe.stages() {
        if let Ok(Some(passed)) = pipe.go(k) {
            return Some(passed);
        }
    }
    None
}

/// The output of an input that goes through the stages alone.
pub(crate) fn pass(pipe: &mut Pipe, input: &Input) -> Option<Passed>
    requires { IsInput pipe.old.placed.code input.now.me input.now.event }
    ensures { pipe.new.placed ≡ pipe.old.placed }
{
    match pipe.enter(input.event, input.now, input.me) {
        Err(_) => None,
        Ok(()) => leave(pipe),
    }
}

/// Whether arrays have the same cells.
pub(crate) fn same_rows(a: &[Items<u64>], b: &[Items<u64>]) -> bool {
    if a.len() != b.len() {
        return false;
    }
    for at in 0..a.len() {
        if a[at].as_slice() != b[at].as_slice() {
            return false;
        }
    }
    true
}
