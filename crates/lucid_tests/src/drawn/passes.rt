// Drawn code and what the passes make of it, in stages, beside the interpreter on the drawn code.
// A stage that matches, computes or stores wrongly fails here, also if it does so for all packets, and so does a pass that changes a result.
// Seen to fail: a `Fold` that puts numbers in place of fields and does not cut them to the width of the field.
ghost use Rattle.std.specs.Prelude.{◌≡◌};

use crate::drawn::codes::code;
use crate::drawn::draws::Draws;
use crate::drawn::interpreted::interpret;
use crate::drawn::whole::{drawn_input, pass, placed, same_rows};
use lucid_base::{Cells, Items};
use lucid_code::Code;
use lucid_pass::{Dead, Pass};
use lucid_pass_rewrites::{Copies, Direct, Fold};
use lucid_pipe::{Passed, Pipe};
use lucid_tables::Placed;
use std::alloc::Global;
use std::process::Abort;

/// Applies the pass of this number to the code.
fn through(rt: &impl Abort, alloc: Global, number: usize, code: &Code) -> Code {
    let new = match number {
        0 => Fold::new().run(alloc, code),
        1 => Copies::new().run(alloc, code),
        2 => Dead::new().run(alloc, code),
        _ => Direct::new().run(alloc, code),
    };
    new.expect(rt, "memory")
}

/// All fields that the operations read, in their order.
fn reads(rt: &impl Abort, alloc: Global, code: &Code) -> Vec<u32> {
    let mut reads = Vec::new(alloc);
    for op in code.ops() {
        op.put_reads(&mut reads).expect(rt, "memory");
    }
    reads
}

/// Whether a pass took an operation away, or made one read other fields.
fn is_changed(rt: &impl Abort, alloc: Global, code: &Code, new: &Code) -> bool {
    let before = reads(rt, alloc, code);
    let after = reads(rt, alloc, new);
    new.ops().len() < code.ops().len() || before.as_slice() != after.as_slice()
}

/// The output of events, and the cells after them.
#[derive(Drop)]
struct Ran {
    told: Vec<Passed>,
    cells: Items<Items<u64>>,
}

/// Returns the output of the twenty events that follow from a number, by the interpreter, one after another from cells of 0.
fn interpreted(rt: &impl Abort, alloc: Global, state: u64, code: &Code) -> Ran {
    let mut draws = Draws { state };
    let mut told = Vec::new(alloc);
    let mut cells = Cells::zeros(alloc, code.arrays()).expect(rt, "memory");
    for _turn in 0..20 {
        if let Some(input) = drawn_input(&mut draws, code) {
            let passed = interpret(rt, alloc, code, &input, &mut cells);
            told.push(passed).expect(rt, "memory");
        }
    }
    let rows = cells.rows(alloc).expect(rt, "memory");
    drop(cells);
    Ran { told, cells: rows }
}

fn run_next(draws: &mut Draws, code: &Code, pipe: &mut Pipe) -> Option<Passed>
    requires { pipe.old.placed.code ≡ code.now }
    ensures { pipe.new.placed ≡ pipe.old.placed }
{
    match drawn_input(draws, code) {
        None => None,
        Some(input) => pass(pipe, &input),
    }
}

/// Returns whether the same events have this output in stages.
fn all_pass(state: u64, code: &Placed, pipe: &mut Pipe, told: &[Passed]) -> bool
    requires { pipe.old.placed ≡ code.now }
{
    let mut draws = Draws { state };
    for passed in told {
        if run_next(&mut draws, code.code(), pipe) != Some(*passed) {
            return false;
        }
    }
    told.len() == 20
}

/// Returns whether the same events have this output and leave these cells in stages, from cells of 0.
fn is_same(rt: &impl Abort, alloc: Global, state: u64, code: &Placed, ran: &Ran) -> bool {
    let mut pipe = Pipe::new(alloc, code).expect(rt, "memory");
    let all_pass = all_pass(state, code, &mut pipe, ran.told.as_slice());
    let cells = pipe.rows(alloc).expect(rt, "memory");
    let is_same = all_pass && same_rows(cells.as_slice(), ran.cells.as_slice());
    drop(cells);
    drop(pipe);
    is_same
}

/// Returns whether the code has at most this many operations, and runs so in stages.
fn runs_so(
    rt: &impl Abort,
    alloc: Global,
    state: u64,
    code: &Code,
    most: usize,
    ran: &Ran,
) -> bool {
    match placed(alloc, code) {
        None => false,
        Some(placed) => {
            let runs_so = code.ops().len() <= most && is_same(rt, alloc, state, &placed, ran);
            drop(placed);
            runs_so
        }
    }
}

/// Returns whether the pass of a number keeps the effect of the code. Adds one to the count of a pass that changes the code.
fn keeps(
    rt: &impl Abort,
    alloc: Global,
    state: u64,
    code: &Code,
    ran: &Ran,
    number: usize,
    count: &mut u32,
) -> bool {
    let new = through(rt, alloc, number, code);
    *count = count.saturating_add(u32::from(is_changed(rt, alloc, code, &new)));
    let keeps = runs_so(rt, alloc, state, &new, code.ops().len(), ran);
    drop(new);
    keeps
}

/// Returns whether the four passes, one after another, keep the effect of the code.
fn all_in_a_row(rt: &impl Abort, alloc: Global, state: u64, code: &Code, ran: &Ran) -> bool {
    let mut new = through(rt, alloc, 0, code);
    for number in 1..4usize {
        new = through(rt, alloc, number, &new);
    }
    let keep = runs_so(rt, alloc, state, &new, code.ops().len(), ran);
    drop(new);
    keep
}

/// Returns whether the stages, and each pass before them, have the effect of the interpreter. Adds one for each pass that changes the code.
fn all_keep(
    rt: &impl Abort,
    alloc: Global,
    state: u64,
    code: &Code,
    ran: &Ran,
    changed: &mut [u32; 4],
) -> bool {
    for number in 0..4usize {
        if !keeps(rt, alloc, state, code, ran, number, &mut changed[number]) {
            return false;
        }
    }
    runs_so(rt, alloc, state, code, code.ops().len(), ran)
        && all_in_a_row(rt, alloc, state, code, ran)
}

/// The number of outs.
fn outs(told: &[Passed]) -> usize {
    let mut sent = 0usize;
    for passed in told {
        sent = sent.saturating_add(passed.outs.as_slice().len());
    }
    sent
}

/// Draws code, and returns how many outs it sends if the stages and the passes keep its effect.
fn next_keeps(
    rt: &impl Abort,
    alloc: Global,
    draws: &mut Draws,
    changed: &mut [u32; 4],
) -> Option<usize> {
    let code = code(rt, alloc, draws).expect(rt, "valid code");
    let ran = interpreted(rt, alloc, draws.state, &code);
    let all_keep = all_keep(rt, alloc, draws.state, &code, &ran, changed);
    let sent = outs(ran.told.as_slice());
    drop(ran);
    drop(code);
    if all_keep { Some(sent) } else { None }
}

#[test]
fn stages_and_passes_do_what_the_operations_do_in_order(rt: HostRuntime) {
    let mut draws = Draws { state: 17 };
    let mut changed = [0u32; 4];
    let mut sent = 0usize;
    for _turn in 0..500 {
        let outs = next_keeps(&rt, rt.alloc(), &mut draws, &mut changed);
        sent = sent.saturating_add(outs.expect(&rt, "the same effect"));
    }
    for count in changed {
        assert!(rt; 20 <= count, "{count}");
    }
    assert!(rt; 2_000 <= sent, "{sent}");
}
