// Passes on code that is worked by hand. A `Copies` that looks through a move to a narrower field, or a `Direct` that goes on with its own
// result, fails here.
use crate::codes::{APART, BRANCHES, Does, Given, Line, TOGETHER, YES, code};
use lucid_code::{Act, Code, Op, Operand};
use lucid_pass::{Dead, Pass, run_passes_told};
use lucid_pass_rewrites::{Copies, Direct, Fold};
use std::alloc::Global;
use std::process::Abort;

/// Each act that computes on 44, which is 300 in the 8 bits of field 4, with its outs and prints.
const COMPUTED: Given = Given {
    fields: &[32, 32, 32, 32, 8, 32, 8, 32, 8],
    arrays: &[],
    cell: 32,
    ops: &[
        (&[], 0, Does::Move(Operand::Fixed(300), 4)),
        (
            &[],
            0,
            Does::Hash(&[Operand::Field(4), Operand::Fixed(1)], 5),
        ),
        (&[], 0, Does::Negate(8, Operand::Field(4), 6)),
        (&[], 0, Does::Cast(Operand::Field(4), 7)),
        (
            &[],
            0,
            Does::Add(8, Operand::Field(4), Operand::Fixed(250), 8),
        ),
        (
            &[],
            0,
            Does::Say(&[Operand::Field(5), Operand::Field(6), Operand::Field(7)]),
        ),
        (
            &[],
            0,
            Does::Send(
                1,
                &[Operand::Field(8)],
                Operand::Field(8),
                Some(Operand::Field(8)),
            ),
        ),
    ],
};

/// The argument is moved to field 4, which is sent.
const MOVED: [Line; 2] = [
    (&[], 0, Does::Move(Operand::Field(3), 4)),
    (
        &[],
        0,
        Does::Send(0, &[Operand::Field(4)], Operand::Fixed(0), None),
    ),
];

/// A move from 8 to 16 bits.
const WIDER: Given = Given {
    fields: &[32, 32, 32, 8, 16],
    arrays: &[],
    cell: 32,
    ops: &MOVED,
};

/// A move from 8 to 8 bits.
const ALIKE: Given = Given {
    fields: &[32, 32, 32, 8, 8],
    arrays: &[],
    cell: 32,
    ops: &MOVED,
};

/// A move from 16 to 8 bits.
const NARROWER: Given = Given {
    fields: &[32, 32, 32, 16, 8],
    arrays: &[],
    cell: 32,
    ops: &MOVED,
};

/// Field 4 is whether the argument is 3, and field 5 whether field 4 is 1. If so, event 0 is sent.
const COMPARED: Given = Given {
    fields: &[32, 32, 32, 32, 1, 1],
    arrays: &[],
    cell: 32,
    ops: &[
        (&[], 0, Does::IsEqual(32, 3, 3, 4)),
        (&[], 0, Does::IsEqual(1, 4, 1, 5)),
        (&[YES], 0, Does::Send(0, &[], Operand::Fixed(0), None)),
    ],
};

/// An operation, the number of one of its operands, and the number or the field that is there.
type Read = (usize, usize, Operand);

/// FNV-1a of the words 44 and 1, by another program; its low 32 bits are printed.
const NUMBERS: [Read; 8] = [
    (1, 0, Operand::Fixed(14_220_950_139_069_100_840)),
    (2, 0, Operand::Fixed(212)),
    (3, 0, Operand::Fixed(44)),
    (4, 0, Operand::Fixed(38)),
    (5, 0, Operand::Fixed(1_069_642_536)),
    (5, 1, Operand::Fixed(212)),
    (5, 2, Operand::Fixed(44)),
    (6, 0, Operand::Fixed(38)),
];

/// The fields that are read once `Copies` has run. Field 10 gets one of two.
const FIELDS: [Read; 3] = [
    (6, 0, Operand::Field(6)),
    (7, 0, Operand::Field(8)),
    (8, 0, Operand::Field(10)),
];

fn is_same(a: Operand, b: Operand) -> bool {
    match (a, b) {
        (Operand::Fixed(a), Operand::Fixed(b)) => a == b,
        (Operand::Field(a), Operand::Field(b)) => a == b,
        _ => false,
    }
}

/// Returns the operand of this number of an operation that moves, says or sends.
fn operand(op: &Op, at: usize) -> Option<Operand> {
    match &op.act {
        Act::Move(a, _) => Some(*a),
        Act::Say { args, .. } => args.as_slice().get(at).copied(),
        Act::Gen { args, .. } => args.as_slice().get(at).copied(),
        _ => None,
    }
}

/// Returns whether an operation has this operand.
fn is_there(code: &Code, read: Read) -> bool {
    let (at, number, expected) = read;
    match code.ops().get(at) {
        None => false,
        Some(op) => match operand(op, number) {
            None => false,
            Some(found) => is_same(found, expected),
        },
    }
}

fn all_are_there(code: &Code, reads: &[Read]) -> bool {
    reads.iter().all(|read| is_there(code, *read))
}

/// Returns whether the pass removes no operation of the code, and its result has these operands.
fn makes<P: Pass>(
    rt: &impl Abort,
    alloc: Global,
    pass: &mut P,
    given: &Given,
    reads: &[Read],
) -> bool {
    let code = code(rt, alloc, given).expect(rt, "valid code");
    let new = pass.run(alloc, &code).expect(rt, "memory");
    let is_whole = pass.removed() == 0 && new.ops().len() == code.ops().len();
    let makes = is_whole && all_are_there(&new, reads);
    drop(new);
    drop(code);
    makes
}

/// Codes with moves, and what they read once `Copies` has run.
const MOVES: [(&Given, &[Read]); 4] = [
    (&BRANCHES, &FIELDS),
    (&WIDER, &[(1, 0, Operand::Field(3))]),
    (&ALIKE, &[(1, 0, Operand::Field(3))]),
    (&NARROWER, &[(1, 0, Operand::Field(4))]),
];

/// Returns whether `Copies` makes these of the codes.
fn all_are_copied(rt: &impl Abort, alloc: Global, rows: &[(&Given, &[Read])]) -> bool {
    for at in 0..rows.len() {
        let (given, reads) = rows[at];
        if !makes(rt, alloc, &mut Copies::new(), given, reads) {
            return false;
        }
    }
    true
}

#[test]
fn numbers_and_moved_fields_are_put_in(rt: HostRuntime) {
    assert!(rt; makes(&rt, rt.alloc(), &mut Fold::new(), &COMPUTED, &NUMBERS));
    assert!(rt; all_are_copied(&rt, rt.alloc(), &MOVES));
}

/// Returns whether the code has this many operations, and the guard of this one asks first that a field has a value.
fn asks(code: &Code, count: usize, at: usize, field: u32, value: u64) -> bool {
    match code.ops().get(at) {
        None => false,
        Some(op) => match op.guard.as_slice().first() {
            None => false,
            Some(literal) => {
                code.ops().len() == count && literal.field == field && literal.value == value
            }
        },
    }
}

/// Returns whether a literal that one run of `Direct` puts in is replaced by the next run alone.
fn two_runs_ask(rt: &impl Abort, alloc: Global, code: &Code) -> bool {
    let mut direct = Direct::new();
    let once = direct.run(alloc, code).expect(rt, "memory");
    let twice = direct.run(alloc, &once).expect(rt, "memory");
    let ask = asks(&once, 2, 1, 4, 1) && asks(&twice, 1, 0, 3, 3) && direct.removed() == 2;
    drop(twice);
    drop(once);
    ask
}

#[test]
fn direct_reads_the_code_once(rt: HostRuntime) {
    let code = code(&rt, rt.alloc(), &COMPARED).expect(&rt, "valid code");
    let ask = two_runs_ask(&rt, rt.alloc(), &code);
    drop(code);
    assert!(rt; ask);
}

fn is_valid(rt: &impl Abort, alloc: Global, given: &Given) -> bool {
    let code = code(rt, alloc, given);
    let is_valid = code.is_some();
    drop(code);
    is_valid
}

#[test]
fn two_calls_of_an_array_have_contradicting_guards(rt: HostRuntime) {
    assert!(rt; is_valid(&rt, rt.alloc(), &APART));
    assert!(rt; !is_valid(&rt, rt.alloc(), &TOGETHER));
}

/// `Dead`, `Fold`, and `Dead` again.
fn listed(rt: &impl Abort, alloc: Global) -> Vec<Box<dyn Pass>> {
    let mut passes: Vec<Box<dyn Pass>> = Vec::new(alloc);
    let dead = Box::new(alloc, Dead::new()).expect(rt, "memory");
    passes.push(dead).expect(rt, "memory");
    let fold = Box::new(alloc, Fold::new()).expect(rt, "memory");
    passes.push(fold).expect(rt, "memory");
    let dead = Box::new(alloc, Dead::new()).expect(rt, "memory");
    passes.push(dead).expect(rt, "memory");
    passes
}

/// Returns whether the passes of the list remove these numbers of operations.
fn remove(
    rt: &impl Abort,
    alloc: Global,
    passes: &mut Vec<Box<dyn Pass>>,
    given: &Given,
    expected: &[u64],
) -> bool {
    let code = code(rt, alloc, given).expect(rt, "valid code");
    let (new, told) = run_passes_told(alloc, passes, code).expect(rt, "memory");
    let remove = told.as_slice() == expected;
    drop(told);
    drop(new);
    remove
}

/// `Dead` removes one operation of the branches, and those that `Fold` made useless of what computes.
#[test]
fn the_order_of_passes_tells_what_goes(rt: HostRuntime) {
    let mut passes = listed(&rt, rt.alloc());
    let one = remove(&rt, rt.alloc(), &mut passes, &BRANCHES, &[1, 0, 0]);
    let five = remove(&rt, rt.alloc(), &mut passes, &COMPUTED, &[0, 0, 5]);
    drop(passes);
    assert!(rt;
        one && five,
        "one of the branches: {one}, five of what computes: {five}"
    );
}
