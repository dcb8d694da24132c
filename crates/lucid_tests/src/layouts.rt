// Layouts that are worked by hand: which nodes share a table or a stage, and each limit met and exceeded by one.
use crate::codes::{BRANCHES, Does, EVENT, GET, Given, code, many};
use crate::layouts_shown::is_laid;
use lucid_code::{Literal, Operand};
use std::alloc::Global;
use std::process::Abort;

/// `generate seen(Array.get(x, 0));`
const READING: Given = Given {
    fields: &[32, 32, 32, 32, 32],
    arrays: &[4],
    cell: 32,
    ops: &[
        (
            &[EVENT],
            0,
            Does::Touch(0, 0, GET, Operand::Fixed(0), Some(4)),
        ),
        (
            &[EVENT],
            1,
            Does::Send(0, &[Operand::Field(4)], Operand::Fixed(0), None),
        ),
    ],
};

/// `((i + i) + (i + i)) + ((i + i) + (i + i))`, sent out.
const TOWER: Given = Given {
    fields: &[32, 32, 32, 32, 32, 32, 32, 32, 32, 32, 32],
    arrays: &[],
    cell: 32,
    ops: &[
        (
            &[EVENT],
            0,
            Does::Add(32, Operand::Field(3), Operand::Field(3), 4),
        ),
        (
            &[EVENT],
            0,
            Does::Add(32, Operand::Field(3), Operand::Field(3), 5),
        ),
        (
            &[EVENT],
            0,
            Does::Add(32, Operand::Field(4), Operand::Field(5), 6),
        ),
        (
            &[EVENT],
            0,
            Does::Add(32, Operand::Field(3), Operand::Field(3), 7),
        ),
        (
            &[EVENT],
            0,
            Does::Add(32, Operand::Field(3), Operand::Field(3), 8),
        ),
        (
            &[EVENT],
            0,
            Does::Add(32, Operand::Field(7), Operand::Field(8), 9),
        ),
        (
            &[EVENT],
            0,
            Does::Add(32, Operand::Field(6), Operand::Field(9), 10),
        ),
        (
            &[EVENT],
            0,
            Does::Send(0, &[Operand::Field(10)], Operand::Fixed(0), None),
        ),
    ],
};

/// That the argument is 1.
const ONE: Literal = Literal {
    field: 3,
    equal: true,
    value: 1,
};

/// That the argument is not 1.
const NOT_ONE: Literal = Literal {
    field: 3,
    equal: false,
    value: 1,
};

/// That the argument is 2.
const TWO: Literal = Literal {
    field: 3,
    equal: true,
    value: 2,
};

/// Two operations that act for two values of the argument.
const VALUES: Given = Given {
    fields: &[32, 32, 32, 32, 32, 32],
    arrays: &[],
    cell: 32,
    ops: &[
        (&[ONE], 0, Does::Move(Operand::Fixed(1), 4)),
        (&[TWO], 0, Does::Move(Operand::Fixed(1), 5)),
    ],
};

/// A call of each of two arrays.
const ARRAYS: Given = Given {
    fields: &[32, 32, 32, 32],
    arrays: &[4, 4],
    cell: 32,
    ops: &[
        (&[], 1, Does::Touch(1, 0, GET, Operand::Fixed(0), None)),
        (&[], 0, Does::Touch(0, 0, GET, Operand::Fixed(0), None)),
    ],
};

/// A row for the value that the first guard excludes, and none for the second operation, whose guard asks for two values.
const ODD: Given = Given {
    fields: &[32, 32, 32, 32, 32, 32],
    arrays: &[],
    cell: 32,
    ops: &[
        (&[NOT_ONE], 0, Does::Move(Operand::Fixed(1), 4)),
        (&[ONE, TWO], 0, Does::Move(Operand::Fixed(1), 5)),
    ],
};

/// The limits of a target, and the layout within them, or the cause why there is none.
type LimitsRow = (&'static str, &'static str);

/// Codes, each with its layouts.
const ROWS: [(&Given, &[LimitsRow]); 6] = [
    // The calls of both branches are one node.
    (
        &BRANCHES,
        &[
            (
                "{}",
                "0.0 [ 0 1 ]; 1.0 [ 2 ][ 4 ]; array 0; 2.0 [ 3 ][ 5 ]; 3.0 [ 6 ][ 7 ]; 4.0 [ 8 ]; ",
            ),
            (
                r#"{"stages":5,"rows":2,"tables":1,"arrays":1,"arms":2,"bits":321}"#,
                "0.0 [ 0 1 ]; 1.0 [ 2 ][ 4 ]; array 0; 2.0 [ 3 ][ 5 ]; 3.0 [ 6 ][ 7 ]; 4.0 [ 8 ]; ",
            ),
            (r#"{"rows":1}"#, "node 2"),
            (r#"{"stages":4}"#, "node 7"),
            (r#"{"arms":1}"#, "arms 0"),
        ],
    ),
    // A reader is in a stage after its writer.
    (
        &READING,
        &[
            (r#"{"stages":2}"#, "0.0 [ 0 ]; array 0; 1.0 [ 1 ]; "),
            (r#"{"stages":1}"#, "node 1"),
            (r#"{"bits":160}"#, "0.0 [ 0 ]; array 0; 1.0 [ 1 ]; "),
            (r#"{"bits":159,"stages":1}"#, "bits 160"),
        ],
    ),
    // Sums of sums take a stage each.
    (
        &TOWER,
        &[
            ("{}", "0.0 [ 0 1 3 4 ]; 1.0 [ 2 5 ]; 2.0 [ 6 ]; 3.0 [ 7 ]; "),
            (r#"{"stages":3}"#, "node 7"),
        ],
    ),
    // Rows, tables and stages are filled in turn.
    (
        &VALUES,
        &[
            (r#"{"rows":2,"tables":1,"stages":1}"#, "0.0 [ 0 ][ 1 ]; "),
            (
                r#"{"rows":1,"tables":2,"stages":1}"#,
                "0.0 [ 0 ]; 0.1 [ 1 ]; ",
            ),
            (
                r#"{"rows":1,"tables":1,"stages":2}"#,
                "0.0 [ 0 ]; 1.0 [ 1 ]; ",
            ),
            (r#"{"rows":1,"tables":1,"stages":1}"#, "node 1"),
        ],
    ),
    // A stage has so many arrays.
    (
        &ARRAYS,
        &[
            (
                r#"{"arrays":2,"stages":1}"#,
                "0.0 [ 1 0 ]; array 0; array 1; ",
            ),
            (
                r#"{"arrays":1,"stages":2}"#,
                "0.0 [ 1 ]; array 0; 1.0 [ 0 ]; array 1; ",
            ),
            (r#"{"arrays":1,"stages":1}"#, "node 1"),
        ],
    ),
    // An operation that never acts takes no row.
    (&ODD, &[("{}", "0.0 [ ][ 0 ]; ")]),
];

/// Returns the number of the first row by which the code is laid out otherwise.
fn first_wrong(rt: &impl Abort, alloc: Global, given: &Given, rows: &[LimitsRow]) -> Option<usize> {
    let code = code(rt, alloc, given).expect(rt, "valid code");
    let mut wrong = None;
    for at in 0..rows.len() {
        let (limits, expected) = rows[at];
        if !is_laid(rt, alloc, &code, limits, expected) {
            wrong = Some(at);
            break;
        }
    }
    drop(code);
    wrong
}

fn all_are_laid(rt: &impl Abort, alloc: Global, codes: &[(&Given, &[LimitsRow])]) {
    for at in 0..codes.len() {
        let (given, rows) = codes[at];
        assert_eq!(rt; first_wrong(rt, alloc, given, rows), None, "code {at}");
    }
}

#[test]
fn each_code_has_its_layout(rt: HostRuntime) {
    all_are_laid(&rt, rt.alloc(), &ROWS);
}

/// Returns whether code of this many operations is refused for this cause.
fn is_refused(rt: &impl Abort, alloc: Global, count: u32, limits: &str, cause: &str) -> bool {
    let code = many(rt, alloc, count).expect(rt, "valid code");
    let is_refused = is_laid(rt, alloc, &code, limits, cause);
    drop(code);
    is_refused
}

#[test]
fn operations_are_counted_first(rt: HostRuntime) {
    assert!(rt; is_refused(&rt, rt.alloc(), 4_097, r#"{"bits":1}"#, "ops 4097"));
    assert!(rt; is_refused(&rt, rt.alloc(), 4_096, r#"{"bits":131199}"#, "bits 131200"));
}
