// Statements and blocks. The names of a block end with it; locals and texts stay.
ghost use Rattle.std.specs.Prelude.{◌≡◌, map, option_map, OnOk};
ghost use Rattle.lucid_types_laws.specs.Statement.{body_of, choosing, last_arm, other, other_of, parts, taking};
ghost use Rattle.lucid_types_statements.specs.MatchArms.{arms_of, cases_taken};
ghost use Rattle.lucid_types_scope.specs.Numbered.{numbered_of};
ghost use Rattle.lucid_types_statements.specs.Bodies.{Leaves, LeavesParts, Takes};
ghost use Rattle.lucid_types_statements.specs.Kept.{Keeps};

use crate::arms::{Arm, begin, joined};
use crate::assembly::{add_part, assemble, chosen, chosen_alone};
use crate::simple::{assign, declare, drop_call, drop_touch, generate, give_back, print};
use lucid_base::{Items, Width};
use lucid_core::Ending;
use lucid_parse_tree::{C, E, No, S};
use lucid_types_expressions::Fault;
use lucid_types_laws::Part;
use lucid_types_scope::{Numbering, Scope};
use lucid_types_spec::{Body, ValueType};
use std::alloc::Global;

#[cycle(block)]
fn statement(
    alloc: Global,
    answer: &Option<ValueType>,
    scope: &mut Scope,
    numbering: &mut Numbering,
    x: &S,
) -> Result<Part, Fault>
    ensures gives { Takes result scope.new (numbered_of numbering.new) (taking x.now answer.now scope.old (numbered_of numbering.old)) }
    ensures kept { OnOk result (Keeps scope.old scope.new) }
{
    match x {
        S::Declare(t, n, x) => declare(alloc, scope, numbering, *t, n, x),
        S::Assign(n, x) => assign(alloc, scope, n, x),
        S::Call(n, xs) => drop_call(alloc, scope, n, xs.as_slice()),
        S::Array(a) => drop_touch(alloc, scope, a.get()),
        S::Cond(c) => choice(alloc, answer, scope, numbering, c.get()),
        S::Return(x) => give_back(alloc, answer, scope, x),
        S::Generate(x) => generate(alloc, scope, x),
        S::Printf(text, xs) => print(alloc, scope, numbering, text, xs.as_slice()),
        S::Match { test, cases, last } => {
            let cases = cases.as_slice();
            match begin(alloc, scope, numbering, test, cases) {
                Ok(tested) => match arms(alloc, answer, scope, numbering, tested.width, cases) {
                    Ok(arms) => match last_arm(alloc, answer, scope, numbering, last) {
                        Ok(last) => joined(alloc, scope, test, tested, arms, last),
                        Err(fault) => {
                            drop(arms);
                            Err(fault)
                        }
                    },
                    Err(fault) => Err(fault),
                },
                Err(fault) => Err(fault),
            }
        }
    }
}

/// The body of these statements, in a body with this answer. NoRule if they have none.
#[cycle(block)]
pub fn block(
    alloc: Global,
    answer: &Option<ValueType>,
    scope: &mut Scope,
    numbering: &mut Numbering,
    xs: &[S],
) -> Result<Body, Fault>
    ensures gives { Leaves result (numbered_of numbering.new) (body_of xs.now answer.now scope.old (numbered_of numbering.old)) }
    ensures kept { OnOk result (scope.new ≡ scope.old) }
{
    let mark = scope.len();
    match statements(alloc, answer, scope, numbering, xs) {
        Ok(parts) => {
            scope.leave(mark);
            assemble(alloc, parts)
        }
        Err(fault) => Err(fault),
    }
}

/// The statements of a block, one after another, as parts with their effect.
#[cycle(block)]
fn statements(
    alloc: Global,
    answer: &Option<ValueType>,
    scope: &mut Scope,
    numbering: &mut Numbering,
    xs: &[S],
) -> Result<Items<Part>, Fault>
    ensures gives { LeavesParts result (numbered_of numbering.new) (parts (map taking xs.now) answer.now scope.old (numbered_of numbering.old)) }
    ensures kept { OnOk result (Keeps scope.old scope.new) }
{
    let mut parts = Items::new(alloc);
    for x in xs {
        match statement(alloc, answer, scope, numbering, x) {
            Ok(part) => add_part(&mut parts, part)?,
            Err(fault) => {
                drop(parts);
                return Err(fault);
            }
        }
    }
    Ok(parts)
}

/// A choice. Its test comes last, so that no core waits for those of the branches.
#[cycle(block)]
fn choice(
    alloc: Global,
    answer: &Option<ValueType>,
    scope: &mut Scope,
    numbering: &mut Numbering,
    c: &C,
) -> Result<Part, Fault>
    ensures gives { Takes result scope.new (numbered_of numbering.new) (choosing c.now answer.now scope.old (numbered_of numbering.old)) }
    ensures kept { OnOk result (scope.new ≡ scope.old) }
{
    match block(alloc, answer, scope, numbering, c.yes.as_slice()) {
        Ok(yes) => match second(alloc, answer, scope, numbering, &c.no) {
            Ok(no) => chosen(alloc, scope, &c.test, yes, no),
            Err(fault) => {
                drop(yes);
                Err(fault)
            }
        },
        Err(fault) => Err(fault),
    }
}

/// The part after the first block of a choice. It is not inlined and does not call `choice`, so that each `else if` of a chain takes one
/// frame of the stack.
#[cycle(block)]
#[inline(never)]
fn second(
    alloc: Global,
    answer: &Option<ValueType>,
    scope: &mut Scope,
    numbering: &mut Numbering,
    no: &No,
) -> Result<Option<Body>, Fault>
    ensures gives { Leaves result (numbered_of numbering.new) (other_of (other no.now) answer.now scope.old (numbered_of numbering.old)) }
    ensures kept { OnOk result (scope.new ≡ scope.old) }
{
    match no {
        No::Absent => Ok(None),
        No::Block(xs) => match block(alloc, answer, scope, numbering, xs.as_slice()) {
            Ok(body) => Ok(Some(body)),
            Err(fault) => Err(fault),
        },
        No::Cond(c) => {
            let c = c.get();
            match block(alloc, answer, scope, numbering, c.yes.as_slice()) {
                Ok(yes) => match second(alloc, answer, scope, numbering, &c.no) {
                    Ok(no) => chosen_alone(alloc, scope, &c.test, yes, no),
                    Err(fault) => {
                        drop(yes);
                        Err(fault)
                    }
                },
                Err(fault) => Err(fault),
            }
        }
    }
}

/// The cases of a `match` on a value of this width, one after another. It is not inlined, as `second`.
#[cycle(block)]
#[inline(never)]
fn arms(
    alloc: Global,
    answer: &Option<ValueType>,
    scope: &mut Scope,
    numbering: &mut Numbering,
    width: Width,
    cases: &[(u64, Items<S>)],
) -> Result<Items<Arm>, Fault>
    ensures gives { Leaves result (numbered_of numbering.new) (arms_of (cases_taken cases.now) width answer.now scope.old (numbered_of numbering.old)) }
    ensures kept { OnOk result (scope.new ≡ scope.old) }
{
    let mut arms = Items::new(alloc);
    for case in cases {
        if !width.fits(case.0) {
            drop(arms);
            return Err(Fault::NoRule);
        }
        match block(alloc, answer, scope, numbering, case.1.as_slice()) {
            Ok(body) => {
                arms.push(Arm {
                    number: case.0,
                    body,
                })?
            }
            Err(fault) => {
                drop(arms);
                return Err(fault);
            }
        }
    }
    Ok(arms)
}

/// The body that runs if no case is met. It is not inlined, as `second`.
#[cycle(block)]
#[inline(never)]
fn last_arm(
    alloc: Global,
    answer: &Option<ValueType>,
    scope: &mut Scope,
    numbering: &mut Numbering,
    last: &Option<Items<S>>,
) -> Result<Body, Fault>
    ensures gives { Leaves result (numbered_of numbering.new) (last_arm (option_map (map taking) last.now) answer.now scope.old (numbered_of numbering.old)) }
    ensures kept { OnOk result (scope.new ≡ scope.old) }
{
    match last {
        None => Ok(Body {
            steps: Items::new(alloc),
            ending: Ending::Never,
        }),
        Some(xs) => block(alloc, answer, scope, numbering, xs.as_slice()),
    }
}
