// The arms of a `match`.
ghost use Rattle.std.specs.Prelude.{◌≡◌, ◌∷◌, [], option_map, IfOk, map};
ghost use Rattle.lucid_base.specs.Numbers.{all_differ};
ghost use Rattle.lucid_core.specs.declared.body.Stmt.TheVariants as core;
ghost use Rattle.lucid_types_spec.specs.Block.{before, is_number};
ghost use Rattle.lucid_types_laws.specs.declared.part.Part.TheVariants.{Does};
ghost use Rattle.lucid_types_laws.specs.Reading.{free, reading};
ghost use Rattle.lucid_types_expressions.specs.Gives.{Gives};
ghost use Rattle.lucid_types_statements.specs.Arms.{Begins};
ghost use Rattle.lucid_types_statements.specs.Assembly.{chained};
ghost use Rattle.lucid_types_statements.specs.Bodies.{Adds};
ghost use Rattle.lucid_types_scope.specs.Numbered.{numbered_of};

use crate::assembly::either;
use crate::simple::{new_local, one};
use lucid_base::{Bits, Boxed, CmpOp, Items, Memory, Width};
use lucid_core::{Ending, Expr, Stmt};
use lucid_parse_tree::{E, S};
use lucid_types_expressions::{Fault, free, free_width};
use lucid_types_laws::Part;
use lucid_types_scope::{Numbering, Scope, are_distinct};
use lucid_types_spec::Body;
use std::alloc::Global;

/// A number and the body that runs for it.
#[derive(Drop)]
pub struct Arm {
    pub number: u64,
    pub body: Body,
}

/// The numbers of the cases.
fn numbers(alloc: Global, cases: &[(u64, Items<S>)]) -> Result<Items<u64>, Memory>
    ensures { IfOk result (λ numbers. numbers ≡ map (λ z. z.0) cases.now) }
{
    let mut numbers = Items::new(alloc);
    for case in cases {
        numbers.push(case.0)?;
    }
    Ok(numbers)
}

/// Whether no two cases have one number.
fn differ(alloc: Global, cases: &[(u64, Items<S>)]) -> Result<bool, Memory>
    ensures { IfOk result (λ differ. differ ≡ all_differ (map (λ z. z.0) cases.now)) }
{
    let numbers = numbers(alloc, cases)?;
    are_distinct(alloc, numbers.as_slice())
}

/// The choices between these arms on a local, and the body that runs if none is met.
#[tactic(auto, using(crate::proofs::Chains::chained_last, std::proofs::lemmas::Grind::common_steps))]
pub fn chain(
    alloc: Global,
    local: u32,
    width: Width,
    arms: Items<Arm>,
    last: Body,
) -> Result<Body, Memory>
    ensures { IfOk result (λ body. body ≡ chained local width arms last) }
{
    let mut arms = arms;
    let mut rest = last;
    'arms: while let Some(arm) = arms.pop() {
        rest = choice(alloc, local, width, arm, rest)?;
    }
    Ok(rest)
}

fn choice(alloc: Global, local: u32, width: Width, arm: Arm, rest: Body) -> Result<Body, Memory>
    ensures { IfOk result (λ body. body ≡ chained local width (arm ∷ []) rest) }
{
    let Arm { number, body } = arm;
    match is_number(alloc, local, width, number) {
        Ok(test) => {
            let ending = either(body.ending, rest.ending);
            let Body {
                steps: yes,
                ending: _,
            } = body;
            let Body {
                steps: no,
                ending: _,
            } = rest;
            one(alloc, Stmt::If(test, yes, no), ending)
        }
        Err(memory) => {
            drop(body);
            drop(rest);
            Err(memory)
        }
    }
}

fn is_number(alloc: Global, local: u32, width: Width, number: u64) -> Result<Expr, Memory>
    ensures { IfOk result (λ test. test ≡ is_number local width number) }
{
    match Boxed::new(alloc, Expr::Local(local)) {
        Ok(value) => match Boxed::new(alloc, Expr::Fixed(Bits::low(width, number))) {
            Ok(number) => Ok(Expr::Cmp(CmpOp::Eq, value, number)),
            Err(_) => {
                drop(value);
                Err(Memory)
            }
        },
        Err(_) => Err(Memory),
    }
}

/// The choices between the arms, behind the value that is tested.
#[inline(never)]
pub fn joined(
    alloc: Global,
    scope: &Scope,
    test: &E,
    tested: Tested,
    arms: Items<Arm>,
    last: Body,
) -> Result<Part, Fault>
    ensures { Gives result (option_map (λ c. Does (before (core.Assign tested.local c ∷ []) (chained tested.local tested.width arms last))) (free (reading test.now) scope.now)) }
{
    match free(alloc, scope, test) {
        Ok(value) => match chain(alloc, tested.local, tested.width, arms, last) {
            Ok(body) => behind_test(alloc, tested.local, value, body),
            Err(_) => {
                drop(value);
                Err(Fault::Memory)
            }
        },
        Err(fault) => {
            drop(arms);
            drop(last);
            Err(fault)
        }
    }
}

/// The local's value is assigned before the choices.
fn behind_test(alloc: Global, local: u32, value: Expr, body: Body) -> Result<Part, Fault>
    ensures { Adds result (Does (before (core.Assign local value ∷ []) body)) }
{
    match one(alloc, Stmt::Assign(local, value), Ending::Never) {
        Ok(first) => {
            let Body {
                mut steps,
                ending: _,
            } = first;
            let Body {
                steps: rest,
                ending,
            } = body;
            match steps.append(rest) {
                Ok(()) => Ok(Part::Does(Body { steps, ending })),
                Err(_) => {
                    drop(steps);
                    Err(Fault::Memory)
                }
            }
        }
        Err(_) => {
            drop(body);
            Err(Fault::Memory)
        }
    }
}

/// The local that a `match` tests, and its width.
#[derive(Clone, Copy)]
pub struct Tested {
    pub local: u32,
    pub width: Width,
}

/// A local of its own for the value that is tested. NoRule if there is no case, two have one number, or the value has no width.
#[inline(never)]
pub fn begin(
    alloc: Global,
    scope: &Scope,
    numbering: &mut Numbering,
    test: &E,
    cases: &[(u64, Items<S>)],
) -> Result<Tested, Fault>
    ensures { Begins result test.now (map (λ z. z.0) cases.now) scope.now (numbered_of numbering.old) (numbered_of numbering.new) }
{
    if cases.is_empty() {
        return Err(Fault::NoRule);
    }
    match differ(alloc, cases) {
        Ok(true) => match Width::new(free_width(scope, test)) {
            None => Err(Fault::NoRule),
            Some(width) => match new_local(numbering, width) {
                Ok(local) => Ok(Tested { local, width }),
                Err(_) => Err(Fault::Memory),
            },
        },
        Ok(false) => Err(Fault::NoRule),
        Err(_) => Err(Fault::Memory),
    }
}
