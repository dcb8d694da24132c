// The statements of a block, put together from the back.
ghost use Rattle.std.specs.Prelude.{◌≡◌, ◌++◌, [], ◌∷◌, None, Some, option_map, reverse, OnOk};
ghost use Rattle.lucid_core.specs.Endings.{of_either};
ghost use Rattle.lucid_types_spec.specs.declared.scope.ValueType.TheVariants.{Bool};
ghost use Rattle.lucid_types_spec.specs.Block.{before};
ghost use Rattle.lucid_types_laws.specs.declared.part.Part.TheVariants.{Does};
ghost use Rattle.lucid_types_laws.specs.Reading.{core_of};
ghost use Rattle.lucid_types_laws.specs.Statement.{chosen, onto, or_empty, put};
ghost use Rattle.lucid_types_expressions.specs.Gives.{Gives};
ghost use Rattle.lucid_types_statements.specs.Assembly.{GivesRest, HaveTheEffect, rest_of};
ghost use Rattle.lucid_types_statements.specs.Bodies.{Adds, alone_of};

use crate::simple::{one, part};
use lucid_base::{Items, Memory};
use lucid_core::{Ending, Expr, Stmt};
use lucid_parse_tree::E;
use lucid_types_expressions::{Fault, expression};
use lucid_types_laws::Part;
use lucid_types_scope::Scope;
use lucid_types_spec::{Body, ValueType};
use std::alloc::Global;

/// The rest after a statement: its steps, the last first.
#[derive(Drop)]
pub struct Rest {
    steps: Vec<Stmt>,
    ending: Ending,
}

/// Puts a part behind these, for any rest. Steps that go on are one part with the steps behind them, so a long block takes little memory.
#[inline(never)]
pub fn add_part(parts: &mut Items<Part>, part: Part) -> Result<(), Memory>
    ensures { OnOk result (HaveTheEffect parts.new (parts.old ++ part ∷ [])) }
{
    match part {
        Part::Does(body) => add_steps(parts, body),
        Part::Guard(test, yes) => Ok(parts.push(Part::Guard(test, yes))?),
    }
}

fn add_steps(parts: &mut Items<Part>, body: Body) -> Result<(), Memory>
    ensures { OnOk result (HaveTheEffect parts.new (parts.old ++ Does body ∷ [])) }
{
    match parts.pop() {
        None => Ok(parts.push(Part::Does(body))?),
        Some(Part::Guard(test, yes)) => add_both(parts, Part::Guard(test, yes), body),
        Some(Part::Does(last)) => match last.ending {
            Ending::Never => add_joined(parts, last.steps, body),
            _ => add_both(parts, Part::Does(last), body),
        },
    }
}

fn add_both(parts: &mut Items<Part>, part: Part, body: Body) -> Result<(), Memory>
    ensures { OnOk result (parts.new ≡ (parts.old ++ part ∷ []) ++ Does body ∷ []) }
{
    match parts.push(part) {
        Ok(()) => Ok(parts.push(Part::Does(body))?),
        Err(_) => {
            drop(body);
            Err(Memory)
        }
    }
}

/// Adds these steps and those of the body as one part.
fn add_joined(parts: &mut Items<Part>, steps: Items<Stmt>, body: Body) -> Result<(), Memory>
    ensures { OnOk result (parts.new ≡ parts.old ++ Does (before steps body) ∷ []) }
{
    let mut all = steps;
    let Body { steps, ending } = body;
    match all.append(steps) {
        Ok(()) => Ok(parts.push(Part::Does(Body { steps: all, ending }))?),
        Err(_) => {
            drop(all);
            Err(Memory)
        }
    }
}

/// The body of these parts in order.
#[tactic(auto, using(crate::proofs::Onto::onto_last, std::proofs::lemmas::Grind::common_steps))]
#[inline(never)]
pub fn assemble(alloc: Global, parts: Items<Part>) -> Result<Body, Fault>
    ensures { Gives result (option_map or_empty (onto parts None)) }
{
    let mut parts = parts;
    let Some(last) = parts.pop() else {
        return Ok(Body {
            steps: Items::new(alloc),
            ending: Ending::Never,
        });
    };
    match alone(alloc, last) {
        Ok(body) => {
            if parts.is_empty() {
                return Ok(body);
            }
            match turn(alloc, body) {
                Ok(rest) => all_before(alloc, parts, rest),
                Err(fault) => {
                    drop(parts);
                    Err(fault)
                }
            }
        }
        Err(fault) => {
            drop(parts);
            Err(fault)
        }
    }
}

#[tactic(auto, using(crate::proofs::Onto::onto_last, std::proofs::lemmas::Grind::common_steps))]
fn all_before(alloc: Global, parts: Items<Part>, rest: Rest) -> Result<Body, Fault>
    ensures { Gives result (option_map or_empty (onto parts (Some (rest_of rest)))) }
{
    let mut parts = parts;
    let mut rest = rest;
    'parts: while let Some(part) = parts.pop() {
        rest = before(alloc, part, rest)?;
    }
    Ok(in_order(rest))
}

/// The body of the rest.
fn in_order(rest: Rest) -> Body
    ensures { result ≡ rest_of rest }
{
    let Rest { mut steps, ending } = rest;
    steps.reverse();
    Body {
        steps: Items::from_vec(steps),
        ending,
    }
}

/// The body of one part alone.
fn alone(alloc: Global, part: Part) -> Result<Body, Fault>
    ensures { Gives result (put part None) }
{
    match part {
        Part::Does(body) => Ok(body),
        Part::Guard(test, yes) => {
            match one(
                alloc,
                Stmt::If(test, yes, Items::new(alloc)),
                Ending::Sometimes,
            ) {
                Ok(body) => Ok(body),
                Err(_) => Err(Fault::Memory),
            }
        }
    }
}

/// The steps of a body, the last first.
fn turn(alloc: Global, body: Body) -> Result<Rest, Fault>
    ensures { GivesRest result (Some body) }
{
    let Body { steps, ending } = body;
    let mut behind = Vec::new(alloc);
    match add(&mut behind, steps) {
        Ok(()) => Ok(Rest {
            steps: behind,
            ending,
        }),
        Err(_) => {
            drop(behind);
            Err(Fault::Memory)
        }
    }
}

/// A part before the rest. NoRule if it returns on some path.
fn before(alloc: Global, part: Part, rest: Rest) -> Result<Rest, Fault>
    ensures { GivesRest result (put part (Some (rest_of rest))) }
{
    match part {
        Part::Does(body) => does_before(body, rest),
        Part::Guard(test, yes) => {
            let Body { steps: no, ending } = in_order(rest);
            match one(
                alloc,
                Stmt::If(test, yes, no),
                either(Ending::Always, ending),
            ) {
                Ok(body) => turn(alloc, body),
                Err(_) => Err(Fault::Memory),
            }
        }
    }
}

/// A body before the rest. NoRule if it returns on some path.
fn does_before(body: Body, rest: Rest) -> Result<Rest, Fault>
    ensures { GivesRest result (put (Does body) (Some (rest_of rest))) }
{
    let Body {
        steps,
        ending: first,
    } = body;
    match first {
        Ending::Never => {
            let Rest {
                steps: mut behind,
                ending,
            } = rest;
            match add(&mut behind, steps) {
                Ok(()) => Ok(Rest {
                    steps: behind,
                    ending,
                }),
                Err(_) => {
                    drop(behind);
                    Err(Fault::Memory)
                }
            }
        }
        _ => {
            drop(steps);
            drop(rest);
            Err(Fault::NoRule)
        }
    }
}

/// Adds the steps, the last first.
fn add(behind: &mut Vec<Stmt>, steps: Items<Stmt>) -> Result<(), Memory>
    ensures { OnOk result (behind.new.items ≡ behind.old.items ++ reverse steps) }
{
    let mut steps = steps;
    'steps: while let Some(step) = steps.pop() {
        match behind.push(step) {
            Ok(()) => {}
            Err(failed) => {
                drop(failed);
                drop(steps);
                return Err(Memory);
            }
        }
    }
    Ok(())
}

/// Returns how an if ends, by its branches.
pub fn either(first: Ending, second: Ending) -> Ending
    ensures { result ≡ of_either first second }
{
    match first {
        Ending::Never => match second {
            Ending::Never => Ending::Never,
            _ => Ending::Sometimes,
        },
        Ending::Sometimes => Ending::Sometimes,
        Ending::Always => match second {
            Ending::Always => Ending::Always,
            _ => Ending::Sometimes,
        },
    }
}

/// An if on this test with these branches. Without a second one, a branch that always returns is a guard of all the rest.
#[inline(never)]
pub fn chosen(
    alloc: Global,
    scope: &Scope,
    test: &E,
    yes: Body,
    no: Option<Body>,
) -> Result<Part, Fault>
    ensures { Gives result (option_map (λ c. chosen c yes no) (core_of test.now scope.now Bool)) }
{
    match expression(alloc, scope, ValueType::Bool, test) {
        Ok(test) => branched(alloc, test, yes, no),
        Err(fault) => {
            drop(yes);
            drop(no);
            Err(fault)
        }
    }
}

/// The body of that if alone, as the second branch of another.
#[inline(never)]
pub fn chosen_alone(
    alloc: Global,
    scope: &Scope,
    test: &E,
    yes: Body,
    no: Option<Body>,
) -> Result<Option<Body>, Fault>
    ensures { Gives result (alone_of (option_map (λ c. chosen c yes no) (core_of test.now scope.now Bool))) }
{
    match chosen(alloc, scope, test, yes, no) {
        Ok(part) => only(alloc, part),
        Err(fault) => Err(fault),
    }
}

/// The body of one part alone, as the second branch of an if.
fn only(alloc: Global, part: Part) -> Result<Option<Body>, Fault>
    ensures { Gives result (option_map Some (put part None)) }
{
    match alone(alloc, part) {
        Ok(body) => Ok(Some(body)),
        Err(fault) => Err(fault),
    }
}

fn branched(alloc: Global, test: Expr, yes: Body, no: Option<Body>) -> Result<Part, Fault>
    ensures { Adds result (chosen test yes no) }
{
    let Body {
        steps: yes,
        ending: first,
    } = yes;
    match no {
        Some(
            Body {
                steps: no,
                ending: second,
            },
        ) => part(alloc, Stmt::If(test, yes, no), either(first, second)),
        None => match first {
            Ending::Always => Ok(Part::Guard(test, yes)),
            _ => part(
                alloc,
                Stmt::If(test, yes, Items::new(alloc)),
                either(first, Ending::Never),
            ),
        },
    }
}
