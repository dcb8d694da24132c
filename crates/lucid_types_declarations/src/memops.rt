// Memops.
ghost use Rattle.std.specs.Prelude.{◌≡◌, ◌∷◌, [], Some, OnOk};
ghost use Rattle.lucid_core.specs.declared.body.Expr.TheVariants as core;
ghost use Rattle.lucid_types_spec.specs.declared.scope.ValueType.TheVariants.{Int};
ghost use Rattle.lucid_types_spec.specs.Memop.{memop_names};
ghost use Rattle.lucid_types_laws.specs.Declaration.{memop};
ghost use Rattle.lucid_types_laws.specs.Memop.{memop_body, one_return};
ghost use Rattle.lucid_types_laws.specs.Reading.{compared, core_of, reading};
ghost use Rattle.lucid_types_expressions.specs.Gives.{Gives};
ghost use Rattle.lucid_types_declarations.specs.Known.{Declares, made_of};
ghost use Rattle.lucid_types_declarations.specs.Memops.{chosen, second};

use crate::Known;
use crate::constants::int_of;
use crate::known::enter;
use lucid_base::{Boxed, CmpOp, Id, Items, Width};
use lucid_core::{Expr, MemopDef, Stmt};
use lucid_memop::shape;
use lucid_parse_tree::{C, E, No, S, Ty};
use lucid_types_expressions::{Fault, comparison, expression};
use lucid_types_scope::Scope;
use lucid_types_spec::{Entry, ValueType};
use std::alloc::Global;

/// NoRule if its parameters are no ints of one width, or its body doesn't have the shape of a memop.
pub fn memop(
    alloc: Global,
    known: &mut Known,
    n: &Id,
    first: &(Ty, Id),
    second: &(Ty, Id),
    body: &[S],
) -> Result<(), Fault>
    ensures { Declares result known.new (memop n.now first.now second.now body.now (made_of known.old)) }
{
    match int_of(first.0) {
        None => Err(Fault::NoRule),
        Some(width) => match int_of(second.0) {
            None => Err(Fault::NoRule),
            Some(other) => {
                if width != other {
                    return Err(Fault::NoRule);
                }
                let steps = steps_of(alloc, &mut known.scope, width, &first.1, &second.1, body)?;
                let found = shape(width, steps.as_slice());
                drop(steps);
                match found {
                    None => Err(Fault::NoRule),
                    Some(alu) => {
                        enter(alloc, &mut known.scope, n, Entry::Memop(alu))?;
                        known.memops.push(MemopDef {
                            name: n.copy(alloc)?,
                            alu,
                        })?;
                        Ok(())
                    }
                }
            }
        },
    }
}

/// The body of a memop whose parameters have these names.
#[tactic(auto, using(crate::proofs::Two::keeps_two, std::proofs::lemmas::Grind::common_steps))]
fn steps_of(
    alloc: Global,
    scope: &mut Scope,
    width: Width,
    first: &Id,
    second: &Id,
    body: &[S],
) -> Result<Items<Stmt>, Fault>
    ensures gives { Gives result (memop_body width (memop_names width first.now second.now scope.old) body.now) }
    ensures kept { OnOk result (scope.new ≡ scope.old) }
{
    let mark = scope.len();
    enter(alloc, scope, first, Entry::Local(0, ValueType::Int(width)))?;
    enter(alloc, scope, second, Entry::Local(1, ValueType::Int(width)))?;
    let steps = memop_body(alloc, scope, width, body);
    scope.leave(mark);
    steps
}

/// One return, or one if with one return in each branch.
fn memop_body(alloc: Global, scope: &Scope, width: Width, body: &[S]) -> Result<Items<Stmt>, Fault>
    ensures { Gives result (memop_body width scope.now body.now) }
{
    match body {
        [] => Err(Fault::NoRule),
        [S::Cond(c), rest @ ..] => chosen(alloc, scope, width, c.get(), rest),
        _ => one_return(alloc, scope, width, body),
    }
}

/// An if, whose second branch may follow it as statements.
fn chosen(
    alloc: Global,
    scope: &Scope,
    width: Width,
    c: &C,
    rest: &[S],
) -> Result<Items<Stmt>, Fault>
    ensures { Gives result (chosen width scope.now c.now rest.now) }
{
    match condition(alloc, scope, width, &c.test) {
        Ok(test) => match one_return(alloc, scope, width, c.yes.as_slice()) {
            Ok(yes) => match second(alloc, scope, width, &c.no, rest) {
                Ok(no) => one(alloc, Stmt::If(test, yes, no)),
                Err(fault) => {
                    drop(test);
                    drop(yes);
                    Err(fault)
                }
            },
            Err(fault) => {
                drop(test);
                Err(fault)
            }
        },
        Err(fault) => Err(fault),
    }
}

fn second(
    alloc: Global,
    scope: &Scope,
    width: Width,
    no: &No,
    rest: &[S],
) -> Result<Items<Stmt>, Fault>
    ensures { Gives result (second width scope.now no.now rest.now) }
{
    match no {
        No::Absent => one_return(alloc, scope, width, rest),
        No::Block(ys) => match rest {
            [] => one_return(alloc, scope, width, ys.as_slice()),
            _ => Err(Fault::NoRule),
        },
        No::Cond(_) => Err(Fault::NoRule),
    }
}

/// A block that is one return of a value.
fn one_return(alloc: Global, scope: &Scope, width: Width, body: &[S]) -> Result<Items<Stmt>, Fault>
    ensures { Gives result (one_return width scope.now body.now) }
{
    match body {
        [S::Return(Some(x))] => match expression(alloc, scope, ValueType::Int(width), x) {
            Ok(c) => one(alloc, Stmt::Return(Some(c))),
            Err(fault) => Err(fault),
        },
        _ => Err(Fault::NoRule),
    }
}

/// A body of one statement.
fn one(alloc: Global, step: Stmt) -> Result<Items<Stmt>, Fault>
    ensures { Gives result (Some (step ∷ [])) }
{
    let mut steps = Items::new(alloc);
    match steps.push(step) {
        Ok(()) => Ok(steps),
        Err(_) => {
            drop(steps);
            Err(Fault::Memory)
        }
    }
}

/// A comparison of two values of the memop's width.
fn condition(alloc: Global, scope: &Scope, width: Width, x: &E) -> Result<Expr, Fault>
    ensures { Gives result ((reading x.now).condition scope.now width) }
{
    match x {
        E::Paren(x) => condition(alloc, scope, width, x.get()),
        E::Infix(sign, x, y) => match comparison(*sign) {
            None => Err(Fault::NoRule),
            Some(op) => compared(alloc, scope, width, op, x.get(), y.get()),
        },
        _ => Err(Fault::NoRule),
    }
}

/// A comparison of two operands of this width.
fn compared(
    alloc: Global,
    scope: &Scope,
    width: Width,
    op: CmpOp,
    x: &E,
    y: &E,
) -> Result<Expr, Fault>
    ensures { Gives result (compared op (core_of x.now scope.now (Int width)) (core_of y.now scope.now (Int width))) }
{
    match expression(alloc, scope, ValueType::Int(width), x) {
        Ok(c) => match expression(alloc, scope, ValueType::Int(width), y) {
            Ok(d) => both(alloc, op, c, d),
            Err(fault) => {
                drop(c);
                Err(fault)
            }
        },
        Err(fault) => Err(fault),
    }
}

/// The comparison of these.
fn both(alloc: Global, op: CmpOp, c: Expr, d: Expr) -> Result<Expr, Fault>
    ensures { Gives result (Some (core.Cmp op c d)) }
{
    match Boxed::new(alloc, c) {
        Ok(c) => match Boxed::new(alloc, d) {
            Ok(d) => Ok(Expr::Cmp(op, c, d)),
            Err(_) => {
                drop(c);
                Err(Fault::Memory)
            }
        },
        Err(_) => {
            drop(d);
            Err(Fault::Memory)
        }
    }
}
