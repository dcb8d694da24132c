// Statements without blocks.
ghost use Rattle.std.specs.Prelude.{◌≡◌, ◌∷◌, IfOk, OnOk, length};
ghost use Rattle.lucid_types_spec.specs.declared.scope.Entry.TheVariants as entry;
ghost use Rattle.lucid_types_spec.specs.Block.{Numbered, one, one_local};
ghost use Rattle.lucid_types_spec.specs.Names.{called};
ghost use Rattle.lucid_types_spec.specs.Types.{width_of};
ghost use Rattle.lucid_types_laws.specs.declared.part.Part.TheVariants.{Does};
ghost use Rattle.lucid_types_laws.specs.Statement.{assigned, call_dropped, declared, generated, printed, returned, simple, stays, touch_dropped};
ghost use Rattle.lucid_types_scope.specs.Numbered.{numbered_of};
ghost use Rattle.lucid_types_statements.specs.Bodies.{Adds, Takes};

use crate::print_holes::holes;
use crate::sendings::{self, sending};
use crate::types::{type_of, width_of};
use lucid_base::{Boxed, Id, Items, Memory, Width};
use lucid_core::{Ending, Expr, Stmt};
use lucid_parse_tree::{A, E, Ty, V};
use lucid_types_expressions::{Fault, all_free, call, expression, touch};
use lucid_types_laws::Part;
use lucid_types_scope::{Numbering, Scope};
use lucid_types_spec::{Body, Entry, Named, ValueType};
use std::alloc::Global;

/// A body of one statement. It takes memory for this one alone, since a long block has as many of these.
pub fn one(alloc: Global, step: Stmt, ending: Ending) -> Result<Body, Memory>
    ensures { IfOk result (λ body. body ≡ one step ending) }
{
    let Ok(steps) = Vec::with_capacity(alloc, 1) else {
        drop(step);
        return Err(Memory);
    };
    let mut steps = Items::from_vec(steps);
    match steps.push(step) {
        Ok(()) => Ok(Body { steps, ending }),
        Err(_) => {
            drop(steps);
            Err(Memory)
        }
    }
}

/// One statement as a part of its block. It is not inlined, so that nested blocks take little stack; nor are the forms of statements.
#[inline(never)]
pub fn part(alloc: Global, step: Stmt, ending: Ending) -> Result<Part, Fault>
    ensures { Adds result (Does (one step ending)) }
{
    match one(alloc, step, ending) {
        Ok(body) => Ok(Part::Does(body)),
        Err(_) => Err(Fault::Memory),
    }
}

/// A declared local, with its name and its number behind it. NoRule if its type or its value has none.
#[inline(never)]
pub fn declare(
    alloc: Global,
    scope: &mut Scope,
    numbering: &mut Numbering,
    t: Ty,
    n: &Id,
    x: &E,
) -> Result<Part, Fault>
    ensures { Takes result scope.new (numbered_of numbering.new) (declared t n.now x.now scope.old (numbered_of numbering.old)) }
{
    match type_of(t) {
        None => Err(Fault::NoRule),
        Some(t) => match expression(alloc, scope, t, x) {
            Ok(c) => match enter_local(alloc, scope, numbering, n, &t) {
                Ok(local) => part(alloc, Stmt::Assign(local, c), Ending::Never),
                Err(_) => {
                    drop(c);
                    Err(Fault::Memory)
                }
            },
            Err(fault) => Err(fault),
        },
    }
}

/// Adds a local of this name and type, and returns its number.
fn enter_local(
    alloc: Global,
    scope: &mut Scope,
    numbering: &mut Numbering,
    n: &Id,
    t: &ValueType,
) -> Result<u32, Memory>
    ensures local { IfOk result (λ i. i ≡ length numbering.old.locals) }
    ensures names { IfOk result (λ i. scope.new ≡ called n.now (entry.Local i t.now) ∷ scope.old) }
    ensures numbered { OnOk result (numbered_of numbering.new ≡ one_local (width_of t.now) (numbered_of numbering.old)) }
{
    let local = new_local(numbering, width_of(*t))?;
    scope.enter(Named {
        name: n.copy(alloc)?,
        entry: Entry::Local(local, *t),
    })?;
    Ok(local)
}

/// Adds a local of this width, and returns its number.
pub fn new_local(numbering: &mut Numbering, width: Width) -> Result<u32, Memory>
    ensures local { IfOk result (λ i. i ≡ length numbering.old.locals) }
    ensures numbered { OnOk result (numbered_of numbering.new ≡ one_local width (numbered_of numbering.old)) }
{
    let local = numbering.next_local()?;
    numbering.add_local(width)?;
    Ok(local)
}

/// An assignment. NoRule if the name is no local's, or the value doesn't have its type.
#[inline(never)]
pub fn assign(alloc: Global, scope: &Scope, n: &Id, x: &E) -> Result<Part, Fault>
    ensures { (m : Numbered) → Takes result scope.now m (simple scope.now m (assigned n.now x.now scope.now)) }
{
    match scope.find(n) {
        Some(Entry::Local(local, t)) => match expression(alloc, scope, *t, x) {
            Ok(c) => part(alloc, Stmt::Assign(*local, c), Ending::Never),
            Err(fault) => Err(fault),
        },
        _ => Err(Fault::NoRule),
    }
}

/// A call of a function, whose value is dropped.
#[inline(never)]
pub fn drop_call(alloc: Global, scope: &Scope, n: &Id, xs: &[E]) -> Result<Part, Fault>
    ensures { (m : Numbered) → Takes result scope.now m (simple scope.now m (call_dropped n.now xs.now scope.now)) }
{
    match call(alloc, scope, n, xs) {
        Ok((_, c)) => part(alloc, Stmt::Drop(c), Ending::Never),
        Err(fault) => Err(fault),
    }
}

/// A call of an array, whose value is dropped.
#[inline(never)]
pub fn drop_touch(alloc: Global, scope: &Scope, x: &A) -> Result<Part, Fault>
    ensures { (m : Numbered) → Takes result scope.now m (simple scope.now m (touch_dropped x.now scope.now)) }
{
    match touch(alloc, scope, x) {
        Ok((_, c)) => match Boxed::new(alloc, c) {
            Ok(c) => part(alloc, Stmt::Drop(Expr::Array(c)), Ending::Never),
            Err(_) => Err(Fault::Memory),
        },
        Err(fault) => Err(fault),
    }
}

/// A `generate` statement.
#[inline(never)]
pub fn generate(alloc: Global, scope: &Scope, x: &V) -> Result<Part, Fault>
    ensures { (m : Numbered) → Takes result scope.now m (simple scope.now m (generated x.now scope.now)) }
{
    match sending(alloc, scope, x) {
        Ok(out) => part(alloc, sendings::sent(out), Ending::Never),
        Err(fault) => Err(fault),
    }
}

/// A print. NoRule if its arguments are not as many as its text has `%d`.
#[inline(never)]
pub fn print(
    alloc: Global,
    scope: &Scope,
    numbering: &mut Numbering,
    text: &Id,
    xs: &[E],
) -> Result<Part, Fault>
    ensures { Takes result scope.now (numbered_of numbering.new) (stays scope.now (printed text.now xs.now scope.now (numbered_of numbering.old))) }
{
    match all_free(alloc, scope, xs) {
        Ok(args) => {
            if args.len() != holes(text.bytes()) {
                drop(args);
                return Err(Fault::NoRule);
            }
            match numbering.forms.number(alloc, text) {
                Ok(form) => part(alloc, Stmt::Say { form, args }, Ending::Never),
                Err(_) => {
                    drop(args);
                    Err(Fault::Memory)
                }
            }
        }
        Err(fault) => Err(fault),
    }
}

/// A return in a body with this answer. NoRule if it gives a value and the answer is none, or the other way round.
#[inline(never)]
pub fn give_back(
    alloc: Global,
    answer: &Option<ValueType>,
    scope: &Scope,
    x: &Option<E>,
) -> Result<Part, Fault>
    ensures { (m : Numbered) → Takes result scope.now m (stays scope.now (returned answer.now x.now scope.now m)) }
{
    match answer {
        None => match x {
            None => part(alloc, Stmt::Return(None), Ending::Always),
            Some(_) => Err(Fault::NoRule),
        },
        Some(t) => match x {
            None => Err(Fault::NoRule),
            Some(x) => match expression(alloc, scope, *t, x) {
                Ok(c) => part(alloc, Stmt::Return(Some(c)), Ending::Always),
                Err(fault) => Err(fault),
            },
        },
    }
}
