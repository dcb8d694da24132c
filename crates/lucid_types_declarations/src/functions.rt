// Functions.
ghost use Rattle.std.specs.Prelude.{◌≡◌, OnOk};
ghost use Rattle.lucid_core.specs.declared.defs.FunDef.{FunDef as Def};
ghost use Rattle.lucid_types_spec.specs.Types.{answer_width, cell_widths};
ghost use Rattle.lucid_types_laws.specs.Declaration.{answer_of, ends_well, fun};
ghost use Rattle.lucid_types_expressions.specs.Gives.{Gives};
ghost use Rattle.lucid_types_declarations.specs.Functions.{with_fun};
ghost use Rattle.lucid_types_declarations.specs.Known.{Declares, made_of};

use crate::Known;
use crate::known::enter;
use crate::parameters::{cell_widths, parameters, value_widths};
use lucid_base::{Id, Items, Memory, Width};
use lucid_core::{Ending, FunDef, Stmt};
use lucid_parse_tree::{P, S, Ty};
use lucid_types_expressions::Fault;
use lucid_types_scope::number;
use lucid_types_spec::{Entry, Param, ValueType};
use lucid_types_statements::{block, type_of, width_of};
use std::alloc::Global;
use std::mem;

/// NoRule if a type is none, the body has none, or it gives a value and doesn't always return.
pub fn fun(
    alloc: Global,
    known: &mut Known,
    decl: u32,
    line: u32,
    answer: &Option<Ty>,
    n: &Id,
    ps: &[P],
    body: &[S],
) -> Result<(), Fault>
    ensures { Declares result known.new (fun decl line answer.now n.now ps.now body.now (made_of known.old)) }
{
    let answer = answer_of(answer)?;
    let mark = known.scope.len();
    let params = parameters(alloc, &mut known.scope, ps)?;
    let locals = value_widths(alloc, params.as_slice())?;
    let values = number(locals.len())?;
    known.numbering.locals = locals;
    match block(alloc, &answer, &mut known.scope, &mut known.numbering, body) {
        Ok(body) => {
            known.scope.leave(mark);
            if !ends_well(&answer, body.ending) {
                drop(body);
                drop(params);
                return Err(Fault::NoRule);
            }
            add_fun(
                alloc, known, n, params, values, answer, body.steps, decl, line,
            )?;
            Ok(())
        }
        Err(fault) => {
            drop(params);
            Err(fault)
        }
    }
}

/// The type of a written answer; None is void.
fn answer_of(answer: &Option<Ty>) -> Result<Option<ValueType>, Fault>
    ensures { Gives result (answer_of answer.now) }
{
    match answer {
        None => Ok(None),
        Some(t) => match type_of(*t) {
            Some(t) => Ok(Some(t)),
            None => Err(Fault::NoRule),
        },
    }
}

/// With a value it always returns.
fn ends_well(answer: &Option<ValueType>, ending: Ending) -> bool
    ensures { result ≡ ends_well answer.now ending }
{
    match answer {
        None => true,
        Some(_) => match ending {
            Ending::Always => true,
            _ => false,
        },
    }
}

fn answer_width(answer: &Option<ValueType>) -> Option<Width>
    ensures { result ≡ answer_width answer.now }
{
    match answer {
        None => None,
        Some(t) => Some(width_of(*t)),
    }
}

/// Adds the function, with the numbered locals, and its name.
fn add_fun(
    alloc: Global,
    known: &mut Known,
    n: &Id,
    params: Items<Param>,
    values: u32,
    answer: Option<ValueType>,
    body: Items<Stmt>,
    decl: u32,
    line: u32,
) -> Result<(), Memory>
    ensures { (f : Def) → f ≡ record {
      name = n.now;
      arrays = cell_widths params;
      params = values;
      locals = known.old.numbering.locals;
      answer = answer_width answer;
      body = body;
      decl = decl;
      line = line;
    } → OnOk result (made_of known.new ≡ with_fun n.now f params answer (made_of known.old)) }
{
    let fun = number(known.funs.len())?;
    let name = n.copy(alloc)?;
    let arrays = cell_widths(alloc, params.as_slice())?;
    known.funs.push(FunDef {
        name,
        arrays,
        params: values,
        locals: mem::replace(&mut known.numbering.locals, Items::new(alloc)),
        answer: answer_width(&answer),
        body,
        decl,
        line,
    })?;
    enter(alloc, &mut known.scope, n, Entry::Fun(fun, params, answer))
}
