// The program, if its functions and handlers touch arrays in order; else the names of a cycle, as the declaration has them.
ghost use Rattle.std.specs.Prelude.{◌≡◌, ◌<◌, [], IfOk, map, nat_eq, option_map};
ghost use Rattle.std.specs.List.{find};
ghost use Rattle.std.specs.Option.{unwrap_or};
ghost use Rattle.lucid_effects_spec.specs.Order.{IsAccepted};
ghost use Rattle.lucid_top_words.specs.Outcome.{Prepares};
ghost use Rattle.lucid_top_program.specs.Program.{IsOrdered, array_name, array_param as array_param_of, declared_line, param_of};

use lucid_base::{ArrayName, Id, Memory, Steps};
use lucid_core::{Core, FunDef, HandlerDef};
use lucid_effects::{OrderError, check_order};
use lucid_parse::{Decl, DeclKind, P, Tree};
use lucid_top_words::Refusal;
use std::alloc::Global;
use std::sync::ledger::{Blank, Ledger};

/// Returns the program, if its functions and handlers touch arrays in order.
pub(crate) fn in_order<L: Ledger>(
    alloc: Global,
    tree: &Tree,
    core: Core,
    blank: Blank,
) -> Result<Core, Refusal>
    requires name { blank.name ≡ L.name }
    requires parts { blank.parts ≡ L.parts }
    requires cut { 0 < L.parts }
    ensures ordered { Prepares (IsOrdered tree.now core) (λ c. c) result }
    ensures accepted { IfOk result IsAccepted }
{
    let mut steps = Steps::<L>::new(blank);
    match check_order(alloc, &core, &mut steps) {
        Ok(_) => Ok(core),
        Err(OrderError::NoOrder { decl, cycle }) => {
            let line = line_of(&core, decl);
            let cycle = names(alloc, tree, &core, decl, cycle.as_slice())?;
            Err(Refusal::NoOrder { decl, line, cycle })
        }
        Err(OrderError::Memory) => Err(Refusal::Memory),
    }
}

// The line on which the function or handler of this number begins.
fn line_of(core: &Core, decl: u32) -> u32
    ensures { result ≡ declared_line core.now decl }
{
    match fun_line(core.funs(), decl) {
        Some(line) => line,
        None => handler_line(core.handlers(), decl).unwrap_or(0),
    }
}

fn fun_line(funs: &[FunDef], decl: u32) -> Option<u32>
    ensures { result ≡ option_map (λ f. f.line) (find (λ f. nat_eq f.decl decl) funs.now) }
{
    for f in funs {
        if f.decl == decl {
            return Some(f.line);
        }
    }
    None
}

fn handler_line(handlers: &[HandlerDef], decl: u32) -> Option<u32>
    ensures { result ≡ option_map (λ h. h.line) (find (λ h. nat_eq h.decl decl) handlers.now) }
{
    for h in handlers {
        if h.decl == decl {
            return Some(h.line);
        }
    }
    None
}

// The names of these arrays, as the declaration has them.
fn names(
    alloc: Global,
    tree: &Tree,
    core: &Core,
    decl: u32,
    arrays: &[ArrayName],
) -> Result<Vec<Id>, Memory>
    ensures { IfOk result (λ names. names.items ≡ map (array_name tree.now core.now decl) arrays.now) }
{
    let mut names = Vec::new(alloc);
    for array in arrays {
        names.push(name_of(alloc, tree, core, decl, *array)?)?;
    }
    Ok(names)
}

fn name_of(
    alloc: Global,
    tree: &Tree,
    core: &Core,
    decl: u32,
    array: ArrayName,
) -> Result<Id, Memory>
    ensures { IfOk result (λ name. name ≡ array_name tree.now core.now decl array) }
{
    match array {
        ArrayName::Global(i) => match core.arrays().get(i as usize) {
            Some(declared) => declared.name.copy(alloc),
            None => Id::new(alloc, b""),
        },
        ArrayName::Param(i) => match tree.decls.as_slice().get((decl as usize).saturating_sub(1)) {
            Some(declared) => param_name(alloc, declared, i),
            None => Id::new(alloc, b""),
        },
    }
}

// The name of array parameter `i` of the declaration.
fn param_name(alloc: Global, declared: &Decl, i: u32) -> Result<Id, Memory>
    ensures { IfOk result (λ name. name ≡ unwrap_or (param_of i declared.now.kind) []) }
{
    match &declared.kind {
        DeclKind::Fun { params, .. } => match array_param(params.as_slice(), i) {
            Some(name) => name.copy(alloc),
            None => Id::new(alloc, b""),
        },
        _ => Id::new(alloc, b""),
    }
}

fn array_param(params: &[P], i: u32) -> Option<&Id>
    ensures { option_map (λ name. name.now) result ≡ array_param_of i params.now }
{
    let mut before = i;
    for param in params {
        if let P::Array { name, .. } = param {
            if before == 0 {
                return Some(name);
            }
            before -= 1;
        }
    }
    None
}
