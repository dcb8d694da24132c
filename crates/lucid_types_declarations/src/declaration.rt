// Declarations.
ghost use Rattle.lucid_types_laws.specs.Declaration.{declaration};
ghost use Rattle.lucid_types_declarations.specs.Known.{Declares, made_of};

use crate::Known;
use crate::arrays::global;
use crate::constants::constant;
use crate::events::{event, handle};
use crate::functions::fun;
use crate::groups::group;
use crate::memops::memop;
use lucid_parse_tree::{Decl, DeclKind};
use lucid_types_expressions::Fault;
use std::alloc::Global;

/// Adds declaration `number` to the known ones. NoRule if no rule derives it.
pub fn declare(alloc: Global, known: &mut Known, number: u32, x: &Decl) -> Result<(), Fault>
    ensures { Declares result known.new (declaration number x.now.line x.now.kind (made_of known.old)) }
{
    match &x.kind {
        DeclKind::Const(t, n, v) => constant(alloc, known, *t, n, *v),
        DeclKind::Global {
            short: _,
            width,
            name,
            size,
        } => global(alloc, known, *width, name, size),
        DeclKind::Memop {
            name,
            first,
            second,
            body,
        } => memop(alloc, known, name, first, second, body.as_slice()),
        DeclKind::Event { name, params } => event(alloc, known, name, params.as_slice()),
        DeclKind::Handle { name, params, body } => {
            handle(
                alloc,
                known,
                number,
                x.line,
                name,
                params.as_slice(),
                body.as_slice(),
            )
        }
        DeclKind::Fun {
            answer,
            name,
            params,
            body,
        } => fun(
            alloc,
            known,
            number,
            x.line,
            answer,
            name,
            params.as_slice(),
            body.as_slice(),
        ),
        DeclKind::Group(n, members) => group(alloc, known, n, members.as_slice()),
    }
}
