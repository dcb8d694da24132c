// Arrays.
ghost use Rattle.std.specs.Prelude.{◌≡◌};
ghost use Rattle.lucid_types_laws.specs.Declaration.{global, size_of};
ghost use Rattle.lucid_types_declarations.specs.Known.{Declares, made_of};

use crate::Known;
use crate::known::enter;
use lucid_base::{ArrayDef, ArrayName, Id, Width};
use lucid_parse_tree::Size;
use lucid_types_expressions::Fault;
use lucid_types_scope::{Scope, number};
use lucid_types_spec::Entry;
use std::alloc::Global;

/// NoRule if the width is none, or the size is none: 1 to 65,536, or a constant's number.
pub fn global(
    alloc: Global,
    known: &mut Known,
    width: u64,
    n: &Id,
    size: &Size,
) -> Result<(), Fault>
    ensures { Declares result known.new (global width n.now size.now (made_of known.old)) }
{
    match size_of(&known.scope, size) {
        None => Err(Fault::NoRule),
        Some(size) => match Width::new(width) {
            None => Err(Fault::NoRule),
            Some(width) => {
                if size < 1 || size > 65_536 {
                    return Err(Fault::NoRule);
                }
                let array = number(known.arrays.len())?;
                enter(
                    alloc,
                    &mut known.scope,
                    n,
                    Entry::Array(ArrayName::Global(array), width),
                )?;
                known.arrays.push(ArrayDef {
                    name: n.copy(alloc)?,
                    width,
                    size: size as u32,
                })?;
                Ok(())
            }
        },
    }
}

/// A size, which is written or a constant.
fn size_of(scope: &Scope, size: &Size) -> Option<u64>
    ensures { result ≡ size_of scope.now size.now }
{
    match size {
        Size::Number(k) => Some(*k),
        Size::Named(n) => match scope.find(n) {
            Some(Entry::Constant(bits)) => Some(bits.value),
            _ => None,
        },
    }
}
