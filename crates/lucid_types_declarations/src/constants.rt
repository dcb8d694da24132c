// Constants.
ghost use Rattle.std.specs.Prelude.{◌≡◌};
ghost use Rattle.lucid_types_laws.specs.Declaration.{constant, int_of};
ghost use Rattle.lucid_types_declarations.specs.Known.{Declares, made_of};

use crate::Known;
use crate::known::enter;
use lucid_base::{Bits, Id, Width};
use lucid_parse_tree::Ty;
use lucid_types_expressions::Fault;
use lucid_types_spec::{Entry, ValueType};
use lucid_types_statements::type_of;
use std::alloc::Global;

/// NoRule if the type is no int, or the number doesn't fit it.
pub fn constant(alloc: Global, known: &mut Known, t: Ty, n: &Id, value: u64) -> Result<(), Fault>
    ensures { Declares result known.new (constant t n.now value (made_of known.old)) }
{
    match int_of(t) {
        Some(width) if width.fits(value) => {
            enter(
                alloc,
                &mut known.scope,
                n,
                Entry::Constant(Bits::low(width, value)),
            )?;
            Ok(())
        }
        _ => Err(Fault::NoRule),
    }
}

/// The width of a written type that is an int.
pub fn int_of(t: Ty) -> Option<Width>
    ensures { result ≡ int_of t }
{
    match type_of(t) {
        Some(t) => match t {
            ValueType::Int(width) => Some(width),
            ValueType::Bool => None,
        },
        None => None,
    }
}
