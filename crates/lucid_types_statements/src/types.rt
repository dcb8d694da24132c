// Written types.
ghost use Rattle.std.specs.Prelude.{◌≡◌};
ghost use Rattle.lucid_types_spec.specs.Types.{width_of};
ghost use Rattle.lucid_types_laws.specs.Statement.{type_of};

use lucid_base::Width;
use lucid_parse_tree::Ty;
use lucid_types_spec::ValueType;

/// The meaning of a written type. None if its width is none.
pub fn type_of(t: Ty) -> Option<ValueType>
    ensures { result ≡ type_of t }
{
    match t {
        Ty::Int(None) => Some(ValueType::Int(Width::int())),
        Ty::Int(Some(w)) => match Width::new(w) {
            Some(width) => Some(ValueType::Int(width)),
            None => None,
        },
        Ty::Bool => Some(ValueType::Bool),
    }
}

/// The width of a value of this type in the core.
pub fn width_of(t: ValueType) -> Width
    ensures { result ≡ width_of t }
{
    match t {
        ValueType::Int(w) => w,
        ValueType::Bool => Width::bool(),
    }
}
