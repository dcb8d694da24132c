// Arrays and their calls.
ghost use Rattle.std.specs.Prelude.{◌≡◌};
ghost use Rattle.lucid_types_spec.specs.Typed.{returning, touching, zero_of};
ghost use Rattle.lucid_types_laws.specs.Reading.{named_array, reading};
ghost use Rattle.lucid_types_expressions.specs.Gives.{Gives};

use crate::Fault;
use crate::lead::bare;
use crate::names::array;
use lucid_base::{ArrayName, Bits, MemAlu, MemArg, MemSide, Width};
use lucid_core::{Expr, Touch};
use lucid_parse_tree::E;
use lucid_types_scope::Scope;

/// The array of cells of this width whose bare name the expression is. NoRule if it is no such name.
pub fn named_array(scope: &Scope, width: Width, x: &E) -> Result<ArrayName, Fault>
    ensures { Gives result (named_array width (reading x.now).bare scope.now) }
{
    match bare(x) {
        None => Err(Fault::NoRule),
        Some(n) => {
            let (name, w) = array(scope, n)?;
            if w.get() == width.get() {
                Ok(name)
            } else {
                Err(Fault::NoRule)
            }
        }
    }
}

/// The memop without a test that gives this.
pub fn returning(width: Width, x: MemArg) -> MemAlu
    ensures { result ≡ returning width x }
{
    MemAlu {
        width,
        test: None,
        yes: MemSide::One(x),
        no: MemSide::One(x),
    }
}

/// The argument if none is written.
pub fn zero(width: Width) -> Expr
    ensures { result ≡ zero_of width }
{
    Expr::Fixed(Bits::low(width, 0))
}

/// A call of an array.
pub fn touching(
    array: ArrayName,
    index: Expr,
    get: MemAlu,
    get_arg: Expr,
    set: MemAlu,
    set_arg: Expr,
    answers: bool,
) -> Touch
    ensures { result ≡ touching array index get get_arg set set_arg answers }
{
    Touch {
        array,
        index,
        get,
        get_arg,
        set,
        set_arg,
        answers,
    }
}
