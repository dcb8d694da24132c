// Operations on values, each equal to its definition. They take operands of any widths.
ghost use Rattle.std.specs.Prelude.{◌≡◌};
ghost use Rattle.lucid_core.specs.Values.{unary as unary_of, binary as binary_of, comparison as comparison_of, hashed as hash_of_values, nothing as no_value};

use lucid_base::{
    BinOp, Bits, CmpOp, Items, UnOp, Width, apply_bin, apply_un, cast, compare, hash_start,
    hash_word,
};

/// Returns the value that is used if none is given.
pub fn nothing() -> Bits
    ensures { result ≡ no_value }
{
    Bits {
        width: Width::bool(),
        value: 0,
    }
}

pub fn unary(op: UnOp, a: Bits) -> Bits
    ensures { result ≡ unary_of op a }
{
    apply_un(op, a)
}

pub fn binary(op: BinOp, a: Bits, b: Bits) -> Bits
    ensures { result ≡ binary_of op a b }
{
    apply_bin(op, a, cast(b, a.width))
}

pub fn comparison(op: CmpOp, a: Bits, b: Bits) -> Bits
    ensures { result ≡ comparison_of op a b }
{
    Bits::from_bool(compare(op, a, cast(b, a.width)))
}

/// Returns the hash of these values, and frees them.
#[inline(never)]
pub fn hashed(width: Width, values: Items<Bits>) -> Bits
    ensures { result ≡ hash_of_values width values }
{
    let hash = values
        .as_slice()
        .iter()
        .fold(hash_start(), |hash, value| hash_word(hash, value.value));
    Bits::low(width, hash)
}
