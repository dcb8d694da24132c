// The last step of each form: the tests after its parts have cores, and the node. They are outside the cycle of expressions.
ghost use Rattle.std.specs.Prelude.{◌≡◌, Some};
ghost use Rattle.lucid_core.specs.declared.body.Expr.TheVariants as core;
ghost use Rattle.lucid_types_spec.specs.Names.{seen};
ghost use Rattle.lucid_types_laws.specs.Reading.{cast_core, hash_of, name_core, number_core, touch_value, value_of};
ghost use Rattle.lucid_types_expressions.specs.Forms.{truth_core, word_core};
ghost use Rattle.lucid_types_expressions.specs.Gives.{Gives};

use crate::Fault;
use crate::operator::same_type;
use lucid_base::{BinOp, Bits, Boxed, CmpOp, Id, Items, Width};
use lucid_core::{Expr, Touch};
use lucid_types_scope::Scope;
use lucid_types_spec::{Entry, ValueType};
use std::alloc::Global;

/// A number, which fits the width that is asked for.
pub fn number(n: u64, t: ValueType) -> Result<Expr, Fault>
    ensures { Gives result (number_core n t) }
{
    match t {
        ValueType::Int(w) => {
            if w.fits(n) {
                Ok(Expr::Fixed(Bits::new(w, n)))
            } else {
                Err(Fault::NoRule)
            }
        }
        ValueType::Bool => Err(Fault::NoRule),
    }
}

/// A constant or a local.
pub fn name(scope: &Scope, n: &Id, t: ValueType) -> Result<Expr, Fault>
    ensures { Gives result (name_core t (seen n.now scope.now)) }
{
    match scope.find(n) {
        Some(Entry::Constant(b)) => {
            if same_type(ValueType::Int(b.width), t) {
                Ok(Expr::Fixed(*b))
            } else {
                Err(Fault::NoRule)
            }
        }
        Some(Entry::Local(i, u)) => {
            if same_type(*u, t) {
                Ok(Expr::Local(*i))
            } else {
                Err(Fault::NoRule)
            }
        }
        _ => Err(Fault::NoRule),
    }
}

/// `true` or `false`.
pub fn truth(b: bool, t: ValueType) -> Result<Expr, Fault>
    ensures { Gives result (truth_core b t) }
{
    match t {
        ValueType::Int(_) => Err(Fault::NoRule),
        ValueType::Bool => Ok(Expr::Fixed(Bits::low(Width::bool(), u64::from(b)))),
    }
}

/// An expression of 32 bits.
pub fn word(c: Expr, t: ValueType) -> Result<Expr, Fault>
    ensures { Gives result (word_core c t) }
{
    if same_type(ValueType::Int(Width::int()), t) {
        Ok(c)
    } else {
        drop(c);
        Err(Fault::NoRule)
    }
}

/// A hash of these, of which there is at least one.
pub fn hashed(w: u64, cs: Items<Expr>, t: ValueType) -> Result<Expr, Fault>
    ensures { Gives result (hash_of w t cs) }
{
    if cs.is_empty() {
        return Err(Fault::NoRule);
    }
    match Width::new(w) {
        None => Err(Fault::NoRule),
        Some(width) => {
            if same_type(ValueType::Int(width), t) {
                Ok(Expr::Hash(width, cs))
            } else {
                Err(Fault::NoRule)
            }
        }
    }
}

/// An operation on two operands.
pub fn binary(alloc: Global, op: BinOp, c: Expr, d: Expr) -> Result<Expr, Fault>
    ensures { Gives result (Some (core.Bin op c d)) }
{
    let c = Boxed::new(alloc, c);
    let d = Boxed::new(alloc, d);
    Ok(Expr::Bin(op, c?, d?))
}

/// A comparison of two operands.
pub fn compared(alloc: Global, op: CmpOp, c: Expr, d: Expr) -> Result<Expr, Fault>
    ensures { Gives result (Some (core.Cmp op c d)) }
{
    let c = Boxed::new(alloc, c);
    let d = Boxed::new(alloc, d);
    Ok(Expr::Cmp(op, c?, d?))
}

/// A cast to this width.
pub fn casted(alloc: Global, w: u64, c: Expr, t: ValueType) -> Result<Expr, Fault>
    ensures { Gives result (cast_core w (Some c) t) }
{
    let c = Boxed::new(alloc, c)?;
    match Width::new(w) {
        None => Err(Fault::NoRule),
        Some(width) => {
            if same_type(ValueType::Int(width), t) {
                Ok(Expr::Cast(width, c))
            } else {
                Err(Fault::NoRule)
            }
        }
    }
}

/// The value of a call of a function.
pub fn call_value(answer: Option<ValueType>, c: Expr, t: ValueType) -> Result<Expr, Fault>
    ensures { Gives result (value_of t (answer, c)) }
{
    match answer {
        None => {
            drop(c);
            Err(Fault::NoRule)
        }
        Some(u) => {
            if same_type(u, t) {
                Ok(c)
            } else {
                drop(c);
                Err(Fault::NoRule)
            }
        }
    }
}

/// The value of a call of an array.
pub fn touch_value(
    alloc: Global,
    answer: Option<Width>,
    c: Touch,
    t: ValueType,
) -> Result<Expr, Fault>
    ensures { Gives result (touch_value t (answer, c)) }
{
    match answer {
        None => {
            drop(c);
            Err(Fault::NoRule)
        }
        Some(w) => {
            if same_type(ValueType::Int(w), t) {
                Ok(Expr::Array(Boxed::new(alloc, c)?))
            } else {
                drop(c);
                Err(Fault::NoRule)
            }
        }
    }
}
