// Expressions: each function returns the result of the typing function for its form.
ghost use Rattle.std.specs.Prelude.{◌≡◌, map};
ghost use Rattle.lucid_types_spec.specs.Operators.{arithmetic, comparison, logic};
ghost use Rattle.lucid_types_spec.specs.Types.{stated};
ghost use Rattle.lucid_types_laws.specs.Reading.{all_free, binary, called, cast_core, compared, core_of, free, given_all, hash_core, infix_core, prefix_core, reading, reading_call, touch_of};
ghost use Rattle.lucid_types_expressions.specs.Forms.{called_value, get_of, getm_of, set_of, setm_of, shift_core, touched_value, update_of};
ghost use Rattle.lucid_types_expressions.specs.Gives.{Gives};

use crate::array::{named_array, returning, touching, zero};
use crate::lead::{free_width, shared_width};
use crate::operator::{arithmetic, comparison, is_int, logic, stated};
use crate::{Fault, names, node};
use lucid_base::{BinOp, Boxed, CmpOp, Id, Items, MemArg, UnOp, Width};
use lucid_core::{Expr, Touch};
use lucid_parse_tree::{A, E, Infix, Pre};
use lucid_types_laws::Arguments;
use lucid_types_scope::Scope;
use lucid_types_spec::{Entry, Param, ValueType};
use std::alloc::Global;

/// The core of the expression at a place that asks for this type. NoRule if it has none.
#[cycle(expression)]
pub fn expression(alloc: Global, scope: &Scope, t: ValueType, x: &E) -> Result<Expr, Fault>
    ensures { Gives result (core_of x.now scope.now t) }
{
    match x {
        E::Number(n) => node::number(*n, t),
        E::Truth(b) => node::truth(*b, t),
        E::Me => node::word(Expr::Me, t),
        E::Time => node::word(Expr::Now, t),
        E::Hash(w, xs) => hash(alloc, scope, *w, xs.as_slice(), t),
        E::Name(n) => node::name(scope, n, t),
        E::Call(n, xs) => called_value(alloc, scope, n, xs.as_slice(), t),
        E::Array(a) => touched_value(alloc, scope, a.get(), t),
        E::Paren(x) => expression(alloc, scope, t, x.get()),
        E::Prefix(sign, x) => prefix(alloc, scope, *sign, x.get(), t),
        E::Cast(w, x) => cast(alloc, scope, *w, x.get(), t),
        E::Shift(x, left, k) => shift(alloc, scope, x.get(), *left, *k, t),
        E::Infix(sign, x, y) => infix(alloc, scope, *sign, x.get(), y.get(), t),
    }
}

#[cycle(expression)]
fn hash(alloc: Global, scope: &Scope, w: u64, xs: &[E], t: ValueType) -> Result<Expr, Fault>
    ensures { Gives result (hash_core w (map reading xs.now) scope.now t) }
{
    let cs = all_free(alloc, scope, xs)?;
    node::hashed(w, cs, t)
}

#[cycle(expression)]
fn called_value(alloc: Global, scope: &Scope, n: &Id, xs: &[E], t: ValueType) -> Result<Expr, Fault>
    ensures { Gives result (called_value n.now (map reading xs.now) scope.now t) }
{
    let (answer, c) = call(alloc, scope, n, xs)?;
    node::call_value(answer, c, t)
}

#[cycle(expression)]
fn touched_value(alloc: Global, scope: &Scope, x: &A, t: ValueType) -> Result<Expr, Fault>
    ensures { Gives result (touched_value (reading_call x.now) scope.now t) }
{
    let (answer, c) = touch(alloc, scope, x)?;
    node::touch_value(alloc, answer, c, t)
}

#[cycle(expression)]
fn prefix(alloc: Global, scope: &Scope, sign: Pre, x: &E, t: ValueType) -> Result<Expr, Fault>
    ensures { Gives result (prefix_core sign (reading x.now) scope.now t) }
{
    match sign {
        Pre::Minus => {
            if !is_int(t) {
                return Err(Fault::NoRule);
            }
            let c = expression(alloc, scope, t, x)?;
            Ok(Expr::Un(UnOp::Neg, Boxed::new(alloc, c)?))
        }
        Pre::Tilde => {
            if !is_int(t) {
                return Err(Fault::NoRule);
            }
            let c = expression(alloc, scope, t, x)?;
            Ok(Expr::Un(UnOp::Flip, Boxed::new(alloc, c)?))
        }
        Pre::Not => {
            if is_int(t) {
                return Err(Fault::NoRule);
            }
            let c = expression(alloc, scope, t, x)?;
            Ok(Expr::Un(UnOp::Flip, Boxed::new(alloc, c)?))
        }
    }
}

#[cycle(expression)]
fn cast(alloc: Global, scope: &Scope, w: Option<u64>, x: &E, t: ValueType) -> Result<Expr, Fault>
    ensures { Gives result (cast_core (stated w) (free (reading x.now) scope.now) t) }
{
    let c = free(alloc, scope, x)?;
    node::casted(alloc, stated(w), c, t)
}

#[cycle(expression)]
fn shift(
    alloc: Global,
    scope: &Scope,
    x: &E,
    left: bool,
    k: u64,
    t: ValueType,
) -> Result<Expr, Fault>
    ensures { Gives result (shift_core left k (reading x.now) scope.now t) }
{
    if !is_int(t) {
        return Err(Fault::NoRule);
    }
    let c = expression(alloc, scope, t, x)?;
    let op = if left { UnOp::Shl(k) } else { UnOp::Shr(k) };
    Ok(Expr::Un(op, Boxed::new(alloc, c)?))
}

#[cycle(expression)]
fn infix(
    alloc: Global,
    scope: &Scope,
    sign: Infix,
    x: &E,
    y: &E,
    t: ValueType,
) -> Result<Expr, Fault>
    ensures { Gives result (infix_core (arithmetic sign) (comparison sign) (logic sign) (reading x.now) (reading y.now) scope.now t) }
{
    match arithmetic(sign) {
        Some(op) => {
            if !is_int(t) {
                return Err(Fault::NoRule);
            }
            binary(alloc, scope, op, x, y, &t)
        }
        None => match comparison(sign) {
            Some(op) => {
                if is_int(t) {
                    return Err(Fault::NoRule);
                }
                match Width::new(shared_width(scope, x, y)) {
                    None => Err(Fault::NoRule),
                    Some(w) => {
                        let t = ValueType::Int(w);
                        compared(alloc, scope, op, x, y, &t)
                    }
                }
            }
            None => match logic(sign) {
                None => Err(Fault::NoRule),
                Some(op) => {
                    if is_int(t) {
                        return Err(Fault::NoRule);
                    }
                    binary(alloc, scope, op, x, y, &t)
                }
            },
        },
    }
}

/// An operation on two operands of this type. It is not inlined, so that deep expressions take little stack.
#[cycle(expression)]
#[inline(never)]
fn binary(
    alloc: Global,
    scope: &Scope,
    op: BinOp,
    x: &E,
    y: &E,
    t: &ValueType,
) -> Result<Expr, Fault>
    ensures { Gives result (binary op (core_of x.now scope.now t.now) (core_of y.now scope.now t.now)) }
{
    let c = expression(alloc, scope, *t, x)?;
    let d = match expression(alloc, scope, *t, y) {
        Ok(d) => d,
        Err(fault) => {
            drop(c);
            return Err(fault);
        }
    };
    node::binary(alloc, op, c, d)
}

/// A comparison of two operands of this type. It is not inlined, as `binary`.
#[cycle(expression)]
#[inline(never)]
fn compared(
    alloc: Global,
    scope: &Scope,
    op: CmpOp,
    x: &E,
    y: &E,
    t: &ValueType,
) -> Result<Expr, Fault>
    ensures { Gives result (compared op (core_of x.now scope.now t.now) (core_of y.now scope.now t.now)) }
{
    let c = expression(alloc, scope, *t, x)?;
    let d = match expression(alloc, scope, *t, y) {
        Ok(d) => d,
        Err(fault) => {
            drop(c);
            return Err(fault);
        }
    };
    node::compared(alloc, op, c, d)
}

/// The core of the expression at a free place.
#[cycle(expression)]
pub fn free(alloc: Global, scope: &Scope, x: &E) -> Result<Expr, Fault>
    ensures { Gives result (free (reading x.now) scope.now) }
{
    match Width::new(free_width(scope, x)) {
        None => Err(Fault::NoRule),
        Some(w) => expression(alloc, scope, ValueType::Int(w), x),
    }
}

/// The cores of these, each at a free place.
#[cycle(expression)]
pub fn all_free(alloc: Global, scope: &Scope, xs: &[E]) -> Result<Items<Expr>, Fault>
    ensures { Gives result (all_free (map reading xs.now) scope.now) }
{
    let mut cs = Items::new(alloc);
    for x in xs {
        cs.push(free(alloc, scope, x)?)?;
    }
    Ok(cs)
}

/// A call of an array, and the width of its value if it gives one.
#[cycle(expression)]
pub fn touch(alloc: Global, scope: &Scope, x: &A) -> Result<(Option<Width>, Touch), Fault>
    ensures { Gives result (touch_of x.now scope.now) }
{
    match x {
        A::Get(n, i) => get(alloc, scope, n, i),
        A::Set(n, i, x) => set(alloc, scope, n, i, x),
        A::Getm(n, i, m, x) => getm(alloc, scope, n, i, m, x),
        A::Setm(n, i, m, x) => setm(alloc, scope, n, i, m, x),
        A::Update(n, i, m, x, k, y) => update(alloc, scope, n, i, m, x, k, y),
    }
}

#[cycle(expression)]
fn get(alloc: Global, scope: &Scope, n: &Id, i: &E) -> Result<(Option<Width>, Touch), Fault>
    ensures { Gives result (get_of n.now (reading i.now) scope.now) }
{
    let (a, w) = names::array(scope, n)?;
    let j = free(alloc, scope, i)?;
    Ok((
        Some(w),
        touching(
            a,
            j,
            returning(w, MemArg::Stored),
            zero(w),
            returning(w, MemArg::Stored),
            zero(w),
            true,
        ),
    ))
}

#[cycle(expression)]
fn set(alloc: Global, scope: &Scope, n: &Id, i: &E, x: &E) -> Result<(Option<Width>, Touch), Fault>
    ensures { Gives result (set_of n.now (reading i.now) (reading x.now) scope.now) }
{
    let (a, w) = names::array(scope, n)?;
    let j = free(alloc, scope, i)?;
    let c = match expression(alloc, scope, ValueType::Int(w), x) {
        Ok(c) => c,
        Err(fault) => {
            drop(j);
            return Err(fault);
        }
    };
    Ok((
        None,
        touching(
            a,
            j,
            returning(w, MemArg::Stored),
            zero(w),
            returning(w, MemArg::Arg),
            c,
            false,
        ),
    ))
}

#[cycle(expression)]
fn getm(
    alloc: Global,
    scope: &Scope,
    n: &Id,
    i: &E,
    m: &Id,
    x: &E,
) -> Result<(Option<Width>, Touch), Fault>
    ensures { Gives result (getm_of n.now (reading i.now) m.now (reading x.now) scope.now) }
{
    let (a, w) = names::array(scope, n)?;
    let j = free(alloc, scope, i)?;
    let memop = match names::memop(scope, w, m) {
        Ok(memop) => memop,
        Err(fault) => {
            drop(j);
            return Err(fault);
        }
    };
    let c = match expression(alloc, scope, ValueType::Int(w), x) {
        Ok(c) => c,
        Err(fault) => {
            drop(j);
            return Err(fault);
        }
    };
    Ok((
        Some(w),
        touching(a, j, memop, c, returning(w, MemArg::Stored), zero(w), true),
    ))
}

#[cycle(expression)]
fn setm(
    alloc: Global,
    scope: &Scope,
    n: &Id,
    i: &E,
    m: &Id,
    x: &E,
) -> Result<(Option<Width>, Touch), Fault>
    ensures { Gives result (setm_of n.now (reading i.now) m.now (reading x.now) scope.now) }
{
    let (a, w) = names::array(scope, n)?;
    let j = free(alloc, scope, i)?;
    let memop = match names::memop(scope, w, m) {
        Ok(memop) => memop,
        Err(fault) => {
            drop(j);
            return Err(fault);
        }
    };
    let c = match expression(alloc, scope, ValueType::Int(w), x) {
        Ok(c) => c,
        Err(fault) => {
            drop(j);
            return Err(fault);
        }
    };
    Ok((
        None,
        touching(a, j, returning(w, MemArg::Stored), zero(w), memop, c, false),
    ))
}

#[cycle(expression)]
fn update(
    alloc: Global,
    scope: &Scope,
    n: &Id,
    i: &E,
    m: &Id,
    x: &E,
    k: &Id,
    y: &E,
) -> Result<(Option<Width>, Touch), Fault>
    ensures { Gives result (update_of n.now (reading i.now) m.now (reading x.now) k.now (reading y.now) scope.now) }
{
    let (a, w) = names::array(scope, n)?;
    let j = free(alloc, scope, i)?;
    let get = match names::memop(scope, w, m) {
        Ok(get) => get,
        Err(fault) => {
            drop(j);
            return Err(fault);
        }
    };
    let c = match expression(alloc, scope, ValueType::Int(w), x) {
        Ok(c) => c,
        Err(fault) => {
            drop(j);
            return Err(fault);
        }
    };
    let set = match names::memop(scope, w, k) {
        Ok(set) => set,
        Err(fault) => {
            drop(j);
            drop(c);
            return Err(fault);
        }
    };
    let d = match expression(alloc, scope, ValueType::Int(w), y) {
        Ok(d) => d,
        Err(fault) => {
            drop(j);
            drop(c);
            return Err(fault);
        }
    };
    Ok((Some(w), touching(a, j, get, c, set, d, true)))
}

/// A call of a function, and the type of its value if it gives one.
#[cycle(expression)]
pub fn call(
    alloc: Global,
    scope: &Scope,
    n: &Id,
    xs: &[E],
) -> Result<(Option<ValueType>, Expr), Fault>
    ensures { Gives result (called n.now (map reading xs.now) scope.now) }
{
    match scope.find(n) {
        Some(Entry::Fun(k, params, answer)) => {
            let Arguments {
                names: arrays,
                values,
            } = given(alloc, scope, params.as_slice(), xs)?;
            Ok((*answer, Expr::Fun(*k, arrays, values)))
        }
        _ => Err(Fault::NoRule),
    }
}

/// The arguments for these parameters, one for each.
#[cycle(expression)]
pub fn given(alloc: Global, scope: &Scope, params: &[Param], xs: &[E]) -> Result<Arguments, Fault>
    ensures { Gives result (given_all params.now (map reading xs.now) scope.now) }
{
    let mut arrays = Items::new(alloc);
    let mut values = Items::new(alloc);
    let mut i = 0usize;
    for x in xs {
        if i == params.len() {
            return Err(Fault::NoRule);
        }
        match params[i] {
            Param::Value(t) => values.push(expression(alloc, scope, t, x)?)?,
            Param::Array(w) => arrays.push(named_array(scope, w, x)?)?,
        }
        i += 1;
    }
    if i == params.len() {
        return Ok(Arguments {
            names: arrays,
            values,
        });
    }
    Err(Fault::NoRule)
}
