// Statements of the flat form for a group whose calls are taken out.
ghost use Rattle.std.specs.Prelude.{◌≡◌, ◌≤◌, ◌+◌, IfOk, map, length};
ghost use Rattle.std.specs.List.{enumerate_from};
ghost use Rattle.lucid_core.specs.declared.body.Expr.TheViews.{roll-Stmt};
ghost use Rattle.lucid_inline_spec.specs.Flat.{locals_from, to_member, width_in};
ghost use Rattle.lucid_inline.specs.Sites.{assigned, flattened, most, sent, sent_to_all};

use crate::site::{next_number, number};
use crate::widths::width_of;
use lucid_base::{Bits, Items, Memory, Width};
use lucid_core::{Expr, Stmt};
use std::alloc::Global;

/// Arguments with the locals that hold them, from `first` on.
#[inline(never)]
pub fn numbered(alloc: Global, first: u32, args: Vec<Expr>) -> Result<Items<(u32, Expr)>, Memory>
    requires { first + length args.items ≤ most }
    ensures { IfOk result (λ given. given ≡ enumerate_from first args.items) }
{
    let mut given = Items::new(alloc);
    let mut next = first;
    for arg in args {
        given.push((next, arg))?;
        next += 1;
    }
    Ok(given)
}

/// The widths of these values, given the locals of the handler.
fn widths(alloc: Global, locals: &[Width], held: &[Expr]) -> Result<Items<Width>, Memory>
    ensures { IfOk result (λ ws. ws ≡ map (width_in locals.now) held.now) }
{
    let mut ws = Items::new(alloc);
    for e in held {
        ws.push(width_held(locals, e))?;
    }
    Ok(ws)
}

fn width_held(locals: &[Width], e: &Expr) -> Width
    ensures { result ≡ width_in locals.now e.now }
{
    match width_of(locals, e) {
        None => Width::int(),
        Some(width) => width,
    }
}

/// `n` locals, from `first` on.
fn locals_read(alloc: Global, first: u32, n: usize) -> Result<Items<Expr>, Memory>
    requires { first + n ≤ most }
    ensures { IfOk result (λ xs. xs ≡ locals_from first n) }
{
    let mut xs = Items::new(alloc);
    let mut next = first;
    for _i in 0..n {
        xs.push(Expr::Local(next))?;
        next += 1;
    }
    Ok(xs)
}

/// An event to one member.
fn to_one(
    alloc: Global,
    event: u32,
    first: u32,
    n: usize,
    delayed: bool,
    member: u32,
) -> Result<Stmt, Memory>
    requires { first + n ≤ most }
    ensures { IfOk result (λ s. s ≡ roll-Stmt (to_member event first n delayed member)) }
{
    let args = locals_read(alloc, first, n)?;
    let delay = if delayed {
        Some(Expr::Local(first + number(n)))
    } else {
        None
    };
    Ok(Stmt::Gen {
        event,
        args,
        delay,
        to: Some(Expr::Fixed(Bits::low(Width::int(), member as u64))),
        delay_first: false,
    })
}

/// An assignment of each to the next local.
pub fn hold(alloc: Global, first: u32, held: Vec<Expr>) -> Result<Items<Stmt>, Memory>
    requires { first + length held.items ≤ most }
    ensures { IfOk result (λ ss. ss ≡ assigned first held.items) }
{
    let mut ss = Items::new(alloc);
    let mut next = first;
    for e in held {
        ss.push(Stmt::Assign(next, e))?;
        next += 1;
    }
    Ok(ss)
}

/// An event to each member.
pub fn send(
    alloc: Global,
    event: u32,
    first: u32,
    n: usize,
    delayed: bool,
    members: &[u32],
) -> Result<Items<Stmt>, Memory>
    requires { first + n ≤ most }
    ensures { IfOk result (λ ss. ss ≡ sent event first n delayed members.now) }
{
    let mut ss = Items::new(alloc);
    for member in members {
        ss.push(to_one(alloc, event, first, n, delayed, *member)?)?;
    }
    Ok(ss)
}

/// A group whose first `n` arguments, and delay behind them, are held by new locals.
#[inline(never)]
pub fn group(
    alloc: Global,
    locals: &mut Items<Width>,
    event: u32,
    held: Vec<Expr>,
    n: usize,
    delayed: bool,
    members: &[u32],
) -> Result<Items<Stmt>, Memory>
    ensures { IfOk result (λ ss. flattened ss locals.new ≡ sent_to_all event n delayed members.now held.items locals.old) }
{
    let first = next_number(locals.len(), held.len().max(n))?;
    let added = widths(alloc, locals.as_slice(), held.as_slice())?;
    let mut ss = hold(alloc, first, held)?;
    ss.append(send(alloc, event, first, n, delayed, members)?)?;
    locals.append(added)?;
    Ok(ss)
}
