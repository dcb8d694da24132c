// The counts of expressions.
ghost use Rattle.std.specs.Prelude.{◌≡◌, map, option_map};
ghost use Rattle.lucid_inline_count.specs.Found.{condition as condition_of, expr_found, group as group_of, ops, optional as optional_of, sent as sent_of, total as total_of, touch_found};
ghost use Rattle.lucid_inline_count.specs.Counts.{counts_at};

use crate::counts::{Counts, count};
use lucid_core::{Expr, Touch};

/// Counts an expression, given the counts of the functions before it. A core has no inlined call.
#[cycle(exprs)]
pub fn expr(funs: &[Counts], e: &Expr) -> Counts
    ensures { result ≡ (expr_found e.now).counts funs.now }
{
    match e {
        Expr::Fixed(_) | Expr::Local(_) | Expr::Now | Expr::Me | Expr::Inlined(_, _) => count(0, 0),
        Expr::Un(_, x) | Expr::Cast(_, x) => expr(funs, x.get()).and(count(1, 0)),
        Expr::Bin(_, x, y) | Expr::Cmp(_, x, y) => expr(funs, x.get())
            .and(expr(funs, y.get()))
            .and(count(1, 0)),
        Expr::Hash(_, xs) => total(funs, xs.as_slice()).and(count(1, 0)),
        Expr::Array(t) => touch(funs, t.get()),
        Expr::Fun(k, _, xs) => total(funs, xs.as_slice())
            .and(of_function(funs, *k))
            .and(count(0, 1)),
    }
}

#[cycle(exprs)]
fn touch(funs: &[Counts], t: &Touch) -> Counts
    ensures { result ≡ (touch_found t.now).counts funs.now }
{
    let index = expr(funs, &t.index);
    let get_arg = expr(funs, &t.get_arg);
    let set_arg = expr(funs, &t.set_arg);
    index.and(get_arg).and(set_arg).and(count(1, 0))
}

/// Counts these together.
#[cycle(exprs)]
pub fn total(funs: &[Counts], es: &[Expr]) -> Counts
    ensures { result ≡ total_of (map expr_found es.now) funs.now }
{
    let mut sum = count(0, 0);
    for e in es {
        sum = sum.and(expr(funs, e));
    }
    sum
}

/// An operand that may be left out.
pub fn optional(funs: &[Counts], e: &Option<Expr>) -> Counts
    ensures { result ≡ optional_of (option_map expr_found e.now) funs.now }
{
    match e {
        None => count(0, 0),
        Some(e) => expr(funs, e),
    }
}

/// Counts an `if` without its branches: its condition, with a move if that is fixed, a local or a call.
pub fn condition(funs: &[Counts], e: &Expr) -> Counts
    ensures { result ≡ condition_of (expr_found e.now) funs.now }
{
    let moves = match e {
        Expr::Fixed(_)
        | Expr::Local(_)
        | Expr::Now
        | Expr::Me
        | Expr::Fun(_, _, _)
        | Expr::Inlined(_, _) => 1,
        _ => 0,
    };
    expr(funs, e).and(count(moves, 1))
}

/// Counts an event that is sent.
pub fn sent(funs: &[Counts], args: &[Expr], delay: &Option<Expr>, to: &Option<Expr>) -> Counts
    ensures { result ≡ sent_of (map expr_found args.now) (option_map expr_found delay.now) (option_map expr_found to.now) funs.now }
{
    total(funs, args)
        .and(optional(funs, delay))
        .and(optional(funs, to))
        .and(count(1, 1))
}

/// A group takes an assignment of each argument and of its delay, and an event to each member.
pub fn group(funs: &[Counts], args: &[Expr], delay: &Option<Expr>, members: &[u32]) -> Counts
    ensures { result ≡ group_of (map expr_found args.now) (option_map expr_found delay.now) members.now funs.now }
{
    let calls = total(funs, args).and(optional(funs, delay));
    let delays = if delay.is_some() { 1 } else { 0 };
    calls
        .and(each(args.len() as u64))
        .and(each(delays))
        .and(each(members.len() as u64))
}

/// `n` statements of one op each.
fn each(n: u64) -> Counts
    ensures { result ≡ ops n }
{
    count(n, n)
}

fn of_function(funs: &[Counts], k: u32) -> Counts
    ensures { result ≡ counts_at funs.now k }
{
    match funs.get(k as usize) {
        None => count(0, 0),
        Some(counts) => *counts,
    }
}
