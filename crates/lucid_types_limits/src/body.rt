// The outs and the arguments of bodies, found in one walk.
ghost use Rattle.std.specs.Prelude.{◌≡◌, option_map, option_to_list, slice_index, true};
ghost use Rattle.lucid_core.specs.Numbers.{all_hold};
ghost use Rattle.lucid_core.specs.OutCount.{expr_outs, stmt_outs, total};
ghost use Rattle.lucid_core.specs.Few.{expr_few, stmt_few};
ghost use Rattle.lucid_types_limits.specs.Tally.{in_turn, tally};

use crate::tally::{Tally, outs};
use lucid_core::{Expr, Stmt};

/// Statements, given the most outs of each earlier function. The statements after a return and after a case of a `match` are the second
/// branch of an `If` that ends its block. A loop follows these, since a text may have very many; all else is no deeper than a text may
/// nest.
#[cycle(body)]
pub fn stmts(funs: &[u64], ss: &[Stmt]) -> Tally
    ensures { result ≡ in_turn stmt_outs stmt_few funs.now ss.now }
{
    let mut before = outs(0);
    let mut most = outs(0);
    let mut left = ss;
    while let Some((Stmt::If(e, yes, no), front)) = left.split_last() {
        before = before.and(each(funs, front)).and(expr(funs, e));
        most = most.or(before.and(stmts(funs, yes.as_slice())));
        left = no.as_slice();
    }
    most.or(before.and(each(funs, left)))
}

/// Statements, each by itself.
#[cycle(body)]
fn each(funs: &[u64], ss: &[Stmt]) -> Tally
    ensures { result ≡ in_turn stmt_outs stmt_few funs.now ss.now }
{
    let mut sum = outs(0);
    for s in ss {
        sum = sum.and(stmt(funs, s));
    }
    sum
}

#[cycle(body)]
fn stmt(funs: &[u64], s: &Stmt) -> Tally
    ensures { result ≡ tally (stmt_outs s.now funs.now) (stmt_few s.now) }
{
    match s {
        Stmt::Assign(_, e) => expr(funs, e),
        Stmt::Drop(e) => expr(funs, e),
        Stmt::If(e, yes, no) => {
            let branches = stmts(funs, yes.as_slice()).or(stmts(funs, no.as_slice()));
            expr(funs, e).and(branches)
        }
        Stmt::Gen {
            event: _,
            args,
            delay,
            to,
            delay_first: _,
        } => exprs(funs, args.as_slice())
            .and(optional(funs, delay))
            .and(optional(funs, to))
            .and(outs(1)),
        Stmt::Multi {
            event: _,
            args,
            delay,
            members,
        } => exprs(funs, args.as_slice())
            .and(optional(funs, delay))
            .and(outs(members.len() as u64)),
        Stmt::Say { form: _, args } => exprs(funs, args.as_slice())
            .at_most(args.len(), 8)
            .and(outs(1)),
        Stmt::Return(e) => optional(funs, e),
    }
}

#[cycle(body)]
#[tactic(auto, using(crate::proofs::Forms::array_is))]
fn expr(funs: &[u64], e: &Expr) -> Tally
    ensures { result ≡ tally (expr_outs e.now funs.now) (expr_few e.now) }
{
    match e {
        Expr::Fixed(_) | Expr::Local(_) | Expr::Now | Expr::Me => outs(0),
        Expr::Un(_, x) => expr(funs, x.get()),
        Expr::Cast(_, x) => expr(funs, x.get()),
        Expr::Bin(_, x, y) => expr(funs, x.get()).and(expr(funs, y.get())),
        Expr::Cmp(_, x, y) => expr(funs, x.get()).and(expr(funs, y.get())),
        Expr::Hash(_, xs) => exprs(funs, xs.as_slice()).at_most(xs.len(), 9),
        Expr::Array(t) => {
            let t = t.get();
            expr(funs, &t.index)
                .and(expr(funs, &t.get_arg))
                .and(expr(funs, &t.set_arg))
        }
        Expr::Fun(k, _, xs) => exprs(funs, xs.as_slice()).and(of_function(funs, *k)),
        Expr::Inlined(given, ss) => {
            let given = arguments(funs, given.as_slice());
            given.and(stmts(funs, ss.as_slice()))
        }
    }
}

#[cycle(body)]
fn exprs(funs: &[u64], es: &[Expr]) -> Tally
    ensures { result ≡ in_turn expr_outs expr_few funs.now es.now }
{
    let mut sum = outs(0);
    for e in es {
        sum = sum.and(expr(funs, e));
    }
    sum
}

/// Returns the arguments of an inlined call.
#[cycle(body)]
fn arguments(funs: &[u64], given: &[(u32, Expr)]) -> Tally
    ensures { result ≡ in_turn (λ g. expr_outs g.1) (λ g. expr_few g.1) funs.now given.now }
{
    let mut sum = outs(0);
    for (_, e) in given {
        sum = sum.and(expr(funs, e));
    }
    sum
}

/// Returns an operand that may be left out.
#[cycle(body)]
fn optional(funs: &[u64], e: &Option<Expr>) -> Tally
    ensures { result ≡ tally (total (option_to_list (option_map expr_outs e.now)) funs.now) (all_hold (option_to_list (option_map expr_few e.now))) }
{
    match e {
        None => outs(0),
        Some(e) => expr(funs, e),
    }
}

/// A function that isn't there has none.
fn of_function(funs: &[u64], k: u32) -> Tally
    ensures { result ≡ tally (slice_index funs.now k) true }
{
    match funs.get(k as usize) {
        None => outs(0),
        Some(n) => outs(*n),
    }
}
