// The walk along a body that finds its scheme.
ghost use Rattle.std.specs.Prelude.{◌≡◌, ◌+◌, ◌≤◌, [], length, map, IfOk, OnOk, Some};
ghost use Rattle.lucid_constraints.specs.Same.{same_atom, same_pair, join_all};
ghost use Rattle.lucid_constraints.specs.Substitution.{pair};
ghost use Rattle.lucid_effects_spec.specs.Evaluation.{sequence};
ghost use Rattle.lucid_effects.specs.Goes.{Goes, walked};
ghost use Rattle.lucid_effects.specs.Walk.{asked_found, back_from, behind, closed, first, with_more};
ghost use Rattle.lucid_effects_spec.specs.Schemes.{passes as passes_by, through as through_by, goes_through as goes_through_by, finds};
ghost use Rattle.lucid_effects_spec.specs.Schemes.{either, expr_found, given_found, stmt_found, touch_found, body_found};

use lucid_base::{ArrayName, Items, Memory, Steps};
use lucid_constraints::{Atom, Order, Pair, ends_at, join_ends};
use lucid_core::{Expr, Stmt, Touch};
use lucid_effects_spec::Scheme;
use std::alloc::Global;
use std::mem;
use std::sync::ledger::Ledger;

fn add_before<L: Ledger>(
    needs: &mut Order,
    steps: &mut Steps<L>,
    ends: &[Atom],
    array: ArrayName,
) -> Result<(), Memory>
    ensures needs { OnOk result (needs.new ≡ join_all same_pair needs.old (map (pair array) ends.now)) }
    ensures steps { OnOk result (steps.new ≡ steps.old + length ends.now) }
    ensures most { steps.new ≤ steps.old + length ends.now }
{
    for atom in ends {
        needs.add(Pair { atom: *atom, array }, steps)?;
    }
    Ok(())
}

/// Counts a step for each of these pairs.
fn count<L: Ledger>(steps: &mut Steps<L>, pairs: &[Pair])
    ensures { steps.new ≡ steps.old + length pairs.now }
{
    for _pair in pairs {
        steps.tick();
    }
}

/// A call of an array, for which no function's scheme counts.
fn passes<L: Ledger>(
    alloc: Global,
    at: &mut Scheme,
    steps: &mut Steps<L>,
    array: ArrayName,
) -> Result<(), Memory>
    ensures { Goes (passes_by array [] (walked at.old steps.old)) (walked at.new steps.new) result }
{
    steps.tick();
    add_before(&mut at.needs, steps, at.ends.as_slice(), array)?;
    let ends = Items::from_slice(alloc, &[Atom::After(array)])?;
    drop(mem::replace(&mut at.ends, ends));
    Ok(())
}

fn through<L: Ledger>(
    alloc: Global,
    f: &Scheme,
    at: &mut Scheme,
    steps: &mut Steps<L>,
    names: &[ArrayName],
) -> Result<(), Memory>
    ensures { Goes (through_by (Some f.now) names.now (walked at.old steps.old)) (walked at.new steps.new) result }
{
    count(steps, f.needs.pairs());
    at.needs.take_in(&f.needs, names, at.ends.as_slice())?;
    let ends = ends_at(alloc, f.ends.as_slice(), names, at.ends.as_slice())?;
    drop(mem::replace(&mut at.ends, ends));
    Ok(())
}

fn goes_through<L: Ledger>(
    alloc: Global,
    schemes: &[Scheme],
    at: &mut Scheme,
    steps: &mut Steps<L>,
    k: u32,
    names: &[ArrayName],
) -> Result<(), Memory>
    ensures { Goes (goes_through_by k names.now schemes.now (walked at.old steps.old)) (walked at.new steps.new) result }
{
    steps.tick();
    let k = k as usize;
    if k < schemes.len() {
        through(alloc, &schemes[k], at, steps, names)
    } else {
        Ok(())
    }
}

/// After both branches of an `if`: the places at the end of the first, and those at the end of the second.
fn stand_at_both(at: &mut Scheme, left: Items<Atom>) -> Result<(), Memory>
    ensures { OnOk result (at.new ≡ record at.old { ends = join_all same_atom left at.old.ends }) }
{
    let right = mem::replace(&mut at.ends, left);
    let joined = join_ends(&mut at.ends, right.as_slice());
    drop(right);
    joined
}

/// Adds the ends of a first branch to those of the first branches round it.
fn keep(firsts: &mut Option<Items<Atom>>, ends: Items<Atom>) -> Result<(), Memory>
    ensures { OnOk result (firsts.new ≡ Some (with_more firsts.old ends)) }
{
    match firsts {
        None => {
            *firsts = Some(ends);
            Ok(())
        }
        Some(before) => {
            let joined = join_ends(before, ends.as_slice());
            drop(ends);
            joined
        }
    }
}

/// After the branches of all these `if`: the places at the ends of their first ones, and those where the walk is.
fn stand_behind(at: &mut Scheme, firsts: Option<Items<Atom>>) -> Result<(), Memory>
    ensures { OnOk result (at.new ≡ record at.old { ends = behind firsts at.old.ends }) }
{
    match firsts {
        None => Ok(()),
        Some(left) => stand_at_both(at, left),
    }
}

#[cycle(walk)]
pub fn expr<L: Ledger>(
    alloc: Global,
    schemes: &[Scheme],
    at: &mut Scheme,
    steps: &mut Steps<L>,
    e: &Expr,
) -> Result<(), Memory>
    ensures { Goes (expr_found e.now schemes.now (walked at.old steps.old)) (walked at.new steps.new) result }
{
    match e {
        Expr::Fixed(_) | Expr::Local(_) | Expr::Now | Expr::Me => {
            steps.tick();
            Ok(())
        }
        Expr::Un(_, a) | Expr::Cast(_, a) => {
            steps.tick();
            expr(alloc, schemes, at, steps, a.get())
        }
        Expr::Bin(_, a, b) | Expr::Cmp(_, a, b) => {
            steps.tick();
            two(alloc, schemes, at, steps, a.get(), b.get())
        }
        Expr::Hash(_, operands) => {
            steps.tick();
            exprs(alloc, schemes, at, steps, operands.as_slice())
        }
        Expr::Array(t) => {
            steps.tick();
            touch(alloc, schemes, at, steps, t.get())
        }
        Expr::Fun(k, names, args) => {
            exprs(alloc, schemes, at, steps, args.as_slice())?;
            goes_through(alloc, schemes, at, steps, *k, names.as_slice())
        }
        Expr::Inlined(given, stmts) => {
            steps.tick();
            givens(alloc, schemes, at, steps, given.as_slice())?;
            body(alloc, schemes, at, steps, stmts.as_slice())
        }
    }
}

/// Walks along two expressions, one after the other.
#[cycle(walk)]
fn two<L: Ledger>(
    alloc: Global,
    schemes: &[Scheme],
    at: &mut Scheme,
    steps: &mut Steps<L>,
    first: &Expr,
    last: &Expr,
) -> Result<(), Memory>
    ensures { Goes (expr_found last.now schemes.now (expr_found first.now schemes.now (walked at.old steps.old))) (walked at.new steps.new) result }
{
    expr(alloc, schemes, at, steps, first)?;
    expr(alloc, schemes, at, steps, last)
}

#[cycle(walk)]
fn exprs<L: Ledger>(
    alloc: Global,
    schemes: &[Scheme],
    at: &mut Scheme,
    steps: &mut Steps<L>,
    es: &[Expr],
) -> Result<(), Memory>
    ensures { Goes (sequence finds (map expr_found es.now) schemes.now (walked at.old steps.old)) (walked at.new steps.new) result }
{
    for e in es {
        expr(alloc, schemes, at, steps, e)?;
    }
    Ok(())
}

#[cycle(walk)]
fn givens<L: Ledger>(
    alloc: Global,
    schemes: &[Scheme],
    at: &mut Scheme,
    steps: &mut Steps<L>,
    given: &[(u32, Expr)],
) -> Result<(), Memory>
    ensures { Goes (given_found given.now schemes.now (walked at.old steps.old)) (walked at.new steps.new) result }
{
    for (_, e) in given {
        expr(alloc, schemes, at, steps, e)?;
    }
    Ok(())
}

#[cycle(walk)]
fn touch<L: Ledger>(
    alloc: Global,
    schemes: &[Scheme],
    at: &mut Scheme,
    steps: &mut Steps<L>,
    t: &Touch,
) -> Result<(), Memory>
    ensures { Goes (touch_found t.now schemes.now (walked at.old steps.old)) (walked at.new steps.new) result }
{
    two(alloc, schemes, at, steps, &t.index, &t.get_arg)?;
    expr(alloc, schemes, at, steps, &t.set_arg)?;
    passes(alloc, at, steps, t.array)
}

/// Walks along statements, one after another. Those after a return and after a case of a `match` are the second branch of an `If` that ends
/// its block. A loop follows these, since a text may have very many; all else is no deeper than a text may nest.
#[cycle(walk)]
pub fn body<L: Ledger>(
    alloc: Global,
    schemes: &[Scheme],
    at: &mut Scheme,
    steps: &mut Steps<L>,
    stmts: &[Stmt],
) -> Result<(), Memory>
    ensures { Goes (body_found stmts.now schemes.now (walked at.old steps.old)) (walked at.new steps.new) result }
{
    let mut firsts = None;
    match along(alloc, schemes, at, steps, &mut firsts, stmts) {
        Ok(()) => stand_behind(at, firsts),
        Err(error) => {
            drop(firsts);
            Err(error)
        }
    }
}

/// Walks along statements and keeps the ends of the first branches of each `if` that ends a block.
#[cycle(walk)]
fn along<L: Ledger>(
    alloc: Global,
    schemes: &[Scheme],
    at: &mut Scheme,
    steps: &mut Steps<L>,
    firsts: &mut Option<Items<Atom>>,
    stmts: &[Stmt],
) -> Result<(), Memory>
    ensures { Goes (closed firsts.old (body_found stmts.now schemes.now (walked at.old steps.old))) (closed firsts.new (walked at.new steps.new)) result }
{
    let mut left = stmts;
    while let Some((last, front)) = left.split_last() {
        let Stmt::If(e, a, b) = last else {
            return each(alloc, schemes, at, steps, left);
        };
        each(alloc, schemes, at, steps, front)?;
        steps.tick();
        let ends = first_branch(alloc, schemes, at, steps, e, a.as_slice())?;
        keep(firsts, ends)?;
        left = b.as_slice();
    }
    Ok(())
}

/// Walks along statements, each by itself.
#[cycle(walk)]
fn each<L: Ledger>(
    alloc: Global,
    schemes: &[Scheme],
    at: &mut Scheme,
    steps: &mut Steps<L>,
    stmts: &[Stmt],
) -> Result<(), Memory>
    ensures { Goes (body_found stmts.now schemes.now (walked at.old steps.old)) (walked at.new steps.new) result }
{
    for one in stmts {
        stmt(alloc, schemes, at, steps, one)?;
    }
    Ok(())
}

/// Walks along the condition of an `if` and its first branch, and returns the places at its end. The walk is then where the branches begin.
#[cycle(walk)]
fn first_branch<L: Ledger>(
    alloc: Global,
    schemes: &[Scheme],
    at: &mut Scheme,
    steps: &mut Steps<L>,
    e: &Expr,
    a: &[Stmt],
) -> Result<Items<Atom>, Memory>
    ensures found { Goes (back_from e.now a.now schemes.now (walked at.old steps.old)) (walked at.new steps.new) result }
    ensures ends { IfOk result (λ ends. ends ≡ (first e.now a.now schemes.now (walked at.old steps.old)).ends) }
{
    expr(alloc, schemes, at, steps, e)?;
    let began = Items::from_slice(alloc, at.ends.as_slice())?;
    match body(alloc, schemes, at, steps, a) {
        Ok(()) => Ok(mem::replace(&mut at.ends, began)),
        Err(error) => {
            drop(began);
            Err(error)
        }
    }
}

/// Walks along an `if` within a block.
#[cycle(walk)]
fn branches<L: Ledger>(
    alloc: Global,
    schemes: &[Scheme],
    at: &mut Scheme,
    steps: &mut Steps<L>,
    e: &Expr,
    a: &[Stmt],
    b: &[Stmt],
) -> Result<(), Memory>
    ensures { Goes (either (body_found a.now) (body_found b.now) schemes.now (expr_found e.now schemes.now (walked at.old steps.old))) (walked at.new steps.new) result }
{
    let left = first_branch(alloc, schemes, at, steps, e, a)?;
    match body(alloc, schemes, at, steps, b) {
        Ok(()) => stand_at_both(at, left),
        Err(error) => {
            drop(left);
            Err(error)
        }
    }
}

/// Walks along two operands that may be left out.
#[cycle(walk)]
fn both<L: Ledger>(
    alloc: Global,
    schemes: &[Scheme],
    at: &mut Scheme,
    steps: &mut Steps<L>,
    first: &Option<Expr>,
    last: &Option<Expr>,
) -> Result<(), Memory>
    ensures { Goes (asked_found last.now schemes.now (asked_found first.now schemes.now (walked at.old steps.old))) (walked at.new steps.new) result }
{
    asked(alloc, schemes, at, steps, first)?;
    asked(alloc, schemes, at, steps, last)
}

#[cycle(walk)]
fn asked<L: Ledger>(
    alloc: Global,
    schemes: &[Scheme],
    at: &mut Scheme,
    steps: &mut Steps<L>,
    e: &Option<Expr>,
) -> Result<(), Memory>
    ensures { Goes (asked_found e.now schemes.now (walked at.old steps.old)) (walked at.new steps.new) result }
{
    match e {
        None => Ok(()),
        Some(e) => expr(alloc, schemes, at, steps, e),
    }
}

#[cycle(walk)]
fn stmt<L: Ledger>(
    alloc: Global,
    schemes: &[Scheme],
    at: &mut Scheme,
    steps: &mut Steps<L>,
    s: &Stmt,
) -> Result<(), Memory>
    ensures { Goes (stmt_found s.now schemes.now (walked at.old steps.old)) (walked at.new steps.new) result }
{
    steps.tick();
    match s {
        Stmt::Assign(_, e) | Stmt::Drop(e) => expr(alloc, schemes, at, steps, e),
        Stmt::If(e, a, b) => branches(alloc, schemes, at, steps, e, a.as_slice(), b.as_slice()),
        Stmt::Gen {
            args,
            delay,
            to,
            delay_first,
            ..
        } => {
            exprs(alloc, schemes, at, steps, args.as_slice())?;
            if *delay_first {
                both(alloc, schemes, at, steps, delay, to)
            } else {
                both(alloc, schemes, at, steps, to, delay)
            }
        }
        Stmt::Multi { args, delay, .. } => {
            exprs(alloc, schemes, at, steps, args.as_slice())?;
            asked(alloc, schemes, at, steps, delay)
        }
        Stmt::Say { args, .. } => exprs(alloc, schemes, at, steps, args.as_slice()),
        Stmt::Return(e) => asked(alloc, schemes, at, steps, e),
    }
}
