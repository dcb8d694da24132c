// The counts of statements and blocks.
ghost use Rattle.std.specs.Prelude.{◌≡◌, IfOk, OnOk, map};
ghost use Rattle.lucid_inline_count.specs.Counts.{plus};
ghost use Rattle.lucid_inline_count.specs.Flags.{put_back as before};
ghost use Rattle.lucid_inline_count.specs.Found.{block_part, condition as condition_of, expr_found, names_of, part_of, stmt_tally, without_returns};
ghost use Rattle.lucid_inline_count.specs.Branches.{held_behind};
ghost use Rattle.lucid_inline_count.specs.Held.{Assigns, AssignsBoth};
ghost use Rattle.lucid_inline_count.specs.Rounds.{round};

use crate::body::{Body, Part};
use crate::branches::{Open, close, either};
use crate::counts::{Counts, count};
use crate::exprs::{condition, expr, group, optional, sent, total};
use crate::held::{Note, put_back, set};
use lucid_base::Memory;
use lucid_core::{Expr, Stmt};
use std::alloc::Global;

/// The part of a statement that neither assigns nor returns.
fn plainly(counts: Counts) -> Part
    ensures { result ≡ without_returns counts }
{
    Part {
        counts,
        sets: None,
        returns: false,
        value: false,
    }
}

/// Counts statements, one after another. Those after a return and after a case of a `match` are the second branch of an `If` that ends its
/// block. A loop follows these, since a text may have very many; all else is no deeper than a text may nest.
#[cycle(blocks)]
pub fn block(
    alloc: Global,
    funs: &[Counts],
    body: &mut Body,
    stmts: &[Stmt],
) -> Result<Part, Memory>
    ensures part { IfOk result (λ p. p ≡ block_part (map stmt_tally stmts.now) (round funs.now body.old)) }
    ensures held { OnOk result (body.new.held.items ≡ body.old.held.items) }
    ensures assigned { OnOk result (Assigns body.old.held.items body.old.assigned.items body.new.assigned.items (names_of (map stmt_tally stmts.now))) }
{
    let mut waiting = Vec::new(alloc);
    let mut left = stmts;
    while let Some((Stmt::If(e, yes, no), front)) = left.split_last() {
        let first = first_branch(alloc, funs, body, front, e, yes.as_slice())?;
        waiting.push(first)?;
        left = no.as_slice();
    }
    let mut part = flat(alloc, funs, body, left)?;
    while let Some(one) = waiting.pop() {
        part = close(alloc, body, one, part)?;
    }
    Ok(part)
}

/// Counts statements, each by itself.
#[cycle(blocks)]
fn flat(alloc: Global, funs: &[Counts], body: &mut Body, stmts: &[Stmt]) -> Result<Part, Memory>
    ensures part { IfOk result (λ p. p ≡ block_part (map stmt_tally stmts.now) (round funs.now body.old)) }
    ensures held { OnOk result (body.new.held.items ≡ body.old.held.items) }
    ensures assigned { OnOk result (Assigns body.old.held.items body.old.assigned.items body.new.assigned.items (names_of (map stmt_tally stmts.now))) }
{
    let mut notes = Vec::new(alloc);
    let part = each(alloc, funs, body, &mut notes, stmts)?;
    put_back(&mut body.held, notes);
    Ok(part)
}

/// Counts statements, each by itself, and notes which locals they set.
#[cycle(blocks)]
fn each(
    alloc: Global,
    funs: &[Counts],
    body: &mut Body,
    notes: &mut Vec<Note>,
    stmts: &[Stmt],
) -> Result<Part, Memory>
    ensures part { IfOk result (λ p. p ≡ block_part (map stmt_tally stmts.now) (round funs.now body.old)) }
    ensures held { OnOk result (body.new.held.items ≡ held_behind (map stmt_tally stmts.now) (round funs.now body.old)) }
    ensures back { OnOk result (before notes.new.items body.new.held.items ≡ before notes.old.items body.old.held.items) }
    ensures assigned { OnOk result (Assigns body.old.held.items body.old.assigned.items body.new.assigned.items (names_of (map stmt_tally stmts.now))) }
{
    let mut all = plainly(count(0, 0));
    for s in stmts {
        let part = stmt(alloc, funs, body, s)?;
        all = all.and(part);
        if let Some(i) = part.sets {
            set(&mut body.held, notes, i, true)?;
        }
    }
    Ok(all)
}

/// Counts a block up to the second branch of the `if` that ends it.
#[cycle(blocks)]
fn first_branch(
    alloc: Global,
    funs: &[Counts],
    body: &mut Body,
    front: &[Stmt],
    e: &Expr,
    yes: &[Stmt],
) -> Result<Open, Memory>
    ensures front { IfOk result (λ o. o.front ≡ block_part (map stmt_tally front.now) (round funs.now body.old)) }
    ensures yes { IfOk result (λ o. o.yes ≡ block_part (map stmt_tally yes.now) (round funs.now body.new)) }
    ensures tested { IfOk result (λ o. o.tested ≡ plus (condition_of (expr_found e.now) funs.now) o.yes.counts) }
    ensures back { IfOk result (λ o. before o.notes.items body.new.held.items ≡ body.old.held.items) }
    ensures held { OnOk result (body.new.held.items ≡ held_behind (map stmt_tally front.now) (round funs.now body.old)) }
    ensures assigned { IfOk result (λ o. AssignsBoth o.from body.old.held.items body.new.held.items body.old.assigned.items body.new.assigned.items
        (names_of (map stmt_tally front.now)) (names_of (map stmt_tally yes.now))) }
{
    let mut notes = Vec::new(alloc);
    let front = each(alloc, funs, body, &mut notes, front)?;
    let from = body.assigned.len();
    let yes = block(alloc, funs, body, yes)?;
    Ok(Open {
        front,
        tested: condition(funs, e).and(yes.counts),
        yes,
        from,
        notes,
    })
}

#[cycle(blocks)]
#[tactic(auto, using(crate::proofs::HeldLemmas::assigns_none, crate::proofs::HeldLemmas::assigns_one, std::proofs::lemmas::Grind::common_steps))]
fn stmt(alloc: Global, funs: &[Counts], body: &mut Body, s: &Stmt) -> Result<Part, Memory>
    ensures part { IfOk result (λ p. p ≡ part_of (stmt_tally s.now) (round funs.now body.old)) }
    ensures held { OnOk result (body.new.held.items ≡ body.old.held.items) }
    ensures assigned { OnOk result (Assigns body.old.held.items body.old.assigned.items body.new.assigned.items (stmt_tally s.now).names) }
{
    match s {
        Stmt::Assign(i, e) => {
            body.assigned.push(*i)?;
            Ok(Part {
                sets: Some(*i),
                ..plainly(expr(funs, e).and(count(1, 1)))
            })
        }
        Stmt::Drop(e) => Ok(plainly(expr(funs, e).and(count(0, 1)))),
        Stmt::If(e, yes, no) => {
            let from = body.assigned.len();
            let yes = block(alloc, funs, body, yes.as_slice())?;
            let no = block(alloc, funs, body, no.as_slice())?;
            let tested = condition(funs, e).and(yes.counts);
            either(alloc, body, tested, yes, no, from)
        }
        Stmt::Gen {
            event: _,
            args,
            delay,
            to,
            delay_first: _,
        } => Ok(plainly(sent(funs, args.as_slice(), delay, to))),
        Stmt::Multi {
            event: _,
            args,
            delay,
            members,
        } => Ok(plainly(group(funs, args.as_slice(), delay, members.as_slice()))),
        Stmt::Say { form: _, args } => Ok(plainly(total(funs, args.as_slice()).and(count(1, 1)))),
        Stmt::Return(e) => Ok(Part {
            returns: true,
            value: e.is_some(),
            ..plainly(optional(funs, e).and(count(0, 1)))
        }),
    }
}
