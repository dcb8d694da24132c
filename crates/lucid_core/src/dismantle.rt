// The drop of bodies in a loop. A body may nest as deeply as it has returns, cases and inlined calls; its drop needs the same small stack.
use crate::{Expr, Stmt, Touch};
use lucid_base::{Boxed, Items};

/// Drops a block. The parts of what is dropped join the list of what is left. A part that finds no memory there is dropped by recursion.
pub(crate) fn dismantle(stmts: Items<Stmt>) {
    let mut left = stmts;
    // No block holds this many parts.
    for _ in 0..u64::MAX {
        let Some(stmt) = left.pop() else {
            return;
        };
        dismantle_stmt(stmt, &mut left);
    }
}

/// Leaves the parts of the statement. Of an `If`, the second branch waits while the first is dropped: it may be a chain of further ones.
fn dismantle_stmt(stmt: Stmt, left: &mut Items<Stmt>) {
    match stmt {
        Stmt::Assign(_, e) => dismantle_expr(e, left),
        Stmt::Drop(e) => dismantle_expr(e, left),
        Stmt::If(e, yes, no) => {
            dismantle_expr(e, left);
            leave_block(no, left);
            leave_block(yes, left);
        }
        Stmt::Gen {
            event: _,
            args,
            delay,
            to,
            delay_first: _,
        } => {
            leave_each(args, left);
            leave_optional(delay, left);
            leave_optional(to, left);
        }
        Stmt::Multi {
            event: _,
            args,
            delay,
            members,
        } => {
            drop(members);
            leave_each(args, left);
            leave_optional(delay, left);
        }
        Stmt::Say { form: _, args } => leave_each(args, left),
        Stmt::Return(e) => leave_optional(e, left),
    }
}

/// Leaves the parts of the expression.
fn dismantle_expr(e: Expr, left: &mut Items<Stmt>) {
    match e {
        Expr::Fixed(_) => {}
        Expr::Local(_) => {}
        Expr::Now => {}
        Expr::Me => {}
        Expr::Un(_, a) => leave_boxed(a, left),
        Expr::Bin(_, a, b) => {
            leave_boxed(a, left);
            leave_boxed(b, left);
        }
        Expr::Cmp(_, a, b) => {
            leave_boxed(a, left);
            leave_boxed(b, left);
        }
        Expr::Cast(_, a) => leave_boxed(a, left),
        Expr::Hash(_, xs) => leave_each(xs, left),
        Expr::Array(t) => leave_touch(t, left),
        Expr::Fun(_, arrays, args) => {
            drop(arrays);
            leave_each(args, left);
        }
        Expr::Inlined(given, body) => {
            leave_given(given, left);
            leave_block(body, left);
        }
    }
}

fn leave_block(block: Items<Stmt>, left: &mut Items<Stmt>) {
    let _ = left.append(block);
}

/// Leaves an expression as a statement that drops its value. One without parts is dropped at once.
fn leave(e: Expr, left: &mut Items<Stmt>) {
    match e {
        Expr::Fixed(_) => {}
        Expr::Local(_) => {}
        Expr::Now => {}
        Expr::Me => {}
        other => {
            let _ = left.push(Stmt::Drop(other));
        }
    }
}

fn leave_boxed(e: Boxed<Expr>, left: &mut Items<Stmt>) {
    leave(e.into_inner(), left);
}

fn leave_optional(e: Option<Expr>, left: &mut Items<Stmt>) {
    match e {
        None => {}
        Some(e) => leave(e, left),
    }
}

fn leave_touch(t: Boxed<Touch>, left: &mut Items<Stmt>) {
    let Touch {
        array: _,
        index,
        get: _,
        get_arg,
        set: _,
        set_arg,
        answers: _,
    } = t.into_inner();
    leave(index, left);
    leave(get_arg, left);
    leave(set_arg, left);
}

fn leave_each(es: Items<Expr>, left: &mut Items<Stmt>) {
    let mut rest = es;
    for _ in 0..rest.len() {
        if let Some(e) = rest.pop() {
            leave(e, left);
        }
    }
}

/// Leaves the arguments of an inlined call.
fn leave_given(given: Items<(u32, Expr)>, left: &mut Items<Stmt>) {
    let mut rest = given;
    for _ in 0..rest.len() {
        if let Some((_, e)) = rest.pop() {
            leave(e, left);
        }
    }
}
