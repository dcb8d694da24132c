// The width of an expression's value, in code.
ghost use Rattle.std.specs.Prelude.{◌≡◌, ◌<◌, [], ℕ, List, IfSome, map, slice_get};
ghost use Rattle.std.specs.Option.{option_map};
ghost use Rattle.lucid_core.specs.Width.{expr_width, first_of, first_return};
ghost use Rattle.lucid_core.specs.declared.body.Expr.TheViews.{size-Stmt};
ghost use Rattle.lucid_inline.specs.Widths.{block_size, returned_size, returned_width};

use lucid_base::Width;
use lucid_core::{Expr, Stmt};

/// Returns the width of an expression's value, given the widths of the locals, or None if it has no value. An inlined call has the width of
/// its first return, so a chain of calls is followed in a loop.
pub fn width_of(locals: &[Width], e: &Expr) -> Option<Width>
    ensures { result ≡ expr_width e.now locals.now [] }
{
    let mut head = e;
    loop {
        match head {
            Expr::Fixed(n) => return Some(n.width),
            Expr::Local(i) => return width_at(locals, *i),
            Expr::Now => return Some(Width::int()),
            Expr::Me => return Some(Width::int()),
            Expr::Un(_, x) => head = x.get(),
            Expr::Bin(_, x, _) => head = x.get(),
            Expr::Cmp(_, _, _) => return Some(Width::bool()),
            Expr::Cast(width, _) => return Some(*width),
            Expr::Hash(width, _) => return Some(*width),
            Expr::Array(t) => {
                let touch = t.get();
                if touch.answers {
                    return Some(touch.get.width);
                }
                return None;
            }
            Expr::Fun(_, _, _) => return None,
            Expr::Inlined(_, stmts) => match first(stmts.as_slice()) {
                None => return None,
                Some(None) => return None,
                Some(Some(x)) => head = x,
            },
        }
    }
}

fn width_at(widths: &[Width], i: u32) -> Option<Width>
    ensures { result ≡ slice_get widths.now i }
{
    match widths.get(i as usize) {
        None => None,
        Some(width) => Some(*width),
    }
}

/// Returns what the first return of a block returns.
#[cycle(first)]
fn first(stmts: &[Stmt]) -> Option<&Option<Expr>>
    ensures read { (locals : List ℕ) → first_of (map first_return stmts.now) locals [] ≡ option_map (λ x. returned_width locals x.now) result }
    ensures inside { IfSome result (λ x. returned_size x.now < block_size stmts.now) }
{
    for stmt in stmts {
        if let Some(answer) = returned(stmt) {
            return Some(answer);
        }
    }
    None
}

#[cycle(first)]
fn returned(stmt: &Stmt) -> Option<&Option<Expr>>
    ensures read { (locals : List ℕ) → first_return stmt.now locals [] ≡ option_map (λ x. returned_width locals x.now) result }
    ensures inside { IfSome result (λ x. returned_size x.now < size-Stmt stmt.now) }
{
    match stmt {
        Stmt::Return(e) => Some(e),
        Stmt::If(_, yes, no) => match first(yes.as_slice()) {
            None => first(no.as_slice()),
            Some(answer) => Some(answer),
        },
        _ => None,
    }
}
