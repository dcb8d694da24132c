// The memop that a body is.
ghost use Rattle.std.specs.Prelude.{◌≡◌, ◌↔◌, IfSome, IsTrue};
ghost use Rattle.lucid_base.specs.Memop.{memop_fits};
ghost use Rattle.lucid_memop.specs.Laws.{MeansItsBody};
ghost use Rattle.lucid_memop.specs.Shape.{Shaped, apart, is_allowed};
ghost use Rattle.lucid_memop.specs.Found.{choice_found, operand_found, operands_found, plain_found, returned, shape_found, side_found};

use lucid_base::{BinOp, MemAlu, MemArg, MemSide, Width};
use lucid_core::{Expr, Stmt};

/// Returns the memop that a body is: of this width, over local 0 (the stored number) and local 1 (the argument), as `Shaped` says. None if
/// the body doesn't have the shape of one. It takes no memory.
pub fn shape(width: Width, body: &[Stmt]) -> Option<MemAlu>
    ensures value { result ≡ shape_found width body.now }
    ensures shape { (m : MemAlu) → (result ≡ Some m) ↔ Shaped width body.now m }
    ensures fits { IfSome result (λ m. IsTrue (memop_fits m)) }
    ensures means { IfSome result (λ m. MeansItsBody width body.now m) }
{
    memop(width, body)
}

fn memop(width: Width, body: &[Stmt]) -> Option<MemAlu>
    ensures { result ≡ shape_found width body.now }
{
    match body {
        [Stmt::If(test, yes, no)] => choice(width, test, yes.as_slice(), no.as_slice()),
        _ => plain(width, body),
    }
}

/// Returns the memop of one return, which is the same on both sides.
fn plain(width: Width, body: &[Stmt]) -> Option<MemAlu>
    ensures { result ≡ plain_found width body.now }
{
    let side = returned_side(width, body)?;
    Some(MemAlu {
        width,
        test: None,
        yes: side,
        no: side,
    })
}

/// Returns the memop of an if: a comparison of two operands, and one return in each branch.
fn choice(width: Width, test: &Expr, yes: &[Stmt], no: &[Stmt]) -> Option<MemAlu>
    ensures { result ≡ choice_found width test.now yes.now no.now }
{
    match test {
        Expr::Cmp(op, x, y) => {
            let (left, right) = operands(width, x.get(), y.get())?;
            let yes = returned_side(width, yes)?;
            let no = returned_side(width, no)?;
            Some(MemAlu {
                width,
                test: Some((*op, left, right)),
                yes,
                no,
            })
        }
        _ => None,
    }
}

/// Returns the memop side of a block of one return.
fn returned_side(width: Width, body: &[Stmt]) -> Option<MemSide>
    ensures { result ≡ returned width body.now }
{
    match body {
        [Stmt::Return(Some(x))] => side(width, x),
        _ => None,
    }
}

/// One operand, or an operation on two.
fn side(width: Width, x: &Expr) -> Option<MemSide>
    ensures { result ≡ side_found width x.now }
{
    match x {
        Expr::Bin(op, left, right) => {
            if !allowed(*op) {
                return None;
            }
            let (left, right) = operands(width, left.get(), right.get())?;
            Some(MemSide::Two(*op, left, right))
        }
        _ => Some(MemSide::One(operand(width, x)?)),
    }
}

/// Two operands that use each parameter at most once.
fn operands(width: Width, left: &Expr, right: &Expr) -> Option<(MemArg, MemArg)>
    ensures { result ≡ operands_found width left.now right.now }
{
    let left = operand(width, left)?;
    let right = operand(width, right)?;
    if are_apart(left, right) {
        Some((left, right))
    } else {
        None
    }
}

/// Returns a parameter, or a number of the memop's width.
fn operand(width: Width, x: &Expr) -> Option<MemArg>
    ensures { result ≡ operand_found width x.now }
{
    match x {
        Expr::Local(0) => Some(MemArg::Stored),
        Expr::Local(1) => Some(MemArg::Arg),
        Expr::Fixed(n) if n.width == width => Some(MemArg::Fixed(n.value)),
        _ => None,
    }
}

fn are_apart(left: MemArg, right: MemArg) -> bool
    ensures { result ≡ apart left right }
{
    match (left, right) {
        (MemArg::Stored, MemArg::Stored) => false,
        (MemArg::Arg, MemArg::Arg) => false,
        _ => true,
    }
}

/// Returns whether a memop has this operation: `+ - & | ^`.
fn allowed(op: BinOp) -> bool
    ensures { result ≡ is_allowed op }
{
    match op {
        BinOp::SatAdd | BinOp::SatSub => false,
        _ => true,
    }
}
