// The operands of locals, and the values of expressions.
ghost use Rattle.std.specs.Prelude.{◌≡◌, slice_index_or};
ghost use Rattle.lucid_code.specs.declared.op.Operand.TheVariants.{Field};
ghost use Rattle.lucid_normal_spec.specs.Translate.{expr_code, held_by};

use lucid_base::Width;
use lucid_code::Operand;
use lucid_core::Expr;
use lucid_normal_spec::Typed;

/// The operand of the local.
pub fn held_at(held: &[Option<Typed>], i: u32) -> Option<Typed>
    ensures { result ≡ slice_index_or held.now i None }
{
    match held.get(i as usize) {
        None => None,
        Some(t) => *t,
    }
}

/// The value of an expression that is used. In a flat core it is there.
pub fn needed(t: Option<Typed>) -> Typed
    ensures { result ≡ held_by t }
{
    match t {
        None => Typed {
            operand: Operand::Fixed(0),
            width: Width::bool(),
        },
        Some(t) => t,
    }
}

/// The input of 32 bits in field `k`.
pub fn input(k: u32) -> Option<Typed>
    ensures { result ≡ Some (record { operand = Field k; width = 32 }) }
{
    Some(Typed {
        operand: Operand::Field(k),
        width: Width::int(),
    })
}

/// Returns whether the expression needs a move if it is a condition.
pub fn needs_move(e: &Expr) -> bool
    ensures { result ≡ (expr_code e.now).needs_move }
{
    match e {
        Expr::Fixed(_)
        | Expr::Local(_)
        | Expr::Now
        | Expr::Me
        | Expr::Fun(_, _, _)
        | Expr::Inlined(_, _) => true,
        _ => false,
    }
}
