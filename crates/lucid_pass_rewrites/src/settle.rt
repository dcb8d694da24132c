// Computations on numbers alone.
ghost use Rattle.std.specs.Prelude.{◌≡◌, Option, None, Some, if◌then◌else◌};
ghost use Rattle.std.specs.List.{list_all};
ghost use Rattle.lucid_pass_spec.specs.Looks.{is_fixed, settled};
ghost use Rattle.lucid_pass_rewrites.specs.Settle.{computed_field};

use lucid_base::Cells;
use lucid_code::{Act, Operand};
use std::alloc::Global;

/// Returns the act, or the move of its result if all its operands are numbers.
#[tactic(auto, using(crate::proofs::SettleLemmas::settled_by))]
pub(crate) fn settled(alloc: Global, act: Act) -> Act
    ensures { result ≡ settled act }
{
    match computed_field(&act) {
        None => act,
        Some(k) => {
            let value = act.result(&[], &Cells::none(alloc));
            Act::Move(Operand::Fixed(value), k)
        }
    }
}

/// Returns the field written by an act that computes on numbers alone.
fn computed_field(act: &Act) -> Option<u32>
    ensures { result ≡ computed_field act.now }
{
    match act {
        Act::Un(_, _, a, k) => if_fixed(&[*a], *k),
        Act::Bin(_, _, a, b, k) => if_fixed(&[*a, *b], *k),
        Act::Cmp(_, _, a, b, k) => if_fixed(&[*a, *b], *k),
        Act::Cast(a, k) => if_fixed(&[*a], *k),
        Act::Hash(xs, k) => if_fixed(xs.as_slice(), *k),
        Act::Move(_, _) => None,
        Act::Touch { .. } => None,
        Act::Gen { .. } => None,
        Act::Say { .. } => None,
    }
}

/// Returns the field, if all operands are numbers.
fn if_fixed(operands: &[Operand], k: u32) -> Option<u32>
    ensures { result ≡ if list_all is_fixed operands.now then Some k else None }
{
    if are_fixed(operands) { Some(k) } else { None }
}

fn are_fixed(operands: &[Operand]) -> bool
    ensures { result ≡ list_all is_fixed operands.now }
{
    operands.iter().all(|operand| is_fixed(operand))
}

fn is_fixed(operand: &Operand) -> bool
    ensures { result ≡ is_fixed operand.now }
{
    match operand {
        Operand::Fixed(_) => true,
        Operand::Field(_) => false,
    }
}
