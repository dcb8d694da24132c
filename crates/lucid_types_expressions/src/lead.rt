// The first leaf of an expression that is no number, from the left.
ghost use Rattle.std.specs.Prelude.{◌≡◌};
ghost use Rattle.std.specs.Option.{option_copied};
ghost use Rattle.lucid_types_laws.specs.Lead.{or_32};
ghost use Rattle.lucid_types_laws.specs.Reading.{reading, reading_call, shared_width};

use crate::names::{array_width, named_width};
use crate::operator::{arithmetic, stated};
use lucid_base::Id;
use lucid_parse_tree::{A, E, Pre};
use lucid_types_scope::Scope;

/// Its width.
fn lead(scope: &Scope, x: &E) -> Option<u64>
    ensures { result ≡ (reading x.now).lead scope.now }
{
    match x {
        E::Number(_) => None,
        E::Truth(_) => None,
        E::Me => Some(32),
        E::Time => Some(32),
        E::Hash(w, _) => Some(*w),
        E::Name(n) => named_width(scope, n),
        E::Call(n, _) => named_width(scope, n),
        E::Array(a) => call_lead(scope, a.get()),
        E::Paren(x) => lead(scope, x.get()),
        E::Prefix(sign, x) => match sign {
            Pre::Not => None,
            _ => lead(scope, x.get()),
        },
        E::Cast(w, _) => Some(stated(*w)),
        E::Shift(x, _, _) => lead(scope, x.get()),
        E::Infix(sign, x, y) => match arithmetic(*sign) {
            None => None,
            Some(_) => match lead(scope, x.get()) {
                Some(w) => Some(w),
                None => lead(scope, y.get()),
            },
        },
    }
}

fn call_lead(scope: &Scope, x: &A) -> Option<u64>
    ensures { result ≡ (reading_call x.now).lead scope.now }
{
    match x {
        A::Get(n, _) => array_width(scope, n),
        A::Set(_, _, _) => None,
        A::Getm(n, _, _, _) => array_width(scope, n),
        A::Setm(_, _, _, _) => None,
        A::Update(n, _, _, _, _, _) => array_width(scope, n),
    }
}

/// The width of a free place with this expression: 32 if each leaf is a number.
pub fn free_width(scope: &Scope, x: &E) -> u64
    ensures { result ≡ or_32 ((reading x.now).lead scope.now) }
{
    match lead(scope, x) {
        Some(w) => w,
        None => 32,
    }
}

/// The width of the two sides of a comparison, which are one free place.
pub fn shared_width(scope: &Scope, x: &E, y: &E) -> u64
    ensures { result ≡ shared_width (reading x.now) (reading y.now) scope.now }
{
    match lead(scope, x) {
        Some(w) => w,
        None => match lead(scope, y) {
            Some(w) => w,
            None => 32,
        },
    }
}

/// The name if the expression is a bare one.
pub fn bare(x: &E) -> Option<&Id>
    ensures { option_copied result ≡ (reading x.now).bare }
{
    match x {
        E::Name(n) => Some(n),
        _ => None,
    }
}
