// The meaning of names.
ghost use Rattle.std.specs.Prelude.{◌≡◌};
ghost use Rattle.lucid_types_spec.specs.Names.{seen};
ghost use Rattle.lucid_types_laws.specs.Lead.{array_lead, int_width, named_lead};
ghost use Rattle.lucid_types_laws.specs.Reading.{array_at, memop_at};
ghost use Rattle.lucid_types_expressions.specs.Gives.{Gives};

use crate::Fault;
use lucid_base::{ArrayName, Id, MemAlu, Width};
use lucid_types_scope::Scope;
use lucid_types_spec::{Entry, ValueType};

fn int_width(t: ValueType) -> Option<u64>
    ensures { result ≡ int_width t }
{
    match t {
        ValueType::Int(w) => Some(u64::from(w.get())),
        ValueType::Bool => None,
    }
}

/// The width of the value that the name gives if it is an int.
pub fn named_width(scope: &Scope, name: &Id) -> Option<u64>
    ensures { result ≡ named_lead name.now scope.now }
{
    match scope.find(name) {
        Some(Entry::Constant(b)) => Some(u64::from(b.width.get())),
        Some(Entry::Local(_, t)) => int_width(*t),
        Some(Entry::Fun(_, _, Some(t))) => int_width(*t),
        _ => None,
    }
}

/// The cell width of the array of the name.
pub fn array_width(scope: &Scope, name: &Id) -> Option<u64>
    ensures { result ≡ array_lead name.now scope.now }
{
    match scope.find(name) {
        Some(Entry::Array(_, w)) => Some(u64::from(w.get())),
        _ => None,
    }
}

/// The array of the name, and its cell width. NoRule if the name is no array's.
pub fn array(scope: &Scope, name: &Id) -> Result<(ArrayName, Width), Fault>
    ensures { Gives result (array_at (seen name.now scope.now)) }
{
    match scope.find(name) {
        Some(Entry::Array(array, w)) => Ok((*array, *w)),
        _ => Err(Fault::NoRule),
    }
}

/// The memop of the name, over cells of this width. NoRule if the name is no such memop's.
pub fn memop(scope: &Scope, width: Width, name: &Id) -> Result<MemAlu, Fault>
    ensures { Gives result (memop_at width (seen name.now scope.now)) }
{
    match scope.find(name) {
        Some(Entry::Memop(memop)) => {
            if memop.width.get() == width.get() {
                Ok(*memop)
            } else {
                Err(Fault::NoRule)
            }
        }
        _ => Err(Fault::NoRule),
    }
}
