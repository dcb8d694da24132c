// The names among which a cycle is looked for.
ghost use Rattle.std.specs.Prelude.{◌≡◌, IfOk, OnOk};
ghost use Rattle.std.specs.List.{list_any};
ghost use Rattle.lucid_constraints.specs.Circle.{HasDeclared, Covers, named, named_from, needed};
ghost use Rattle.lucid_constraints.specs.Same.{same_name as are_same_names, joined, join_all};

use crate::pair::{Atom, Pair};
use lucid_base::{ArrayName, Memory};
use std::alloc::Global;

fn declared(alloc: Global, arrays: u32) -> Result<Vec<ArrayName>, Memory>
    ensures { IfOk result (λ names. HasDeclared arrays names.items) }
{
    let mut names: Vec<ArrayName> = Vec::new(alloc);
    for a in 0..arrays {
        names.push(ArrayName::Global(a))?;
    }
    Ok(names)
}

fn has_name(names: &[ArrayName], name: ArrayName) -> bool
    ensures { result ≡ list_any (are_same_names name) names.now }
{
    for other in names {
        if name == *other {
            return true;
        }
    }
    false
}

fn join_name(names: &mut Vec<ArrayName>, name: ArrayName) -> Result<(), Memory>
    ensures { OnOk result (names.new.items ≡ joined are_same_names names.old.items name) }
{
    if has_name(names, name) {
        return Ok(());
    }
    names.push(name)?;
    Ok(())
}

/// Adds the names of the pair, if it asks for an order of two.
fn join_named(names: &mut Vec<ArrayName>, pair: Pair) -> Result<(), Memory>
    ensures { OnOk result (names.new.items ≡ join_all are_same_names names.old.items (named pair)) }
{
    match pair.atom {
        Atom::Start => Ok(()),
        Atom::After(x) => {
            join_name(names, x)?;
            join_name(names, pair.array)
        }
    }
}

fn join_each(names: &mut Vec<ArrayName>, pairs: &[Pair]) -> Result<(), Memory>
    ensures { OnOk result (names.new.items ≡ named_from names.old.items pairs.now) }
{
    for pair in pairs {
        join_named(names, *pair)?;
    }
    Ok(())
}

/// Returns the declared arrays, and the names of the pairs that aren't among them, each once.
pub fn gather(alloc: Global, pairs: &[Pair], arrays: u32) -> Result<Vec<ArrayName>, Memory>
    ensures { IfOk result (λ names. Covers (needed pairs.now arrays) names.items) }
{
    let mut names = declared(alloc, arrays)?;
    join_each(&mut names, pairs)?;
    Ok(names)
}
