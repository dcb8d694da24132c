// Groups of switches.
ghost use Rattle.std.specs.Prelude.{◌≡◌};
ghost use Rattle.lucid_types_laws.specs.Declaration.{group};
ghost use Rattle.lucid_types_expressions.specs.Gives.{Gives};
ghost use Rattle.lucid_types_declarations.specs.Groups.{small_ones};
ghost use Rattle.lucid_types_declarations.specs.Known.{Declares, made_of};

use crate::Known;
use crate::known::enter;
use lucid_base::{Id, Items};
use lucid_types_expressions::Fault;
use lucid_types_scope::are_distinct;
use lucid_types_spec::Entry;
use std::alloc::Global;

/// NoRule if there are more than 8 members or none, one twice, or one above 63.
pub fn group(alloc: Global, known: &mut Known, n: &Id, members: &[u64]) -> Result<(), Fault>
    ensures { Declares result known.new (group n.now members.now (made_of known.old)) }
{
    if members.is_empty() || members.len() > 8 {
        return Err(Fault::NoRule);
    }
    if !are_distinct(alloc, members)? {
        return Err(Fault::NoRule);
    }
    let small = small_ones(alloc, members)?;
    enter(alloc, &mut known.scope, n, Entry::Group(small))?;
    Ok(())
}

/// The numbers, each of which is below 64.
fn small_ones(alloc: Global, members: &[u64]) -> Result<Items<u32>, Fault>
    ensures { Gives result (small_ones members.now) }
{
    let mut small = Items::new(alloc);
    for member in members {
        if *member >= 64 {
            return Err(Fault::NoRule);
        }
        small.push(*member as u32)?;
    }
    Ok(small)
}
