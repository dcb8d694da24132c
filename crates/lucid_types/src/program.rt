// From a tree to its core.
ghost use Rattle.std.specs.Prelude.{IfErr, IfOk};
ghost use Rattle.lucid_parse_tree.specs.declared.tree.Tree.{Tree as Program};
ghost use Rattle.lucid_types_spec.specs.Declaration.{parts_of};
ghost use Rattle.lucid_types_spec.specs.Found.{IsDetermined};
ghost use Rattle.lucid_types_spec.specs.Makes.{IsTyped};
ghost use Rattle.lucid_types_declarations.specs.Known.{made_of};
ghost use Rattle.lucid_types_limits.specs.NewPart.{Knows};
ghost use Rattle.lucid_types.specs.Answers.{Adds, Tells};

use crate::error::TypeError;
use crate::law;
use crate::limit::passed;
use crate::parts::core_of;
use lucid_core::Core;
use lucid_parse_tree::{Decl, Tree};
use lucid_seed::Seeded;
use lucid_types_declarations::{Known, declare};
use lucid_types_expressions::Fault;
use lucid_types_laws::typed_programs_are_valid;
use lucid_types_limits::Limits;
use lucid_types_scope::next;
use std::alloc::Global;

/// Elaborates the tree into its core, if the rules derive one; otherwise reports the first declaration that is refused, and why. A tree
/// has one of the two. The answer is the same for any seed of the tables; the seed is the text of the tree.
pub fn elaborate(alloc: Global, seeded: Seeded, tree: &Tree) -> Result<Core, TypeError>
    ensures typed { IfOk result (λ core. IsTyped tree.now core) }
    ensures refused { IfErr result (Tells tree.now) }
    ensures one { IsDetermined tree.now }
{
    law::declarations_are_computed();
    law::the_first_refusal_is_found();
    typed_programs_are_valid();
    let mut known = Known::new(alloc, seeded);
    let mut limits = Limits::new(alloc);
    let mut number = 0u32;
    for x in tree.decls.as_slice() {
        number = next(number)?;
        add(alloc, &mut known, &mut limits, number, x)?;
    }
    Ok(core_of(known))
}

/// Adds declaration `number` to the known ones, which the rules derive from the declarations before.
fn add(
    alloc: Global,
    known: &mut Known,
    limits: &mut Limits,
    number: u32,
    x: &Decl,
) -> Result<(), TypeError>
    ensures { (front : Program) → IsTyped front (parts_of (made_of known.old)) → Knows known.old.funs.items limits.old →
        Adds result number x.now (made_of known.old) (made_of known.new) limits.new }
{
    match declare(alloc, known, number, x) {
        Err(fault) => match fault {
            Fault::NoRule => Err(TypeError::NoRule {
                decl: number,
                line: x.line,
            }),
            Fault::Memory => Err(TypeError::Memory),
        },
        Ok(()) => match passed(limits, known, &x.kind)? {
            Some(what) => Err(TypeError::Limit {
                what,
                decl: number,
                line: x.line,
            }),
            None => Ok(()),
        },
    }
}
