// The known names and parts while declarations are typed.
ghost use Rattle.std.specs.Prelude.{◌≡◌, ◌∷◌, OnOk};
ghost use Rattle.lucid_types_spec.specs.Declaration.{start};
ghost use Rattle.lucid_types_spec.specs.Names.{called};
ghost use Rattle.lucid_types_declarations.specs.Known.{made_of};

use lucid_base::{ArrayDef, Id, Items, Memory};
use lucid_core::{EventDef, FunDef, HandlerDef, MemopDef};
use lucid_seed::Seeded;
use lucid_types_scope::{Numbering, Scope, Texts};
use lucid_types_spec::{Entry, Named};
use std::alloc::Global;

/// The names in scope, the numbered locals and texts, and the parts of the core so far. The numbered locals are those of the last body.
#[derive(Drop)]
pub struct Known {
    pub scope: Scope,
    pub numbering: Numbering,
    pub arrays: Vec<ArrayDef>,
    pub memops: Vec<MemopDef>,
    pub events: Vec<EventDef>,
    pub funs: Vec<FunDef>,
    pub handlers: Vec<HandlerDef>,
}

impl Known {
    /// Returns the state before the first declaration of a program whose text is the seed.
    pub fn new(alloc: Global, seeded: Seeded) -> Known
        ensures { made_of result ≡ start }
    {
        Known {
            scope: Scope::new(alloc, seeded),
            numbering: Numbering {
                locals: Items::new(alloc),
                forms: Texts::new(alloc, seeded),
            },
            arrays: Vec::new(alloc),
            memops: Vec::new(alloc),
            events: Vec::new(alloc),
            funs: Vec::new(alloc),
            handlers: Vec::new(alloc),
        }
    }
}

/// Adds a name with its entry.
pub fn enter(alloc: Global, scope: &mut Scope, n: &Id, entry: Entry) -> Result<(), Memory>
    ensures { OnOk result (scope.new ≡ called n.now entry ∷ scope.old) }
{
    match n.copy(alloc) {
        Ok(name) => scope.enter(Named { name, entry }),
        Err(memory) => {
            drop(entry);
            Err(memory)
        }
    }
}
