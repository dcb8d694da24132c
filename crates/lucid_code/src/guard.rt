// Guards: the literals under which operations act. The operations of a branch share one list of literals, so that it takes memory once.
ghost use Rattle.std.specs.Prelude.{◌≡◌, IfOk};

use crate::Literal;
use lucid_base::{Items, Memory};
use std::alloc::Global;
use std::marker::Model;
use std::rc::Rc;

/// A guard: all its literals hold where its operation acts, the outermost first. Contracts see it as the list of its literals.
#[derive(Drop)]
pub struct Guard {
    literals: Rc<Items<Literal>>,
}

impl Model for Guard {
    ghost use Rattle.std.specs.Prelude.{List};
    ghost use Rattle.lucid_code.specs.declared.op.Literal.{Literal};

    ghost Value = { List Literal };

    ghost view = { λ g. g.literals.value };
}

impl Guard {
    /// Returns the guard of these literals. Memory is its one error.
    pub fn new(alloc: Global, literals: Items<Literal>) -> Result<Guard, Memory>
        ensures { IfOk result (λ guard. guard ≡ literals) }
    {
        Ok(Guard {
            literals: Rc::new(alloc, literals)?,
        })
    }

    /// Returns the guard of a copy of these literals. Memory is its one error.
    pub fn from_slice(alloc: Global, literals: &[Literal]) -> Result<Guard, Memory>
        ensures { IfOk result (λ guard. guard ≡ literals.now) }
    {
        Guard::new(alloc, Items::from_slice(alloc, literals)?)
    }

    /// Returns this guard again, without a copy of its literals. Memory is its one error: a count of the users that is full.
    pub fn share(&self) -> Result<Guard, Memory>
        ensures { IfOk result (λ guard. guard ≡ self.now) }
    {
        Ok(Guard {
            literals: self.literals.clone()?,
        })
    }

    /// Returns the literals, the outermost first.
    pub fn as_slice(&self) -> &[Literal]
        ensures { result.now ≡ self.now }
    {
        self.literals.as_ref().as_slice()
    }
}
