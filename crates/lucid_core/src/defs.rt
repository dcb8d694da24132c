// The declarations of a program besides its arrays.
ghost use Rattle.std.specs.Prelude.{◌≡◌, IfOk};

use crate::Stmt;
use crate::dismantle::dismantle;
use lucid_base::{Id, Items, MemAlu, Memory, Width};
use std::alloc::Global;

/// A memop of the source.
#[derive(Drop)]
pub struct MemopDef {
    pub name: Id,
    pub alu: MemAlu,
}

impl MemopDef {
    /// Returns a copy of the declaration.
    pub fn copy(&self, alloc: Global) -> Result<MemopDef, Memory>
        ensures { IfOk result (λ copy. copy ≡ self.now) }
    {
        let name = self.name.copy(alloc)?;
        Ok(MemopDef {
            name,
            alu: self.alu,
        })
    }
}

/// An event: the widths of its parameters, and the number of its handler, if it has one.
#[derive(Drop)]
pub struct EventDef {
    pub name: Id,
    pub params: Items<Width>,
    pub handler: Option<u32>,
}

impl EventDef {
    /// Returns a copy of the declaration.
    pub fn copy(&self, alloc: Global) -> Result<EventDef, Memory>
        ensures { IfOk result (λ copy. copy ≡ self.now) }
    {
        let name = self.name.copy(alloc)?;
        let params = Items::from_slice(alloc, self.params.as_slice())?;
        Ok(EventDef {
            name,
            params,
            handler: self.handler,
        })
    }
}

/// A function: the cell widths of its array parameters, the widths of its locals, and the width of its value, if it gives one. The first
/// `params` locals are its value parameters. It is declaration `decl` of the program, from 1, and begins on line `line`, from 1.
pub struct FunDef {
    pub name: Id,
    pub arrays: Items<Width>,
    pub params: u32,
    pub locals: Items<Width>,
    pub answer: Option<Width>,
    pub body: Items<Stmt>,
    pub decl: u32,
    pub line: u32,
}

impl Drop for FunDef {
    fn drop(self) {
        let FunDef {
            name: _,
            arrays: _,
            params: _,
            locals: _,
            answer: _,
            body,
            decl: _,
            line: _,
        } = self;
        dismantle(body);
    }
}

/// A handler of an event: the widths of its locals, of which the first are the event's parameters.
/// It is declaration `decl` of the program, from 1, and begins on line `line`, from 1.
pub struct HandlerDef {
    pub event: u32,
    pub locals: Items<Width>,
    pub body: Items<Stmt>,
    pub decl: u32,
    pub line: u32,
}

impl Drop for HandlerDef {
    fn drop(self) {
        let HandlerDef {
            event: _,
            locals: _,
            body,
            decl: _,
            line: _,
        } = self;
        dismantle(body);
    }
}
