// Arrays as a program declares and names them.
ghost use Rattle.std.specs.Prelude.{◌≡◌, IfOk};

use crate::{Id, Memory, Width};
use std::alloc::Global;

/// A declared array: `size` cells of `width` bits each.
#[derive(Drop)]
pub struct ArrayDef {
    pub name: Id,
    pub width: Width,
    pub size: u32,
}

impl ArrayDef {
    /// Returns a copy of the declaration.
    pub fn copy(&self, alloc: Global) -> Result<ArrayDef, Memory>
        ensures { IfOk result (λ def. def ≡ self.now) }
    {
        Ok(ArrayDef {
            name: self.name.copy(alloc)?,
            width: self.width,
            size: self.size,
        })
    }
}

/// An array that a body names: a declared one, or an array parameter of its function. Both are numbered from 0.
#[derive(Clone, Copy, Debug, PartialEq, Eq)]
pub enum ArrayName {
    Global(u32),
    Param(u32),
}
