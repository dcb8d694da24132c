// The cells that a program begins with.
ghost use Rattle.std.specs.Prelude.{◌≡◌, IfOk, IsTrue};
ghost use Rattle.lucid_base.specs.Cells.{zero_cells};
ghost use Rattle.lucid_core.specs.Fits.{cells_fit};
ghost use Rattle.lucid_core.specs.Parts.{CoreParts};

use crate::{Cells, Core, laws as law};
use lucid_base::Memory;
use std::alloc::Global;

impl Core {
    /// Returns the cells of the program's arrays, all 0, which fit it.
    pub fn cells(&self, alloc: Global) -> Result<Cells, Memory>
        ensures zero { IfOk result (λ cells. cells ≡ zero_cells self.now.arrays) }
        ensures fit { IfOk result (λ cells. IsTrue (cells_fit self.now cells)) }
    {
        law::cells_stay_fit(self);
        Cells::zeros(alloc, self.arrays())
    }
}

/// The constructor `Cells::new`. `Cells` is a type of lucid_base, which knows no programs, so a trait adds it here.
pub trait NewCells {
    /// Whether these are the cells that a program begins with.
    ghost begins: { Self → CoreParts → Type 0 };

    /// Returns the cells that the program begins with, in memory of its own allocator.
    fn new(core: &Core) -> Result<Self, Memory>
        ensures { IfOk result (λ cells. begins cells core.now) };
}

impl NewCells for Cells {
    ghost begins = { λ cells core. (cells ≡ zero_cells core.arrays) × IsTrue (cells_fit core cells) };

    /// Returns the cells of the program's arrays, all 0, which fit it.
    fn new(core: &Core) -> Result<Cells, Memory> {
        core.cells(core.allocator())
    }
}
