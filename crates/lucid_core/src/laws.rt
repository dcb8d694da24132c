// Laws of the meaning that several crates cite, each on a function that does nothing. They hold for all cells, ticks, switches and
// events.
ghost use Rattle.lucid_core.specs.Laws.{CellsStayFit, OneHandler, OutsAreOfSteps, OutsFit, WidthsAreStatic};

use crate::{Core, Flat};

/// The outs of an event's handler fit the core. Each generated event is declared, with as many arguments as parameters and each within
/// its width. The text of each print exists and has a `%d` for each of its numbers. There are at most 8 outs, of at most 8 numbers each.
/// This holds for every event, also one that does not fit, and for all cells.
pub fn outs_fit(core: &Core)
    ensures { OutsFit core.now }
{
    let _valid = core.arrays();
}

/// The law `outs_fit` for a flat core.
pub fn flat_outs_fit(flat: &Flat)
    ensures { OutsFit flat.now }
{
    let _valid = flat.arrays();
}

/// Cells fit the core if there are as many as declared, each within its width. Cells that fit still fit after every step, and so after any
/// events from cells that are all 0.
pub fn cells_stay_fit(core: &Core)
    ensures { CellsStayFit core.now }
{
    let _valid = core.arrays();
}

/// The law `cells_stay_fit` for a flat core.
pub fn flat_cells_stay_fit(flat: &Flat)
    ensures { CellsStayFit flat.now }
{
    let _valid = flat.arrays();
}

/// The outs of event `j` are those at position `j` of `steps`, or none if there is no such position.
pub fn outs_are_of_steps(core: &Core)
    ensures { OutsAreOfSteps core.now }
{}

/// The width that the typing rules give an expression is the width of its value. The same holds for a function's answer.
pub fn widths_are_static(core: &Core)
    ensures { WidthsAreStatic core.now }
{
    let _valid = core.arrays();
}

/// The law `widths_are_static` for a flat core, in which all bodies are handlers.
pub fn flat_widths_are_static(flat: &Flat)
    ensures { WidthsAreStatic flat.now }
{
    let _valid = flat.arrays();
}

/// An event has one handler, and a handler is that of its event.
pub fn one_handler(core: &Core)
    ensures { OneHandler core.now }
{
    let _valid = core.arrays();
}

/// The law `one_handler` for a flat core.
pub fn flat_one_handler(flat: &Flat)
    ensures { OneHandler flat.now }
{
    let _valid = flat.arrays();
}
