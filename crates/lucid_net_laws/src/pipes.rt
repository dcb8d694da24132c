// The effect of a pass, as a law on a function that does nothing.
ghost use Rattle.lucid_net_laws.specs.Does.{PassDoesAs, PassStepsAs, TakesAll};

use lucid_core::{Core, cells_stay_fit};
use lucid_pipe::moves_as_rows;
use lucid_tables::Placed;

/// Take placed code that represents a program and has its arrays. A pass through its stages, each on its own cells, has the effect of the
/// program's step (`PassStepsAs`), at the ticks and switches of any network of the program (`PassDoesAs`). Each event that fits the program
/// may enter (`TakesAll`).
pub fn pass_does_as(core: &Core, placed: &Placed)
    ensures steps { PassStepsAs core.now placed.now }
    ensures does { PassDoesAs core.now placed.now }
    ensures takes { TakesAll core.now placed.now }
{
    cells_stay_fit(core);
    moves_as_rows(placed);
    let _code = placed.code();
}
