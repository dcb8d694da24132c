// The laws of first fit. Nothing runs.
ghost use Rattle.lucid_layout_laws.specs.Laws.{FirstFitsAreAccepted, LayoutsAreOne, LayoutsAreThere, ProductsOnTheWayFit, StuckForRoom};

/// Code has a layout within limits, or a cause for none.
pub fn layouts_are_there()
    ensures { LayoutsAreThere }
{}

/// Code has one layout within limits, or one cause for none.
#[tactic(auto, using(crate::proofs::OneFit::layouts_are_one))]
pub fn layouts_are_one()
    ensures { LayoutsAreOne }
{}

/// If nodes follow their reads, a node has no place only if a limit leaves no room for it.
#[tactic(auto, using(crate::proofs::Forward::stuck_for_room))]
pub fn stuck_for_room()
    ensures { StuckForRoom }
{}

/// The places of every first fit keep the rules. If code has a layout, `audit` returns it for the places of its first fit.
#[tactic(auto, using(crate::proofs::FitsAccepted::first_fits_are_accepted))]
pub fn first_fits_are_accepted()
    ensures { FirstFitsAreAccepted }
{}

/// Each product on the way to a node's table has at most as many rows as any table with the node.
pub fn products_on_the_way_fit()
    ensures { ProductsOnTheWayFit }
{}
