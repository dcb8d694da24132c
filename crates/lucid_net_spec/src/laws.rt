// Laws of the log, proved for every network and any effect of its events. Nothing runs here.
ghost use Rattle.lucid_net_spec.specs.Free.{FileFindsFree, MadeFindsFree, StaysApart};
ghost use Rattle.lucid_net_spec.specs.Laws.{EntersLeast, StaysInOrder, TurnsByNumber};
ghost use Rattle.lucid_net_spec.specs.Ways.{Network};
ghost use Rattle.lucid_net_spec.specs.Windows.{NoWindows};

/// The queue is in order at each turn (`StaysInOrder`), and the least of the ready events enters (`EntersLeast`).
pub fn the_least_enters()
    ensures in_order { (net : Network) → StaysInOrder net }
    ensures least { (net : Network) → EntersLeast net }
{}

/// The turns of all ticks in one row are those of tick after tick and switch after switch (`TurnsByNumber`).
pub fn turns_go_by_number()
    ensures { (net : Network) → TurnsByNumber net }
{}

/// Each event finds its place in the queue free, if it is of the file (`FileFindsFree`) or made by a handler (`MadeFindsFree`). No two in
/// the queue have one switch and one key (`StaysApart`).
pub fn places_are_free()
    ensures file { (net : Network) → FileFindsFree net }
    ensures made { (net : Network) → MadeFindsFree net }
    ensures apart { (net : Network) → StaysApart net }
{}

/// If a scenario has no windows, an event is lost only if no link leads to its switch (`NoWindows`).
pub fn without_windows_all_links_are_up()
    ensures { NoWindows }
{}
