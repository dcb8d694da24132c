// A law about histories: a clause that speaks of all contents that agree with a history is never empty.
ghost use Rattle.std.specs.Prelude.{List};
ghost use Rattle.lucid_io.specs.History.{AgreesWithAll, Heard, NamedOnce, shown};

/// Contents that agree with a history exist, if no name was begun twice: those that the history shows. (Of a name that was begun twice, the
/// machine may have returned two texts.)
pub fn histories_agree()
    ensures { (heard : List Heard) → NamedOnce heard → AgreesWithAll (shown heard) heard }
{}
