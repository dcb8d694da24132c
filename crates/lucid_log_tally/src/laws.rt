// The part of a network's log that a tally keeps.
ghost use Rattle.lucid_log_tally.specs.Endings.{EndingIsKept, LineHasEnded, NoneHasEnded};

/// A law: of a log that ends with a network's ending, behind whole lines, all of that line is kept but its line feed. Nothing runs.
pub fn ending_is_kept()
    ensures kept { EndingIsKept }
    ensures none { NoneHasEnded }
    ensures ended { LineHasEnded }
{}
