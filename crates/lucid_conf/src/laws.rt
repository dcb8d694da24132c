// Laws of the tables, each on a function that does nothing.
ghost use Rattle.lucid_conf.specs.Laws.{PlainScenariosStay};

/// A scenario without the keys `version` and `down` is read, or refused, as by the table without them: it is of version 1, has no windows, and
/// nothing else of it turns on the two keys.
pub fn plain_scenarios_stay()
    ensures { PlainScenariosStay }
{}
