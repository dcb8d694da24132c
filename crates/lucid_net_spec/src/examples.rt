// Networks that are worked by hand: computed from the definitions, so nothing runs.
ghost use Rattle.lucid_net_spec.specs.Examples.{NetworkExamples};

fn the_log_is_what_is_worked_by_hand()
    ensures { NetworkExamples }
{}
