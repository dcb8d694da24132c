// Examples of the order: computed from the definitions, so nothing runs.
ghost use Rattle.lucid_effects_spec.specs.Examples.{OrderExamples, PathExamples, ProgramExamples};

fn bodies_are_in_order_or_not()
    ensures { OrderExamples }
{}

fn paths_are_as_worked_by_hand()
    ensures { PathExamples }
{}

fn programs_are_accepted_or_refused()
    ensures { ProgramExamples }
{}
