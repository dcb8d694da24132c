// Examples of schemes: computed from the definitions, so nothing runs.
ghost use Rattle.lucid_effects_spec.specs.SchemeExamples.{SchemeExamples};

fn schemes_are_as_worked_by_hand()
    ensures { SchemeExamples }
{}
