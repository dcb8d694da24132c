// Examples of the flat form and of its counts: computed from the definitions, so nothing runs.
ghost use Rattle.lucid_inline_spec.specs.Examples.{CountExamples, FlatExamples};

fn flat_forms_are_as_worked_by_hand()
    ensures { FlatExamples }
{}

fn counts_are_as_worked_by_hand()
    ensures { CountExamples }
{}
