// Examples of passes, computed from the definitions, so nothing runs.
ghost use Rattle.lucid_pass_spec.specs.Examples.{PassExamples};

fn passes_do_what_is_worked_by_hand()
    ensures { PassExamples }
{}
