// Examples of passes, computed from the definitions, so nothing runs.
ghost use Rattle.lucid_pass_more_spec.specs.Examples.{MoreExamples};

fn more_passes_do_what_is_worked_by_hand()
    ensures { MoreExamples }
{}
