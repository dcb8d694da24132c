// Examples of the normal form: computed from the definitions, so nothing runs.
ghost use Rattle.lucid_normal_spec.specs.Examples.{BranchExamples, FormExamples, ProgramExamples};

fn forms_become_what_is_worked_by_hand()
    ensures { FormExamples }
{}

fn branches_become_what_is_worked_by_hand()
    ensures { BranchExamples }
{}

fn programs_become_what_is_worked_by_hand()
    ensures { ProgramExamples }
{}
