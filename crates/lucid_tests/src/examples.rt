// Examples of valid programs, and of programs that each rule refuses: computed from the definitions, so nothing runs.
ghost use Rattle.std.specs.Prelude.{[], ◌∷◌};
ghost use Rattle.lucid_core.specs.ExamplePrograms.{small, flat, bump_put_in, drop_value};
ghost use Rattle.lucid_tests.specs.Refused.{RulesRefuse, flat_with, nested, group_put_in};
ghost use Rattle.lucid_tests.specs.FormExamples.{formed};
ghost use Rattle.lucid_tests.specs.StepExamples.{worked, StepExamples};
ghost use Rattle.lucid_core.specs.Parts.{made_of};
ghost use Rattle.lucid_core.specs.Valid.{IsValid, IsValidFlat};

fn a_program_and_a_flat_program_are_valid()
    ensures core { IsValid small }
    ensures worked { IsValid worked }
    ensures formed { IsValid formed }
    ensures flat_core { IsValidFlat (flat (drop_value bump_put_in ∷ [])) }
    ensures nested { IsValidFlat (flat_with 1 nested) }
    ensures group { IsValidFlat (flat group_put_in) }
    ensures empty { IsValidFlat (made_of [] [] [] [] [] []) }
{}

fn each_rule_refuses_what_breaks_it()
    ensures { RulesRefuse }
{}

fn the_step_gives_what_is_worked_by_hand()
    ensures { StepExamples }
{}
