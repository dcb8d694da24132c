// The rules on examples worked by hand: a program, forms with their cores and limits, and texts that break one rule each.
ghost use Rattle.lucid_types_spec.specs.Accepted.{HidingNames, PassedLimits, SentEvents, TypedExpressions, TypedMemops, TypedStatements};
ghost use Rattle.lucid_types_spec.specs.Examples.{worked, worked_core};
ghost use Rattle.lucid_types_spec.specs.Makes.{IsTyped};
ghost use Rattle.lucid_types_spec.specs.Refused.{RefusedDeclarations, RefusedExpressions, RefusedStatements};

fn a_program_is_typed()
    ensures { IsTyped worked worked_core }
{}

fn forms_have_their_cores()
    ensures expressions { TypedExpressions }
    ensures statements { TypedStatements }
    ensures memops { TypedMemops }
    ensures names { HidingNames }
    ensures events { SentEvents }
    ensures limits { PassedLimits }
{}

fn what_breaks_a_rule_is_refused()
    ensures expressions { RefusedExpressions }
    ensures statements { RefusedStatements }
    ensures declarations { RefusedDeclarations }
{}
