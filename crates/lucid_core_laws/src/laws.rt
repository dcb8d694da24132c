// The laws, each on a function that does nothing.
ghost use Rattle.lucid_core_laws.specs.AssigningNodes.{AssigningNodes};
ghost use Rattle.lucid_core_laws.specs.ExprNodes.{ExprNodes};
ghost use Rattle.lucid_core_laws.specs.InlinedNodes.{InlinedNodes};
ghost use Rattle.lucid_core_laws.specs.Programs.{CoreIsValid, FlatIsValid};
ghost use Rattle.lucid_core_laws.specs.StmtNodes.{StmtNodes};

/// An expression, a statement or a block keeps every rule of a valid program if its parts do.
pub fn nodes_keep_the_rules()
    ensures expressions { ExprNodes }
    ensures statements { StmtNodes }
    ensures assigning { AssigningNodes }
    ensures inlined { InlinedNodes }
{}

/// A program whose bodies keep the rules is valid.
pub fn built_programs_are_valid()
    ensures core { CoreIsValid }
    ensures flat { FlatIsValid }
{}
