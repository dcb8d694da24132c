// The order of nodes, worked by hand and computed from the definitions, so nothing runs.
ghost use Rattle.lucid_stages.specs.Examples.{NodeExamples};

#[tactic(auto, using(crate::proofs::ExamplesLemmas::node_examples))]
fn nodes_are_as_worked_by_hand()
    ensures { NodeExamples }
{}
