// Texts of layouts that are worked by hand, computed from the definitions, so nothing runs.
ghost use Rattle.lucid_layout_text.specs.Examples.{TextExamples};

#[tactic(auto, using(crate::proofs::TextExamples::text_examples))]
fn layouts_are_told_as_worked_by_hand()
    ensures { TextExamples }
{}
