// The laws of the typing function. Each is a function that does nothing and ensures it.
ghost use Rattle.lucid_types_laws.specs.Laws.{ComputesBlocks, ComputesDeclarations, ComputesExpressions, DecidesPrograms};

/// The function of expressions computes exactly the cores that the rules derive.
pub fn expressions_are_computed()
    ensures { ComputesExpressions }
{}

/// The function of blocks computes exactly the cores that the rules derive.
pub fn blocks_are_computed()
    ensures { ComputesBlocks }
{}

/// The function of declarations computes exactly the cores that the rules derive.
pub fn declarations_are_computed()
    ensures { ComputesDeclarations }
{}

/// A tree has a core exactly if the rules derive it, and otherwise the first declaration that is refused is reported.
pub fn programs_are_decided()
    ensures { DecidesPrograms }
{}
