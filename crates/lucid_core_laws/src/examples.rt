// lucid_core's small programs, built node by node: so the laws ask for nothing that no program has.
ghost use Rattle.std.specs.Prelude.{[], ◌∷◌, true, false};
ghost use Rattle.lucid_core.specs.ExamplePrograms.{small, flat, bump_put_in, drop_value};
ghost use Rattle.lucid_core_laws.specs.Programs.{IsBuilt};

fn programs_are_built_node_by_node()
    ensures core { IsBuilt false small }
    ensures flat_core { IsBuilt true (flat (drop_value bump_put_in ∷ [])) }
{}
