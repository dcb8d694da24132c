// The law, on a function that does nothing.
ghost use Rattle.lucid_types_laws.specs.ValidLaws.{TypedIsValid};

/// The core of a tree that is typed is valid.
pub fn typed_programs_are_valid()
    ensures { TypedIsValid }
{}
