// Laws over the rules, on functions that do nothing.
ghost use Rattle.lucid_types_spec.specs.Found.{Determines, FindsFirst};

/// For any function that computes the rules of declarations, checking a tree one declaration after another finds its one core, or its one
/// refusal, with declaration, line and limit.
pub fn the_first_refusal_is_found()
    ensures found { FindsFirst }
    ensures determined { Determines }
{}
