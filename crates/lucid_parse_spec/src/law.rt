// The law of the grammar.
ghost use Rattle.lucid_parse_spec.specs.Law.{ReadAsSpelled};

/// A declaration is read exactly as it is spelled, for any tokens after it, and has at least one token.
pub fn declarations_are_read_as_spelled()
    ensures { ReadAsSpelled }
{}
