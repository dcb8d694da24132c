// Refusals of a table to remember. Their truth is a ghost fact of the type, so no loop carries it.
ghost use Rattle.std.specs.Prelude.{◌≡◌};
ghost use Rattle.std.specs.List.{All};
ghost use Rattle.lucid_refusals.specs.Refusal.{Refuses, fields_of, literals_of};

use lucid_base::Items;
use lucid_code::Literal;

/// A table of these patterns, which name these fields and literals, has more than `rows` rows with any rows of one of the shapes. A shape
/// is a list of patterns.
#[derive(Drop)]
pub(crate) struct Refusals {
    pub(crate) rows: usize,
    pub(crate) patterns: Items<Items<Literal>>,
    pub(crate) fields: Items<u32>,
    pub(crate) literals: Items<Literal>,
    pub(crate) shapes: Items<Items<Items<Literal>>>,
    ghost named: { fields ≡ fields_of patterns },
    ghost listed: { literals ≡ literals_of patterns },
    ghost refuses: { All (Refuses rows patterns) shapes },
}
