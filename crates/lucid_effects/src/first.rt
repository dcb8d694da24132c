// The first declaration that isn't in order.
ghost use Rattle.std.specs.Prelude.{◌≡◌};
ghost use Rattle.lucid_effects.specs.First.{comes_first, kept};

use lucid_base::ArrayName;

/// A declaration that isn't in order: its number, and a cycle that leaves its body no derivation.
#[derive(Drop)]
pub struct Refused {
    pub decl: u32,
    pub cycle: Vec<ArrayName>,
}

/// Keeps a declaration that was found to be refused, in place of the one that was the first so far.
pub fn keep(first: &mut Option<Refused>, decl: u32, cycle: Option<Vec<ArrayName>>)
    ensures { first.new ≡ kept first.old decl cycle }
{
    if let Some(cycle) = cycle {
        *first = Some(Refused { decl, cycle });
    }
}

/// Returns whether the declaration would be the first, if it is refused.
pub fn is_earlier(first: &Option<Refused>, decl: u32) -> bool
    ensures { result ≡ comes_first first.now decl }
{
    match first {
        None => true,
        Some(r) => decl < r.decl,
    }
}
