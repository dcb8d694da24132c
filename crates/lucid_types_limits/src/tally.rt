// The counts of a part of a body.
ghost use Rattle.std.specs.Prelude.{◌≡◌, ◌+◌, ◌&&◌, ℕ, Bool, true, max, nat_le};
ghost use Rattle.lucid_types_limits.specs.Tally.{tally};

/// The greatest number of outs on a path, which stops at the last `u64`, and whether no hash and no print has too many arguments.
#[derive(Clone, Copy)]
pub struct Tally {
    pub outs: u64,
    pub few: bool,
}

/// Returns the tally of a part with this many outs and no arguments.
#[tactic(auto, unfolding(crate::specs::Tally::tally))]
pub fn outs(outs: u64) -> Tally
    ensures { result ≡ tally outs true }
{
    Tally { outs, few: true }
}

impl Tally {
    /// One part and then another.
    #[tactic(auto, unfolding(crate::specs::Tally::tally))]
    pub fn and(self, next: Tally) -> Tally
        ensures { (m n : ℕ) (a b : Bool) → self ≡ tally m a → next ≡ tally n b → result ≡ tally (m + n) (a && b) }
    {
        Tally {
            outs: self.outs.saturating_add(next.outs),
            few: self.few && next.few,
        }
    }

    /// One part or another.
    #[tactic(auto, unfolding(crate::specs::Tally::tally))]
    pub fn or(self, other: Tally) -> Tally
        ensures { (m n : ℕ) (a b : Bool) → self ≡ tally m a → other ≡ tally n b → result ≡ tally (max m n) (a && b) }
    {
        Tally {
            outs: if self.outs < other.outs {
                other.outs
            } else {
                self.outs
            },
            few: self.few && other.few,
        }
    }

    /// Returns the tally of a call's parts, with `args` arguments of at most `most`.
    #[tactic(auto, unfolding(crate::specs::Tally::tally))]
    pub fn at_most(self, args: usize, most: usize) -> Tally
        ensures { (m : ℕ) (a : Bool) → self ≡ tally m a → result ≡ tally m (nat_le args most && a) }
    {
        Tally {
            outs: self.outs,
            few: args <= most && self.few,
        }
    }
}
