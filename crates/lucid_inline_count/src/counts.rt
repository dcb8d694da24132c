// Two counts that are found together.
ghost use Rattle.std.specs.Prelude.{◌≡◌};
ghost use Rattle.lucid_inline_count.specs.Counts.{counted, plus};

/// How many ops a part becomes in the normal form, and how many statements and calls in the flat form. Both stop at the last `u64`.
#[derive(Clone, Copy)]
pub struct Counts {
    pub length: u64,
    pub size: u64,
}

impl Counts {
    /// Adds the counts of a part that follows.
    pub fn and(self, more: Counts) -> Counts
        ensures { result ≡ plus self more }
    {
        Counts {
            length: self.length.saturating_add(more.length),
            size: self.size.saturating_add(more.size),
        }
    }
}

pub fn count(length: u64, size: u64) -> Counts
    ensures { result ≡ counted length size }
{
    Counts { length, size }
}
