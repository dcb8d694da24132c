// Sums over the handlers, and where they pass a bound.
ghost use Rattle.std.specs.Prelude.{◌≡◌, ◌++◌, ◌∷◌, [], List, ℕ, length};
ghost use Rattle.lucid_inline_count.specs.Sums.{IsSum};

/// A sum that stops at the last `u64`, and the first handler at which it passed the bound.
#[derive(Clone, Copy)]
pub struct Sum {
    pub bound: u64,
    pub total: u64,
    pub passed: Option<u32>,
}

impl Sum {
    /// Returns a sum of nothing.
    pub fn new(bound: u64) -> Sum
        ensures bound { result.bound ≡ bound }
        ensures sum { IsSum bound [] result }
    {
        Sum {
            bound,
            total: 0,
            passed: None,
        }
    }

    /// Adds the counts of the next handler.
    pub fn with(self, n: u64, handler: u32) -> Sum
        ensures bound { result.bound ≡ self.bound }
        ensures sum { (ns : List ℕ) → length ns ≡ handler → IsSum self.bound ns self → IsSum self.bound (ns ++ n ∷ []) result }
    {
        let total = self.total.saturating_add(n);
        let passed = match self.passed {
            Some(first) => Some(first),
            None => {
                if self.bound < total {
                    Some(handler)
                } else {
                    None
                }
            }
        };
        Sum {
            bound: self.bound,
            total,
            passed,
        }
    }
}
