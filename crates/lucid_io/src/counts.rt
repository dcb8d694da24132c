// Counts that stop at the last u64: of faults, and of the calls that a fake numbers.
ghost use Rattle.std.specs.Prelude.{◌≡◌, ℕ, ◌-◌, ◌^◌, ◌<◌, ◌≤◌};
ghost use Rattle.lucid_io.specs.Counts.{raised, is_failing, Rose};

// Adds one; at the last u64 a count stops.
pub(crate) fn raise(count: &mut u64)
    ensures { count.new ≡ raised count.old }
{
    *count = count.saturating_add(1);
}

// Numbers the call that comes now, and says whether it is one that fails.
pub(crate) fn next_fails(fails: &Vec<u64>, calls: &mut u64) -> bool
    ensures fails { result ≡ is_failing fails.now.items calls.old }
    ensures calls { calls.new ≡ raised calls.old }
{
    let fails = fails.contains(calls);
    raise(calls);
    fails
}

/// A count that rose is greater than before, unless it was at the last u64; only there it may rise and be the same.
pub fn rises_are_seen()
    ensures greater { (before now : ℕ) → Rose before now → before < 2 ^ 64 - 1 → before < now }
    ensures still { (n : ℕ) → Rose n n → 2 ^ 64 - 1 ≤ n }
{}
