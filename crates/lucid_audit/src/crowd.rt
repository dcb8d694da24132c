// The number of nodes in a stage that call an array.
ghost use Rattle.std.specs.Prelude.{◌≡◌, ◌<◌, ◌≤◌, ◌^◌, ℕ, None, length, IfSome};
ghost use Rattle.lucid_audit.specs.Audit as spec;
ghost use Rattle.lucid_audit.specs.Refused.{FirstFull};

use lucid_conf::Limits;
use lucid_stages::Seat;

/// Counts those in stage `k`.
pub(crate) fn arrays_at(seats: &[Seat], k: u32) -> u32
    requires { length seats.now < 2 ^ 32 }
    ensures { result ≡ spec.arrays_at k seats.now }
{
    let mut count = 0u32;
    for seat in seats {
        if seat.at.stage == k && seat.node.is_array {
            count += 1;
        }
    }
    count
}

/// Returns the first stage that has too many.
pub(crate) fn first_full(seats: &[Seat], limits: &Limits) -> Option<u32>
    requires { length seats.now < 2 ^ 32 }
    ensures none { result ≡ None → (k : ℕ) → k < limits.now.stages → spec.arrays_at k seats.now ≤ limits.now.arrays }
    ensures some { IfSome result (FirstFull limits.now seats.now) }
{
    for k in 0..limits.stages {
        if arrays_at(seats, k) > limits.arrays {
            return Some(k);
        }
    }
    None
}
