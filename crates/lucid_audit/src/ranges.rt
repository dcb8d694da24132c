// Whether the places of nodes are there.
ghost use Rattle.std.specs.Prelude.{◌≡◌, ◌<◌, ◌^◌, None, length, true, false, IfSome};
ghost use Rattle.std.specs.List.{AllByRecursion};
ghost use Rattle.lucid_audit.specs.Audit.{IsThere};
ghost use Rattle.lucid_audit.specs.Refused.{FirstNot};

use lucid_conf::Limits;
use lucid_stages::{Pair, Seat};

/// Returns whether the target has such a stage and such a table.
fn is_there(at: Pair, limits: &Limits) -> bool
    ensures there { result ≡ true → IsThere limits.now at }
    ensures absent { result ≡ false → IsThere limits.now at → ⊥ }
{
    at.stage < limits.stages && at.table < limits.tables
}

/// Returns the first node whose place isn't there.
pub(crate) fn first_absent(seats: &[Seat], limits: &Limits) -> Option<u32>
    requires { length seats.now < 2 ^ 32 }
    ensures none { result ≡ None → AllByRecursion (λ s. IsThere limits.now s.at) seats.now }
    ensures some { IfSome result (FirstNot (λ s. IsThere limits.now s.at) seats.now) }
{
    for (at, seat) in seats.iter().enumerate() {
        if !is_there(seat.at, limits) {
            return Some(at as u32);
        }
    }
    None
}
