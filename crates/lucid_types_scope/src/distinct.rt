// Whether numbers are distinct: those of the cases of a `match`, and the members of a group.
ghost use Rattle.std.specs.Int.{to_le_bytes, w64};
ghost use Rattle.std.specs.Prelude.{◌≡◌, IfOk, map};
ghost use Rattle.lucid_base.specs.Numbers.{all_differ};
ghost use Rattle.lucid_seed.specs.Started.{seeded_by as started_by};

use lucid_base::Memory;
use lucid_seed::{Seed, Seeded};
use std::alloc::Global;
use std::collections::HashSet;

// Makes the hashers of a table of these numbers.
fn seeded_by(numbers: &[u64]) -> Seeded
    ensures { result.start ≡ started_by (map (to_le_bytes w64) numbers.now) }
{
    let mut seed = Seed::new();
    for number in numbers {
        seed.add(&number.to_le_bytes());
    }
    seed.hashers()
}

/// Returns whether no number occurs twice. The numbers are the seed of their table, so colliding ones can't be chosen beforehand.
#[tactic(auto, using(crate::proofs::Apart::one_more, crate::proofs::Apart::twice, crate::proofs::Apart::first_of))]
pub fn are_distinct(alloc: Global, numbers: &[u64]) -> Result<bool, Memory>
    ensures { IfOk result (λ distinct. distinct ≡ all_differ numbers.now) }
{
    // The numbers from the last back to this place.
    let mut seen: HashSet<u64, Seeded> = HashSet::with_hasher(alloc, seeded_by(numbers));
    let mut left = numbers.len();
    'numbers: while left > 0 {
        left -= 1;
        if !seen.insert(numbers[left])? {
            return Ok(false);
        }
    }
    Ok(true)
}
