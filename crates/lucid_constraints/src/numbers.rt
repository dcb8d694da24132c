// Numbers that are tried before any search: where they rise along all that must come first, there is no cycle. Most orders have such
// numbers, and few rounds along the pairs find them.
ghost use Rattle.std.specs.Prelude.{◌≡◌, ◌-◌, true, replicate};
ghost use Rattle.lucid_constraints.specs.Cycle.{HasNumbering, Needed};
ghost use Rattle.lucid_constraints.specs.Means.{allow_all, allows};
ghost use Rattle.lucid_constraints.specs.Numbers.{number_of, lifted, lifted_by, lifted_along, lifted_to, rise_to, rise as are_rising, settle as is_settled};

use crate::marks::name_number;
use crate::pair::{Atom, Pair};
use lucid_base::ArrayName;

/// The names that have a place: 8 array parameters and 64 declared arrays.
const NAMES: usize = 72;

/// The rounds after which each name is above all that precede it, if there is such a numbering.
const ROUNDS: u32 = 73;

fn number(numbers: &[u64], name: ArrayName) -> u64
    ensures { result ≡ number_of numbers.now name }
{
    match name_number(name) {
        Some(n) => { if n < numbers.len() { numbers[n] } else { 0 } }
        None => 0,
    }
}

/// Moves `y` above `x`, unless it is there.
fn lift(numbers: &mut [u64], x: ArrayName, y: ArrayName)
    ensures { numbers.new ≡ lifted x y numbers.old }
{
    let least = number(numbers, x).saturating_add(1);
    if let Some(n) = name_number(y) {
        if n < numbers.len() {
            numbers[n] = numbers[n].max(least);
        }
    }
}

fn lift_by(numbers: &mut [u64], pair: Pair)
    ensures { numbers.new ≡ lifted_by pair.atom pair.array numbers.old }
{
    match pair.atom {
        Atom::Start => {}
        Atom::After(x) => lift(numbers, x, pair.array),
    }
}

fn lift_along(numbers: &mut [u64], pairs: &[Pair])
    ensures { numbers.new ≡ lifted_along numbers.old pairs.now }
{
    for pair in pairs {
        lift_by(numbers, *pair);
    }
}

fn lift_declared(numbers: &mut [u64], arrays: u32)
    ensures { numbers.new ≡ lifted_to (arrays - 1) numbers.old }
{
    for a in 0..arrays.saturating_sub(1) {
        lift(numbers, ArrayName::Global(a), ArrayName::Global(a + 1));
    }
}

fn is_allowed(numbers: &[u64], pair: Pair) -> bool
    ensures { result ≡ allows (number_of numbers.now) 0 pair }
{
    match pair.atom {
        Atom::Start => true,
        Atom::After(x) => number(numbers, x) < number(numbers, pair.array),
    }
}

fn rise_along(numbers: &[u64], pairs: &[Pair]) -> bool
    ensures { result ≡ allow_all (number_of numbers.now) 0 pairs.now }
{
    for pair in pairs {
        if !is_allowed(numbers, *pair) {
            return false;
        }
    }
    true
}

#[tactic(auto, using(crate::proofs::SettleLemmas::rise_to_next))]
fn rise_declared(numbers: &[u64], arrays: u32) -> bool
    ensures { result ≡ rise_to numbers.now (arrays - 1) }
{
    let mut all = true;
    for a in 0..arrays.saturating_sub(1) {
        all &= number(numbers, ArrayName::Global(a)) < number(numbers, ArrayName::Global(a + 1));
    }
    all
}

fn rise(numbers: &[u64], pairs: &[Pair], arrays: u32) -> bool
    ensures { result ≡ are_rising numbers.now pairs.now arrays }
{
    rise_along(numbers, pairs) && rise_declared(numbers, arrays)
}

/// Lifts the numbers until they rise along all constraints, or for this many rounds. Returns whether they rise.
#[tactic(auto, using(crate::proofs::SettleLemmas::settle_now, crate::proofs::SettleLemmas::settle_later, crate::proofs::SettleLemmas::settle_never))]
fn lift_until_they_rise(numbers: &mut [u64], rounds: u32, pairs: &[Pair], arrays: u32) -> bool
    ensures { result ≡ is_settled rounds pairs.now arrays numbers.old }
{
    for _turn in 0..rounds {
        if rise(numbers, pairs, arrays) {
            return true;
        }
        lift_along(numbers, pairs);
        lift_declared(numbers, arrays);
    }
    false
}

/// Returns whether numbers that rise along all that must come first are found in a few rounds. The work is in proportion to the pairs and
/// arrays, 73 times at most.
#[tactic(auto, using(crate::proofs::SettleLemmas::settled_rises))]
pub fn settle(pairs: &[Pair], arrays: u32) -> bool
    ensures rounds { result ≡ is_settled 73 pairs.now arrays (replicate 72 0) }
    ensures rises { result ≡ true → HasNumbering (Needed arrays pairs.now) }
{
    lift_until_they_rise(&mut [0u64; NAMES], ROUNDS, pairs, arrays)
}
