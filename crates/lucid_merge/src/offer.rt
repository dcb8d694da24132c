// Pairs of rows, made and kept as long as there are not too many.
ghost use Rattle.std.specs.Prelude.{◌≡◌, ◌+◌, ◌*◌, ◌≤◌, ◌++◌, [], ◌∷◌, length, map, IfOk};
ghost use Rattle.lucid_merge.specs.Product.{default, pair, pairs_with, keep, kept_of};
ghost use Rattle.lucid_merge.specs.Offers.{Offered};
ghost use Rattle.lucid_merge.specs.Standing.{rows_at};

use crate::kept::Kept;
use crate::pairing::pair;
use crate::partners::Partners;
use lucid_base::{Memory, Steps};
use lucid_tables::Row;
use std::alloc::Global;
use std::sync::ledger::Ledger;

/// Makes a pair of two rows that do not clash, if it must be kept. Returns whether there are still at most `rows`.
fn offer<L: Ledger>(
    alloc: Global,
    kept: &mut Kept,
    a: &Row,
    b: &Row,
    most: usize,
    steps: &mut Steps<L>,
) -> Result<bool, Memory>
    ensures offered { IfOk result (λ r. Offered most kept.new (keep kept.old (pair a.now b.now)) r) }
    ensures steps { steps.new ≤ steps.old + length kept.old }
{
    let p = a.pattern.as_slice();
    let q = b.pattern.as_slice();
    if !kept.cover(p, q, steps) {
        kept.push(pair(alloc, a, b)?)?;
    }
    Ok(kept.len() <= most)
}

/// Pairs a row with the one at a position.
fn offer_at<L: Ledger>(
    alloc: Global,
    kept: &mut Kept,
    a: &Row,
    rows: &[Row],
    place: usize,
    most: usize,
    steps: &mut Steps<L>,
) -> Result<bool, Memory>
    requires { length kept.old ≤ most }
    ensures offered { IfOk result (λ r. Offered most kept.new (kept_of kept.old (map (pair a.now) (rows_at rows.now (place ∷ [])))) r) }
    ensures steps { steps.new ≤ steps.old + length kept.old }
{
    match rows.get(place) {
        None => Ok(true),
        Some(b) => offer(alloc, kept, a, b, most, steps),
    }
}

/// Pairs a row with each of those at the positions, in their order, and stops as soon as there are too many.
fn offer_places<L: Ledger>(
    alloc: Global,
    kept: &mut Kept,
    a: &Row,
    rows: &[Row],
    places: &[usize],
    most: usize,
    steps: &mut Steps<L>,
) -> Result<bool, Memory>
    requires { length kept.old ≤ most }
    ensures offered { IfOk result (λ r. Offered most kept.new (kept_of kept.old (map (pair a.now) (rows_at rows.now places.now))) r) }
    ensures steps { steps.new ≤ steps.old + length places.now * most }
{
    for place in places {
        if !offer_at(alloc, kept, a, rows, *place, most, steps)? {
            return Ok(false);
        }
    }
    Ok(true)
}

/// Pairs a row with each of its partners, and stops as soon as there are too many.
pub(crate) fn offer_each<L: Ledger>(
    alloc: Global,
    kept: &mut Kept,
    a: &Row,
    partners: &Partners,
    most: usize,
    steps: &mut Steps<L>,
) -> Result<bool, Memory>
    requires { length kept.old ≤ most }
    ensures offered { IfOk result (λ r. Offered most kept.new (kept_of kept.old (pairs_with a.now partners.now)) r) }
    ensures steps { steps.new ≤ steps.old + length partners.now * (most + 1) }
{
    match partners.of(alloc, a, steps)? {
        None => Ok(true),
        Some(places) => {
            let rows = partners.rows();
            offer_places(alloc, kept, a, rows, places.as_slice(), most, steps)
        }
    }
}

/// Pairs a row with each of its partners and with their default, and stops as soon as there are too many.
pub(crate) fn offer_all<L: Ledger>(
    alloc: Global,
    kept: &mut Kept,
    a: &Row,
    partners: &Partners,
    last: &Row,
    most: usize,
    steps: &mut Steps<L>,
) -> Result<bool, Memory>
    requires few { length kept.old ≤ most }
    requires last { last.now ≡ default }
    ensures offered { IfOk result (λ r. Offered most kept.new (kept_of kept.old (pairs_with a.now (partners.now ++ default ∷ []))) r) }
    ensures steps { steps.new ≤ steps.old + (length partners.now + 1) * (most + 1) }
{
    match partners.of(alloc, a, steps)? {
        None => Ok(true),
        Some(places) => {
            let rows = partners.rows();
            let offered = offer_places(alloc, kept, a, rows, places.as_slice(), most, steps);
            drop(places);
            if !offered? {
                return Ok(false);
            }
            offer(alloc, kept, a, last, most, steps)
        }
    }
}
