// The kept rows in chunks of 8. A pair that lacks a bit which all signatures of a chunk have includes none of its rows.
ghost use Rattle.std.specs.Prelude.{◌≡◌, ◌+◌, ◌≤◌, length, slice_index, OnErr, OnOk};
ghost use Rattle.std.specs.List.{list_any};
ghost use Rattle.lucid_merge.specs.Chunks.{AreCommon, between, chunk, with_common};
ghost use Rattle.lucid_merge.specs.Signs.{AreHeard, covers};

use crate::kept::{Signed, has_bits, is_covered};
use lucid_base::{Memory, Steps};
use lucid_code::Literal;
use std::sync::ledger::Ledger;

/// Returns the bits that the rows of a chunk have in common.
fn common_of(commons: &[u64], number: usize) -> u64
    ensures { result ≡ slice_index commons.now number }
{
    match commons.get(number) {
        None => 0,
        Some(found) => *found,
    }
}

/// Returns the rows of a chunk.
fn chunk(rows: &[Signed], number: usize) -> &[Signed]
    ensures { result.now ≡ chunk number rows.now }
{
    let from = number.saturating_mul(8);
    let (_, behind) = rows.split_at(from.min(rows.len()));
    let (first, _) = behind.split_at(8usize.min(behind.len()));
    first
}

/// Notes the signature of the row with this number in the bits of its chunk.
pub(crate) fn note_common(commons: &mut Vec<u64>, number: usize, sign: u64) -> Result<(), Memory>
    ensures ok { OnOk result (commons.new.items ≡ with_common commons.old.items number sign) }
    ensures err { OnErr result (commons.new.items ≡ commons.old.items) }
{
    let place = number / 8;
    if place < commons.len() {
        commons[place] &= sign;
        return Ok(());
    }
    if number % 8 == 0 && place == commons.len() {
        commons.push(sign)?;
    }
    Ok(())
}

/// Returns whether two patterns together include that of a row of a chunk. A chunk whose common bits rule all its rows out takes no step.
fn is_covered_in<L: Ledger>(
    p: &[Literal],
    q: &[Literal],
    sign: u64,
    rows: &[Signed],
    commons: &[u64],
    number: usize,
    steps: &mut Steps<L>,
) -> bool
    requires heard { AreHeard p.now q.now sign rows.now }
    requires common { AreCommon commons.now rows.now }
    ensures value { result ≡ list_any (covers p.now q.now) (chunk number rows.now) }
    ensures steps { steps.new ≤ steps.old + length (chunk number rows.now) }
{
    if !has_bits(sign, common_of(commons, number)) {
        return false;
    }
    let own = chunk(rows, number);
    is_covered(p, q, sign, own, steps)
}

/// The same for the rows of the chunks from one number on, before another.
fn is_covered_between<L: Ledger>(
    p: &[Literal],
    q: &[Literal],
    sign: u64,
    rows: &[Signed],
    commons: &[u64],
    from: usize,
    to: usize,
    steps: &mut Steps<L>,
) -> bool
    requires heard { AreHeard p.now q.now sign rows.now }
    requires common { AreCommon commons.now rows.now }
    ensures value { result ≡ list_any (covers p.now q.now) (between from to rows.now) }
    ensures steps { steps.new ≤ steps.old + length (between from to rows.now) }
{
    for number in from..to {
        if is_covered_in(p, q, sign, rows, commons, number, steps) {
            return true;
        }
    }
    false
}

/// The same for all rows. The last chunk is asked first, since a row of the same pattern is often among the latest.
pub(crate) fn is_covered_by_any<L: Ledger>(
    p: &[Literal],
    q: &[Literal],
    sign: u64,
    rows: &[Signed],
    commons: &[u64],
    steps: &mut Steps<L>,
) -> bool
    requires heard { AreHeard p.now q.now sign rows.now }
    requires common { AreCommon commons.now rows.now }
    ensures value { result ≡ list_any (covers p.now q.now) rows.now }
    ensures steps { steps.new ≤ steps.old + length rows.now }
{
    let from = rows.len().saturating_sub(1) / 8;
    let to = rows.len() / 8 + 1;
    is_covered_between(p, q, sign, rows, commons, from, to, steps)
        || is_covered_between(p, q, sign, rows, commons, 0, from, steps)
}
