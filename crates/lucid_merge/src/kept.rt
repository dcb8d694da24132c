// The kept rows of a product, with signatures by which most pairs are known to include none of their patterns.
ghost use Rattle.std.specs.Prelude.{◌≡◌, ◌+◌, ◌≤◌, ◌++◌, [], ◌∷◌, true, length, bit_or, nat_eq, IfOk, OnOk};
ghost use Rattle.std.specs.List.{list_any};
ghost use Rattle.lucid_tables.specs.declared.table.Row.{Row as TableRow};
ghost use Rattle.lucid_merge.specs.Product.{includes, union};
ghost use Rattle.lucid_merge.specs.Signs.{AreHeard, covers, is_heard, rows_of};

use crate::chunks::{is_covered_by_any, note_common};
use crate::patterns::include_together;
use crate::signs::{bits_for, with_bits};
use lucid_base::{Items, Memory, Steps};
use lucid_code::Literal;
use lucid_tables::Row;
use std::alloc::Global;
use std::marker::Model;
use std::sync::ledger::Ledger;

/// A row, and its signature: the bits of its pattern's literals.
#[derive(Drop)]
pub(crate) struct Signed {
    row: Row,
    sign: u64,
}

/// Rows, which contracts see as their list. A literal has bits, by which most rows that a pattern doesn't include are known at once. Each
/// chunk of rows has the bits that all its rows have.
#[derive(Drop)]
pub(crate) struct Kept {
    rows: Vec<Signed>,
    bits: Vec<u64>,
    commons: Vec<u64>,
}

impl Model for Kept {
    ghost use Rattle.std.specs.Prelude.{List};
    ghost use Rattle.lucid_tables.specs.declared.table.Row.{Row};
    ghost use Rattle.lucid_merge.specs.Chunks.{AreCommon};
    ghost use Rattle.lucid_merge.specs.Signs.{AreSigned, rows_of};

    ghost Value = { List Row };

    ghost view = { λ k. rows_of k.rows.items };

    ghost invariant = { λ k. AreSigned k.bits.items k.rows.items × AreCommon k.commons.items k.rows.items };
}

/// Returns whether a signature has all bits of another.
pub(crate) fn has_bits(sign: u64, own: u64) -> bool
    ensures { result ≡ nat_eq (bit_or sign own) sign }
{
    (sign | own) == sign
}

/// Returns whether two patterns together include that of a row. Their signature rules most rows out.
fn covers(p: &[Literal], q: &[Literal], sign: u64, row: &Signed) -> bool
    requires { is_heard p.now q.now sign row.now ≡ true }
    ensures { result ≡ covers p.now q.now row.now }
{
    has_bits(sign, row.sign) && include_together(p, q, row.row.pattern.as_slice())
}

/// Returns whether two patterns together include that of one of these rows. It takes a step for each row that it looks at.
pub(crate) fn is_covered<L: Ledger>(
    p: &[Literal],
    q: &[Literal],
    sign: u64,
    rows: &[Signed],
    steps: &mut Steps<L>,
) -> bool
    requires { AreHeard p.now q.now sign rows.now }
    ensures value { result ≡ list_any (covers p.now q.now) rows.now }
    ensures steps { steps.new ≤ steps.old + length rows.now }
{
    for row in rows {
        steps.tick();
        if covers(p, q, sign, row) {
            return true;
        }
    }
    false
}

impl Kept {
    /// No rows, for those of these two tables.
    pub(crate) fn new(alloc: Global, a: &[Row], b: &[Row]) -> Result<Kept, Memory>
        ensures { IfOk result (λ k. k ≡ []) }
    {
        let bits = bits_for(alloc, a, b)?;
        Ok(Kept {
            rows: Vec::new(alloc),
            bits,
            commons: Vec::new(alloc),
        })
    }

    pub(crate) fn len(&self) -> usize
        ensures { result ≡ length self.now }
    {
        self.rows.len()
    }

    /// Returns whether two patterns together include that of a row. It takes a step for each row that it looks at.
    pub(crate) fn cover<L: Ledger>(
        &self,
        p: &[Literal],
        q: &[Literal],
        steps: &mut Steps<L>,
    ) -> bool
        ensures value { result ≡ list_any (λ (k : TableRow). includes (union p.now q.now) k.pattern) self.now }
        ensures steps { steps.new ≤ steps.old + length self.now }
    {
        let bits = self.bits.as_slice();
        let sign = with_bits(bits, with_bits(bits, 0, p), q);
        let rows = self.rows.as_slice();
        is_covered_by_any(p, q, sign, rows, self.commons.as_slice(), steps)
    }

    pub(crate) fn push(&mut self, row: Row) -> Result<(), Memory>
        ensures { OnOk result (self.new ≡ self.old ++ row ∷ []) }
    {
        let sign = with_bits(self.bits.as_slice(), 0, row.pattern.as_slice());
        match note_common(&mut self.commons, self.rows.len(), sign) {
            Ok(()) => {}
            Err(error) => {
                drop(row);
                return Err(error);
            }
        }
        self.rows.push(Signed { row, sign })?;
        Ok(())
    }

    pub(crate) fn into_rows(self, alloc: Global) -> Result<Items<Row>, Memory>
        ensures { IfOk result (λ rows. rows ≡ self) }
    {
        let Kept { rows, .. } = self;
        bare_rows(alloc, rows)
    }
}

/// Returns the rows without their signatures.
fn bare_rows(alloc: Global, signed: Vec<Signed>) -> Result<Items<Row>, Memory>
    ensures { IfOk result (λ rows. rows ≡ rows_of signed.items) }
{
    let mut rows = Items::new(alloc);
    for one in signed {
        let Signed { row, .. } = one;
        rows.push(row)?;
    }
    Ok(rows)
}
