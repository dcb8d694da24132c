// The rows of a table as partners of those of another. A row is paired with those that it does not clash with.
ghost use Rattle.std.specs.Prelude.{◌≡◌, ◌+◌, ◌≤◌, List, length, map, IfOk};
ghost use Rattle.std.specs.List.{All, filter};
ghost use Rattle.lucid_tables.specs.declared.table.Row.{Row as TableRow};
ghost use Rattle.lucid_merge.specs.Contested.{contested, contested_row};
ghost use Rattle.lucid_merge.specs.Partners.{is_partner, AreAll, HaveAllPairs, ArePartners};
ghost use Rattle.lucid_merge.specs.Standing.{IsNear};

use crate::contested::{ContestedRow, contested_row, contested_rows, contradict_by, lone_literals};
use crate::near::{Near, all_near, suits};
use lucid_base::{Items, Memory, Steps};
use lucid_code::Literal;
use lucid_tables::Row;
use std::alloc::Global;
use std::marker::Model;
use std::sync::ledger::Ledger;

/// The rows of a table, which contracts see as their list. Of each it is known which literals are contested, and whether it contradicts itself.
#[derive(Drop)]
pub(crate) struct Partners<'a> {
    rows: &'a [Row],
    lone: Vec<Literal>,
    contested: Vec<ContestedRow>,
    all: Vec<usize>,
    near: Vec<Near>,
}

impl<'a> Model for Partners<'a> {
    ghost use Rattle.std.specs.Prelude.{◌≡◌, List, map};
    ghost use Rattle.std.specs.List.{All};
    ghost use Rattle.lucid_tables.specs.declared.table.Row.{Row};
    ghost use Rattle.lucid_merge.specs.Contested.{contested_row};
    ghost use Rattle.lucid_merge.specs.Partners.{AreAll};
    ghost use Rattle.lucid_merge.specs.Standing.{IsNear};

    ghost Value = { List Row };

    ghost view = { λ k. k.rows.now };

    ghost invariant = { λ k. (k.contested.items ≡ map (contested_row k.lone.items) k.rows.now)
        × AreAll k.rows.now k.all.items × All (IsNear k.rows.now) k.near.items };
}

/// Returns the positions of all of these rows.
fn all_places(alloc: Global, rows: &[Row]) -> Result<Vec<usize>, Memory>
    ensures { IfOk result (λ all. AreAll rows.now all.items) }
{
    let mut all = Vec::new(alloc);
    for place in 0..rows.len() {
        all.push(place)?;
    }
    Ok(all)
}

/// Returns whether the row at a position neither contradicts a pattern nor itself.
fn is_partner(
    lone: &[Literal],
    rows: &[Row],
    others: &[ContestedRow],
    p: &[Literal],
    of_p: &[Literal],
    place: usize,
) -> bool
    requires others { others.now ≡ map (contested_row lone.now) rows.now }
    requires own { of_p.now ≡ contested lone.now p.now }
    ensures { result ≡ is_partner rows.now p.now place }
{
    if place >= rows.len() || place >= others.len() {
        return false;
    }
    let q = rows[place].pattern.as_slice();
    let other = &others[place];
    !contradict_by(lone, p, q, of_p, other.literals.as_slice()) && !other.contradicts_itself
}

/// Returns those of some positions at which a row neither contradicts a pattern nor itself. It takes a step for each position.
fn partners_among<L: Ledger>(
    alloc: Global,
    lone: &[Literal],
    rows: &[Row],
    others: &[ContestedRow],
    p: &[Literal],
    of_p: &[Literal],
    places: &[usize],
    steps: &mut Steps<L>,
) -> Result<Items<usize>, Memory>
    requires others { others.now ≡ map (contested_row lone.now) rows.now }
    requires own { of_p.now ≡ contested lone.now p.now }
    ensures value { IfOk result (λ found. found ≡ filter (is_partner rows.now p.now) places.now) }
    ensures few { IfOk result (λ found. length found ≤ length places.now) }
    ensures steps { steps.new ≤ steps.old + length places.now }
{
    let mut found = Items::new(alloc);
    for place in places {
        steps.tick();
        if is_partner(lone, rows, others, p, of_p, *place) {
            found.push(*place)?;
        }
    }
    Ok(found)
}

/// Returns the positions that may have a partner of the row: those near the value that it asks for, or else all.
fn likely_places<'a>(near: &'a [Near], all: &'a [usize], row: &Row) -> &'a [usize]
    ensures { (rows : List TableRow) → All (IsNear rows) near.now → AreAll rows all.now → HaveAllPairs row.now rows result.now }
{
    for n in near {
        if suits(n, row) {
            return n.places.as_slice();
        }
    }
    all
}

impl<'a> Partners<'a> {
    /// Returns the rows of the table `b`, to be paired with those of `a`.
    pub(crate) fn new(alloc: Global, a: &[Row], b: &'a [Row]) -> Result<Partners<'a>, Memory>
        ensures { IfOk result (λ partners. partners ≡ b.now) }
    {
        let lone = lone_literals(alloc, a, b)?;
        let contested = contested_rows(alloc, lone.as_slice(), b)?;
        let all = all_places(alloc, b)?;
        let near = all_near(alloc, b, a.len())?;
        Ok(Partners {
            rows: b,
            lone,
            contested,
            all,
            near,
        })
    }

    pub(crate) fn rows(&self) -> &[Row]
        ensures { result.now ≡ self.now }
    {
        self.rows
    }

    /// Returns the positions of the rows that a row does not clash with, and None if it contradicts itself. It takes at most a step for each
    /// row.
    pub(crate) fn of<L: Ledger>(
        &self,
        alloc: Global,
        row: &Row,
        steps: &mut Steps<L>,
    ) -> Result<Option<Items<usize>>, Memory>
        ensures value { IfOk result (ArePartners row.now self.now) }
        ensures steps { steps.new ≤ steps.old + length self.now }
    {
        let p = row.pattern.as_slice();
        let lone = self.lone.as_slice();
        let own = contested_row(alloc, lone, row)?;
        if own.contradicts_itself {
            drop(own);
            return Ok(None);
        }
        let of_p = own.literals.as_slice();
        let places = likely_places(self.near.as_slice(), self.all.as_slice(), row);
        let others = self.contested.as_slice();
        let found = partners_among(alloc, lone, self.rows, others, p, of_p, places, steps);
        drop(own);
        Ok(Some(found?))
    }
}
