// When links are down: for each two switches the windows of their link in the order of their beginnings, which is made once for a network.
ghost use Rattle.std.specs.Prelude.{◌≡◌, ℕ, IfOk};
ghost use Rattle.std.specs.List.{list_any};
ghost use Rattle.std.specs.List.Sorted.{IsNonDecreasingBy};
ghost use Rattle.lucid_net_spec.specs.Ways.{is_open as opens};
ghost use Rattle.lucid_net.specs.Windows.{AreOf, AreRows, Tells, holds, is_between, reaching, told};

use lucid_base::{Items, Memory};
use lucid_conf::{Down, Scene};
use std::alloc::Global;
use std::marker::Model;

/// When a window begins, and the tick before which it ends; in a row, the greatest such tick of the windows up to it.
#[derive(Clone, Copy)]
pub(crate) struct Span {
    from: u64,
    until: u64,
}

/// The windows of a scenario. Contracts see their list.
#[derive(Drop)]
pub(crate) struct Windows<'a> {
    down: &'a [Down],
    /// For each switch a row with the windows to each switch; no row if there are no windows.
    rows: Items<Items<Items<Span>>>,
}

impl<'a> Model for Windows<'a> {
    ghost use Rattle.std.specs.Prelude.{List};
    ghost use Rattle.lucid_conf.specs.declared.scene.Down.{Down};
    ghost use Rattle.lucid_net.specs.Windows.{AreRows};

    ghost Value = { List Down };

    ghost view = { λ w. w.down.now };

    ghost invariant = { λ w. AreRows w.down.now w.rows };
}

impl<'a> Windows<'a> {
    /// Returns the windows of this scenario. They take 16 bytes each way, and 24 for each pair of switches if there is one.
    pub(crate) fn new(alloc: Global, scene: &'a Scene) -> Result<Windows<'a>, Memory>
        ensures { IfOk result (λ w. w ≡ scene.now.down) }
    {
        let down = scene.down.as_slice();
        let switches = if down.is_empty() { 0 } else { scene.switches };
        let rows = rows(alloc, down, switches)?;
        Ok(Windows { down, rows })
    }

    /// Returns whether the link between two switches is down at a tick. Asks each window only if there is no row for the two.
    pub(crate) fn are_open(&self, a: u32, b: u64, tick: u64) -> bool
        ensures { result ≡ list_any (opens a b tick) self.now }
    {
        is_down_by(self.rows.as_slice(), self.down, a as u64, b, tick)
    }
}

/// Returns whether the link between two switches is down at a tick, by the rows of these windows.
fn is_down_by(rows: &[Items<Items<Span>>], down: &[Down], a: u64, b: u64, tick: u64) -> bool
    requires { AreRows down.now rows.now }
    ensures { result ≡ list_any (opens a b tick) down.now }
{
    let row = a as usize;
    if row < rows.len() {
        let cells = rows[row].as_slice();
        return is_down_to(cells, down, a, b, tick);
    }
    is_down(down, a, b, tick)
}

/// The same, by the row of the one switch.
fn is_down_to(row: &[Items<Span>], down: &[Down], a: u64, b: u64, tick: u64) -> bool
    requires { AreOf down.now a row.now }
    ensures { result ≡ list_any (opens a b tick) down.now }
{
    let column = b as usize;
    if column < row.len() {
        let spans = row[column].as_slice();
        return is_within(spans, tick);
    }
    is_down(down, a, b, tick)
}

/// Returns whether a tick is in one of the windows of a row: in the last that began, or before the end of an earlier one.
fn is_within(spans: &[Span], tick: u64) -> bool
    requires { IsNonDecreasingBy (λ (s : Span). s.from) spans.now }
    ensures { result ≡ told tick 0 spans.now }
{
    let begun = spans.partition_point(|span| span.from <= tick);
    begun > 0 && tick < spans[begun - 1].until
}

fn is_open(window: &Down, a: u64, b: u64, tick: u64) -> bool
    ensures { result ≡ opens a b tick window.now }
{
    is_between(window, a, b) && (window.from <= tick && tick < window.until)
}

/// Returns whether a window is one of the link between two switches.
fn is_between(window: &Down, a: u64, b: u64) -> bool
    ensures { result ≡ is_between a b window.now }
{
    let from = window.a as u64;
    let to = window.b as u64;
    (from == a && to == b) || (from == b && to == a)
}

fn is_down(down: &[Down], a: u64, b: u64, tick: u64) -> bool
    ensures { result ≡ list_any (opens a b tick) down.now }
{
    down.iter().any(|window| is_open(window, a, b, tick))
}

/// Returns the rows of this many switches.
fn rows(alloc: Global, down: &[Down], switches: u32) -> Result<Items<Items<Items<Span>>>, Memory>
    ensures { IfOk result (AreRows down.now) }
{
    let mut rows = Items::new(alloc);
    for a in 0..switches {
        let row = row(alloc, down, switches, a)?;
        rows.push(row)?;
    }
    Ok(rows)
}

/// Returns the row of a switch, with the windows to each of these.
fn row(alloc: Global, down: &[Down], switches: u32, a: u32) -> Result<Items<Items<Span>>, Memory>
    ensures { IfOk result (AreOf down.now a) }
{
    let mut row = Items::new(alloc);
    for b in 0..switches {
        let spans = spans(alloc, down, a as u64, b as u64)?;
        row.push(spans)?;
    }
    Ok(row)
}

/// Returns the windows of two switches in the order of their beginnings, with their greatest ends.
fn spans(alloc: Global, down: &[Down], a: u64, b: u64) -> Result<Items<Span>, Memory>
    ensures { IfOk result (Tells down.now a b) }
{
    let mut found = found(alloc, down, a, b)?;
    sort(&mut found);
    reached(alloc, found.as_slice())
}

/// Returns the windows of two switches.
fn found(alloc: Global, down: &[Down], a: u64, b: u64) -> Result<Vec<Span>, Memory>
    ensures { IfOk result (λ spans. (tick : ℕ) → list_any (holds tick) spans.items ≡ list_any (opens a b tick) down.now) }
{
    let mut spans = Vec::new(alloc);
    for window in down {
        if is_between(window, a, b) {
            spans.push(Span {
                from: window.from,
                until: window.until,
            })?;
        }
    }
    Ok(spans)
}

/// Puts windows in the order of their beginnings.
fn sort(spans: &mut Vec<Span>)
    ensures rise { IsNonDecreasingBy (λ (s : Span). s.from) spans.new.items }
    ensures same { (tick : ℕ) → list_any (holds tick) spans.new.items ≡ list_any (holds tick) spans.old.items }
{
    spans.sort_unstable_by_key(|span| span.from);
}

/// Returns windows with the greatest end of those up to each.
fn reached(alloc: Global, spans: &[Span]) -> Result<Items<Span>, Memory>
    ensures { IfOk result (λ found. found ≡ reaching 0 spans.now) }
{
    let mut found = Items::new(alloc);
    let mut until = 0;
    for span in spans {
        until = span.until.max(until);
        found.push(Span {
            from: span.from,
            until,
        })?;
    }
    Ok(found)
}
