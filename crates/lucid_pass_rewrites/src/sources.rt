// The pass that tests the source of a field in place of the field (`sources` of lucid_pass_more_spec).
ghost use Rattle.std.specs.Prelude.{◌≡◌, ◌&&◌, length, map, not, slice_get, slice_index_or, false, if◌then◌else◌, IfOk, IsTrue};
ghost use Rattle.std.specs.List.{list_all};
ghost use Rattle.std.specs.Option.{option_map_or};
ghost use Rattle.lucid_pass.specs.Marks.{writes_below};
ghost use Rattle.lucid_pass_more_spec.specs.Sources.{has_source, of_source, source_literal, source_of, source_op, source_ops};
ghost use Rattle.lucid_pass_rewrites.specs.Covering.{Uncovered};
ghost use Rattle.lucid_pass_rewrites.specs.Writers.{Tells};

use crate::comparisons::is_width;
use crate::covering::uncovered;
use crate::looks::width;
use crate::trail::{says, with_guard};
use crate::writers::{Writer, who_writes, writers_of};
use lucid_base::{CmpOp, Memory, Width};
use lucid_code::{Act, Code, Literal, Op, Operand};
use lucid_pass::{Name, Pass, is_set, replaced};
use std::alloc::Global;

/// The pass `sources`. A literal of a field that was moved from a field of the same width, or that compares a field by `!=`, becomes a
/// literal of that other field.
#[derive(Drop)]
pub struct Sources {
    removed: u64,
}

impl Sources {
    /// Returns the pass, with a count of 0.
    pub fn new() -> Sources
        ensures { result.removed ≡ 0 }
    {
        Sources { removed: 0 }
    }
}

impl Pass for Sources {
    ghost use Rattle.std.specs.Prelude.{codes};
    ghost use Rattle.lucid_pass_more_spec.specs.Sources.{sources};
    ghost use Rattle.lucid_pass_more_spec.proofs.SourcesLemmas.{sources_replace};

    ghost called = { λ _. codes "sources" };

    ghost count = { λ p. p.removed };

    ghost gives = { λ _. record { makes = sources; keeps = sources_replace } };

    fn name(&self) -> Name {
        Name::new("sources")
    }

    fn removed(&self) -> u64 {
        self.removed
    }

    fn run(&mut self, alloc: Global, code: &Code) -> Result<Code, Memory> {
        let ops = source_ops(alloc, code.fields(), code.ops())?;
        let (new, gone) = replaced(alloc, code, ops)?;
        self.removed = self.removed.saturating_add(gone);
        Ok(new)
    }
}

/// The operations, the writer of each field, and the fields that are tested outside the guard of their writer.
#[derive(Clone, Copy)]
struct Seen<'a> {
    widths: &'a [Width],
    ops: &'a [Op],
    writers: &'a [Writer],
    uncovered: &'a [bool],
}

/// Returns the operations with literals of sources in their guards. They write fields that are there.
fn source_ops(alloc: Global, widths: &[Width], ops: &[Op]) -> Result<Vec<Op>, Memory>
    requires { IsTrue (list_all (writes_below (length widths.now)) ops.now) }
    ensures { IfOk result (λ new. new.items ≡ source_ops widths.now ops.now) }
{
    let writers = writers_of(alloc, ops, widths.len())?;
    let uncovered = uncovered(alloc, ops, writers.as_slice())?;
    let mut new = Vec::new(alloc);
    for op in ops {
        let seen = Seen {
            widths,
            ops,
            writers: writers.as_slice(),
            uncovered: uncovered.as_slice(),
        };
        let op = source_op(alloc, seen, new.last(), op)?;
        new.push(op)?;
    }
    Ok(new)
}

/// Returns an operation with literals of sources. `before` is the new operation before it.
fn source_op(alloc: Global, seen: Seen, before: Option<&Op>, op: &Op) -> Result<Op, Memory>
    requires tells { Tells seen.ops.now seen.writers.now }
    requires uncovered { Uncovered seen.ops.now (length seen.writers.now) (length seen.ops.now) seen.uncovered.now }
    ensures { IfOk result (λ new. new ≡ source_op (source_of seen.entry.widths.now seen.entry.ops.now) op.now) }
{
    let literals = source_literals(alloc, seen, op.guard.as_slice())?;
    with_guard(alloc, before, literals.as_slice(), op)
}

fn source_literals(alloc: Global, seen: Seen, guard: &[Literal]) -> Result<Vec<Literal>, Memory>
    requires tells { Tells seen.ops.now seen.writers.now }
    requires uncovered { Uncovered seen.ops.now (length seen.writers.now) (length seen.ops.now) seen.uncovered.now }
    ensures { IfOk result (λ new. new.items ≡ map (source_literal (source_of seen.entry.widths.now seen.entry.ops.now)) guard.now) }
{
    let mut literals = Vec::new(alloc);
    for literal in guard {
        literals.push(source_literal(seen, *literal))?;
    }
    Ok(literals)
}

fn source_literal(seen: Seen, l: Literal) -> Literal
    requires tells { Tells seen.ops.now seen.writers.now }
    requires uncovered { Uncovered seen.ops.now (length seen.writers.now) (length seen.ops.now) seen.uncovered.now }
    ensures { result ≡ source_literal (source_of seen.entry.widths.now seen.entry.ops.now) l }
{
    match who_writes(seen.writers, l.field) {
        Writer::Nobody => l,
        Writer::One(at) => literal_at(seen, at, l),
        Writer::Many => l,
    }
}

/// Returns the literal as one of the source of the operation at this place, which alone writes its field.
fn literal_at(seen: Seen, at: usize, l: Literal) -> Literal
    ensures { result ≡ option_map_or (λ w. if not (slice_index_or seen.entry.uncovered.now l.field false) && has_source seen.entry.widths.now w.act then of_source w.act l else l) (slice_get seen.entry.ops.now at) l }
{
    match seen.ops.get(at) {
        None => l,
        Some(op) => {
            let uncovered = is_set(seen.uncovered, l.field as usize);
            literal_by(seen.widths, &op.act, uncovered, l)
        }
    }
}

fn literal_by(widths: &[Width], act: &Act, uncovered: bool, l: Literal) -> Literal
    ensures { result ≡ if not uncovered && has_source widths.now act.now then of_source act.now l else l }
{
    if !uncovered && has_source(widths, act) {
        of_source(act, l)
    } else {
        l
    }
}

fn has_source(widths: &[Width], act: &Act) -> bool
    ensures { result ≡ has_source widths.now act.now }
{
    match act {
        Act::Move(Operand::Field(s), k) => width(widths, *s) == width(widths, *k),
        Act::Cmp(CmpOp::Ne, w, Operand::Field(s), Operand::Fixed(v), _) => {
            is_width(widths, *w, *s) && w.fits(*v)
        }
        _ => false,
    }
}

fn of_source(act: &Act, l: Literal) -> Literal
    ensures { result ≡ of_source act.now l }
{
    match act {
        Act::Move(Operand::Field(s), _) => Literal {
            field: *s,
            equal: l.equal,
            value: l.value,
        },
        Act::Cmp(CmpOp::Ne, _, Operand::Field(s), Operand::Fixed(v), _) => Literal {
            field: *s,
            equal: !says(l),
            value: *v,
        },
        _ => l,
    }
}
