// The pass that lets an operation act under fewer literals than its readers (`lift` of lucid_pass_more_spec).
ghost use Rattle.std.specs.Prelude.{◌≡◌, ◌<◌, ◌&&◌, [], length, true, not, nat_eq, slice_get, slice_index_or, IfOk, IsTrue};
ghost use Rattle.std.specs.List.{filter, list_all};
ghost use Rattle.std.specs.Option.{option_map_or};
ghost use Rattle.lucid_code.specs.Uses.{only_writes};
ghost use Rattle.lucid_pass.specs.Marks.{writes_below};
ghost use Rattle.lucid_pass_more_spec.specs.Lift.{drops, lift_op, lift_ops, lifted_guard, requires_it};
ghost use Rattle.lucid_pass_more.specs.Lift.{impossible};
ghost use Rattle.lucid_pass_more.specs.Users.{Names, all_at};

use crate::guards::{contradicts_itself, stands_in};
use crate::users::users_of;
use lucid_base::{Items, Memory};
use lucid_code::{Act, Code, Guard, Literal, Op};
use lucid_pass::{Name, Pass, is_set, replaced};
use std::alloc::Global;

/// The pass `lift`. An operation that only writes a field no longer waits for the literals that all operations on this field require.
#[derive(Drop)]
pub struct Lift {
    removed: u64,
}

impl Lift {
    /// Returns the pass, with a count of 0.
    pub fn new() -> Lift
        ensures { result.removed ≡ 0 }
    {
        Lift { removed: 0 }
    }
}

impl Pass for Lift {
    ghost use Rattle.std.specs.Prelude.{codes};
    ghost use Rattle.lucid_pass_more_spec.specs.Lift.{lift};
    ghost use Rattle.lucid_pass_more_spec.proofs.LiftLemmas.{lift_replaces};

    ghost called = { λ _. codes "lift" };

    ghost count = { λ p. p.removed };

    ghost gives = { λ _. record { makes = lift; keeps = lift_replaces } };

    fn name(&self) -> Name {
        Name::new("lift")
    }

    fn removed(&self) -> u64 {
        self.removed
    }

    fn run(&mut self, alloc: Global, code: &Code) -> Result<Code, Memory> {
        let ops = lift_ops(alloc, code.ops(), code.fields().len())?;
        let (new, gone) = replaced(alloc, code, ops)?;
        self.removed = self.removed.saturating_add(gone);
        Ok(new)
    }
}

/// Returns the operations with fewer literals in their guards. They write fields below `fields`.
fn lift_ops(alloc: Global, ops: &[Op], fields: usize) -> Result<Vec<Op>, Memory>
    requires { IsTrue (list_all (writes_below fields) ops.now) }
    ensures { IfOk result (λ new. new.items ≡ lift_ops ops.now) }
{
    let users = users_of(alloc, ops, fields)?;
    let impossible = impossible(alloc, ops)?;
    let mut new = Vec::new(alloc);
    for op in ops {
        let known = Known {
            ops,
            users: users.as_slice(),
            impossible: impossible.as_slice(),
        };
        new.push(lift_op(alloc, known, op)?)?;
    }
    Ok(new)
}

/// Returns for each operation whether it never acts, since its guard contradicts itself.
fn impossible(alloc: Global, ops: &[Op]) -> Result<Vec<bool>, Memory>
    ensures { IfOk result (λ found. found.items ≡ impossible ops.now) }
{
    let mut found = Vec::new(alloc);
    for op in ops {
        found.push(contradicts_itself(op.guard.as_slice()))?;
    }
    Ok(found)
}

/// The operations, the positions of the users of each field, and which of them never act.
#[derive(Clone, Copy)]
struct Known<'a> {
    ops: &'a [Op],
    users: &'a [Items<usize>],
    impossible: &'a [bool],
}

fn lift_op(alloc: Global, known: Known, op: &Op) -> Result<Op, Memory>
    requires names { Names known.ops.now known.ops.now (length known.users.now) known.users.now }
    requires impossible { known.impossible.now ≡ impossible known.ops.now }
    requires below { IsTrue (writes_below (length known.users.now) op.now) }
    ensures { IfOk result (λ new. new ≡ lift_op known.entry.ops.now op.now) }
{
    match only_writes(&op.act) {
        None => op.copy(alloc),
        Some(k) => lifted(alloc, known, op, k),
    }
}

/// Returns the field that an act writes which does nothing else.
fn only_writes(act: &Act) -> Option<u32>
    ensures { result ≡ only_writes act.now }
{
    match act {
        Act::Touch { .. } => None,
        _ => act.written(),
    }
}

/// Returns an operation on field `k` without the literals that all others on it require.
fn lifted(alloc: Global, known: Known, op: &Op, k: u32) -> Result<Op, Memory>
    requires names { Names known.ops.now known.ops.now (length known.users.now) known.users.now }
    requires impossible { known.impossible.now ≡ impossible known.ops.now }
    requires below { k < length known.users.now }
    ensures { IfOk result (λ new. new ≡ record { guard = lifted_guard known.entry.ops.now k op.now.guard; level = op.now.level; act = op.now.act }) }
{
    let literals = kept(alloc, known, op.guard.as_slice(), k)?;
    let guard = if literals.len() == op.guard.as_slice().len() {
        op.guard.share()?
    } else {
        Guard::new(alloc, literals)?
    };
    Ok(Op {
        guard,
        level: op.level,
        act: op.act.copy(alloc)?,
    })
}

/// Returns the literals of the guard that stay.
fn kept(alloc: Global, known: Known, guard: &[Literal], k: u32) -> Result<Items<Literal>, Memory>
    requires names { Names known.ops.now known.ops.now (length known.users.now) known.users.now }
    requires impossible { known.impossible.now ≡ impossible known.ops.now }
    requires below { k < length known.users.now }
    ensures { IfOk result (λ literals. literals ≡ lifted_guard known.entry.ops.now k guard.now) }
{
    let mut literals = Items::new(alloc);
    for (at, literal) in guard.iter().enumerate() {
        if !drops(known, k, at, *literal) {
            literals.push(*literal)?;
        }
    }
    Ok(literals)
}

/// Returns whether literal `at` of a writer of field `k` is dropped.
fn drops(known: Known, k: u32, at: usize, literal: Literal) -> bool
    requires names { Names known.ops.now known.ops.now (length known.users.now) known.users.now }
    requires impossible { known.impossible.now ≡ impossible known.ops.now }
    requires below { k < length known.users.now }
    ensures { result ≡ drops known.entry.ops.now k literal }
{
    literal.field != 0 && all_require(known, known.users[k as usize].as_slice(), at, literal)
}

/// Returns whether all operations at these positions require the literal, mostly at position `at` of their guards.
fn all_require(known: Known, places: &[usize], at: usize, literal: Literal) -> bool
    requires { known.impossible.now ≡ impossible known.ops.now }
    ensures { result ≡ all_at known.entry.ops.now (requires_it literal) places.now }
{
    for place in places {
        if !requires_at(known, *place, at, literal) {
            return false;
        }
    }
    true
}

fn requires_at(known: Known, place: usize, at: usize, literal: Literal) -> bool
    requires { known.impossible.now ≡ impossible known.ops.now }
    ensures { result ≡ option_map_or (requires_it literal) (slice_get known.entry.ops.now place) true }
{
    match known.ops.get(place) {
        None => true,
        Some(op) => {
            !is_set(known.impossible, place) && stands_in(op.guard.as_slice(), at, literal)
        }
    }
}
