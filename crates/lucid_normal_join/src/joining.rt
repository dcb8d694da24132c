// The end of an if: the operand of a local or of the answer after it, for either branch.
ghost use Rattle.std.specs.Prelude.{◌≡◌, ◌<◌, [], ◌∷◌, ◌++◌, IfOk, OnOk, OnSome, length, slice_index_or};
ghost use Rattle.lucid_code.specs.declared.op.Operand.TheVariants.{Field};
ghost use Rattle.lucid_normal_spec.specs.Translate.{join_answer as answer_of, joins, moves, same_operand, same as same_of};
ghost use Rattle.lucid_normal_steps.specs.Added.{added};
ghost use Rattle.lucid_normal_join.specs.Changes.{change_held, change_met, changes_joined, with_locals};
ghost use Rattle.lucid_normal_join.specs.Branches.{ends_at, env_of, met, ops_of};
ghost use Rattle.lucid_normal_steps.specs.Notes.{before, end_of};

use crate::branches::Turned;
use crate::changes::{Change, changes_of};
use lucid_base::{Items, Memory, Width};
use lucid_code::{Act, Op, Operand};
use lucid_normal_spec::{Env, Typed};
use lucid_normal_steps::{Context, Note, Work, clear, held_at, hold, next, put, take_back, within};

/// The level of the moves at the end of an if, and the field that holds its condition.
#[derive(Clone, Copy)]
pub struct Meet {
    pub level: u32,
    pub condition: u32,
}

/// Joins the locals and the answer after the second branch. The earlier notes continue, and the old operands of the locals are noted.
#[tactic(auto, using(lucid_normal_steps::proofs::Adding::adding, std::proofs::lemmas::Grind::common_steps))]
pub fn join(
    context: Context,
    work: &mut Work,
    env: &mut Env,
    condition: u32,
    turned: Turned,
) -> Result<(), Memory>
    ensures env { OnOk result (env.new ≡ env_of condition (before work.old.notes.items env.old.held)
        (ends_at (before work.old.notes.items env.old.held) turned.first) env.old) }
    ensures ops { OnOk result (work.new.ops.items
        ≡ added context.entry.guard.now work.old.ops.items (ops_of condition (before work.old.notes.items env.old.held)
        (ends_at (before work.old.notes.items env.old.held) turned.first) env.old)) }
    ensures back { OnOk result (before work.new.notes.items env.new.held
        ≡ before turned.notes.items (before work.old.notes.items env.old.held)) }
{
    let Turned { notes, first } = turned;
    let at = Meet {
        level: first.place.max(env.place),
        condition,
    };
    let noted = std::mem::replace(&mut work.notes, notes);
    let second = take_back(context.alloc, &mut env.held, Items::from_vec(noted))?;
    join_locals(context, work, env, at, first.notes, second)?;
    let widths = &mut env.widths;
    let answer = join_answer(context, &mut work.ops, widths, at, first.answer, env.answer)?;
    env.answer = answer;
    env.slot = first.slot.max(env.slot);
    env.place = at.level;
    Ok(())
}

/// The locals after the if, from the ends of its branches. After a branch that returned no local has an operand.
#[tactic(auto, using(crate::proofs::ChangesLemmas::no_first, crate::proofs::ChangesLemmas::no_second, std::proofs::lemmas::Grind::common_steps))]
fn join_locals(
    context: Context,
    work: &mut Work,
    env: &mut Env,
    at: Meet,
    first: Option<Items<Note>>,
    second: Option<Items<Note>>,
) -> Result<(), Memory>
    requires { OnSome second (0 < length env.old.held) }
    ensures env { OnOk result (env.new ≡ with_locals env.old
        (joins at.level at.condition env.old.held (end_of first env.old.held) (end_of second env.old.held) env.old.widths)) }
    ensures ops { OnOk result (work.new.ops.items ≡ added context.entry.guard.now work.old.ops.items
        (joins at.level at.condition env.old.held (end_of first env.old.held) (end_of second env.old.held) env.old.widths).ops) }
    ensures back { OnOk result (before work.new.notes.items env.new.held ≡ before work.old.notes.items env.old.held) }
{
    match first {
        None => clear(context.alloc, &mut env.held, &mut work.notes),
        Some(first) => match second {
            None => clear(context.alloc, &mut env.held, &mut work.notes),
            Some(second) => join_written(context, work, env, at, first, second),
        },
    }
}

/// Joins only the locals that a branch wrote: any other local keeps its operand.
fn join_written(
    context: Context,
    work: &mut Work,
    env: &mut Env,
    at: Meet,
    first: Items<Note>,
    second: Items<Note>,
) -> Result<(), Memory>
    requires { 0 < length env.old.held }
    ensures env { OnOk result (env.new ≡ with_locals env.old
        (joins at.level at.condition env.old.held (before first env.old.held) (before second env.old.held) env.old.widths)) }
    ensures ops { OnOk result (work.new.ops.items ≡ added context.entry.guard.now work.old.ops.items
        (joins at.level at.condition env.old.held (before first env.old.held) (before second env.old.held) env.old.widths).ops) }
    ensures back { OnOk result (before work.new.notes.items env.new.held ≡ before work.old.notes.items env.old.held) }
{
    let changes = changes_of(context.alloc, &mut env.held, first, second)?;
    join_changes(context, work, env, at, changes.as_slice())
}

#[tactic(auto, using(lucid_normal_steps::proofs::Adding::adding, std::proofs::lemmas::Grind::common_steps))]
fn join_changes(
    context: Context,
    work: &mut Work,
    env: &mut Env,
    at: Meet,
    changes: &[Change],
) -> Result<(), Memory>
    ensures env { OnOk result (env.new
        ≡ with_locals env.old (changes_joined at.level at.condition changes.now env.old.held env.old.widths)) }
    ensures ops { OnOk result (work.new.ops.items ≡ added context.entry.guard.now work.old.ops.items
        (changes_joined at.level at.condition changes.now env.old.held env.old.widths).ops) }
    ensures back { OnOk result (before work.new.notes.items env.new.held ≡ before work.old.notes.items env.old.held) }
{
    for change in changes {
        join_change(context, work, env, at, *change)?;
    }
    Ok(())
}

fn join_change(
    context: Context,
    work: &mut Work,
    env: &mut Env,
    at: Meet,
    change: Change,
) -> Result<(), Memory>
    ensures env { OnOk result (env.new ≡ record env.old {
      held = change_held at.level at.condition change env.old.held env.old.widths;
      widths = (change_met at.level at.condition change env.old.held env.old.widths).widths;
    }) }
    ensures ops { OnOk result (work.new.ops.items ≡ added context.entry.guard.now work.old.ops.items
        (change_met at.level at.condition change env.old.held env.old.widths).ops) }
    ensures back { OnOk result (before work.new.notes.items env.new.held ≡ before work.old.notes.items env.old.held) }
{
    let was = held_at(env.held.as_slice(), change.local);
    let widths = &mut env.widths;
    let now = join_one(
        context,
        &mut work.ops,
        widths,
        at,
        was,
        change.first,
        change.second,
    )?;
    hold(&mut env.held, &mut work.notes, change.local, now)
}

/// The operand of one local. One that neither branch assigns keeps its operand.
#[tactic(auto, using(lucid_normal_steps::proofs::Adding::adding, std::proofs::lemmas::Grind::common_steps))]
fn join_one(
    context: Context,
    ops: &mut Vec<Op>,
    widths: &mut Items<Width>,
    at: Meet,
    held: Option<Typed>,
    first: Option<Typed>,
    second: Option<Typed>,
) -> Result<Option<Typed>, Memory>
    ensures held { IfOk result (λ h. h ≡ slice_index_or (met at.level at.condition widths.old held first second).held 0 None) }
    ensures widths { OnOk result (widths.new ≡ (met at.level at.condition widths.old held first second).widths) }
    ensures ops { OnOk result (ops.new.items
        ≡ added context.entry.guard.now ops.old.items (met at.level at.condition widths.old held first second).ops) }
{
    match held {
        None => Ok(None),
        Some(_) => match first {
            None => Ok(None),
            Some(a) => match second {
                None => Ok(None),
                Some(b) => {
                    if same(a, b) {
                        return Ok(Some(a));
                    }
                    Ok(Some(move_both(context, ops, widths, at, a, b)?))
                }
            },
        },
    }
}

/// The operand of the answer, if both branches return a value.
#[tactic(auto, using(lucid_normal_steps::proofs::Adding::adding, std::proofs::lemmas::Grind::common_steps))]
fn join_answer(
    context: Context,
    ops: &mut Vec<Op>,
    widths: &mut Items<Width>,
    at: Meet,
    first: Option<Typed>,
    second: Option<Typed>,
) -> Result<Option<Typed>, Memory>
    ensures held { IfOk result (λ h. h ≡ slice_index_or (answer_of at.level at.condition first second widths.old).held 0 None) }
    ensures widths { OnOk result (widths.new ≡ (answer_of at.level at.condition first second widths.old).widths) }
    ensures ops { OnOk result (ops.new.items
        ≡ added context.entry.guard.now ops.old.items (answer_of at.level at.condition first second widths.old).ops) }
{
    match first {
        None => Ok(None),
        Some(a) => match second {
            None => Ok(None),
            Some(b) => Ok(Some(move_both(context, ops, widths, at, a, b)?)),
        },
    }
}

/// A new field, which takes the one operand if the condition holds, and the other if it doesn't.
#[tactic(auto, using(lucid_normal_steps::proofs::Adding::adding, std::proofs::lemmas::Grind::common_steps))]
fn move_both(
    context: Context,
    ops: &mut Vec<Op>,
    widths: &mut Items<Width>,
    at: Meet,
    a: Typed,
    b: Typed,
) -> Result<Typed, Memory>
    ensures held { IfOk result (λ t. t ≡ record { operand = Field (length widths.old); width = a.width }) }
    ensures widths { OnOk result (widths.new ≡ widths.old ++ a.width ∷ []) }
    ensures ops { OnOk result (ops.new.items
        ≡ added context.entry.guard.now ops.old.items (moves at.level at.condition (length widths.old) a.operand b.operand [])) }
{
    let k = next(widths)?;
    let taken = within(context, at.condition, 1)?;
    let other = within(context, at.condition, 0)?;
    let alloc = context.alloc;
    put(
        Context {
            alloc,
            guard: &taken,
        },
        ops,
        at.level,
        Act::Move(a.operand, k),
    )?;
    put(
        Context {
            alloc,
            guard: &other,
        },
        ops,
        at.level,
        Act::Move(b.operand, k),
    )?;
    widths.push(a.width)?;
    Ok(Typed {
        operand: Operand::Field(k),
        width: a.width,
    })
}

fn same(a: Typed, b: Typed) -> bool
    ensures { result ≡ same_of a b }
{
    is_same(a.operand, b.operand) && a.width == b.width
}

fn is_same(a: Operand, b: Operand) -> bool
    ensures { result ≡ same_operand a b }
{
    match (a, b) {
        (Operand::Fixed(x), Operand::Fixed(y)) => x == y,
        (Operand::Field(x), Operand::Field(y)) => x == y,
        _ => false,
    }
}
