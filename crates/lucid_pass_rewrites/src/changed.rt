// Code whose operations are changed one after another.
ghost use Rattle.std.specs.Prelude.{◌≡◌, [], length, IfOk, IsTrue};
ghost use Rattle.std.specs.List.{list_all};
ghost use Rattle.lucid_pass_spec.specs.Looks.{changed};
ghost use Rattle.lucid_pass.specs.Marks.{writes_below};
ghost use Rattle.lucid_pass_rewrites.specs.Changed.{change_of, finish_of, standing};
ghost use Rattle.lucid_pass_rewrites.specs.Writers.{Tells};

use crate::looks::{Looks, Now, looked_act};
use crate::settle::settled;
use crate::writers::writers_of;
use lucid_base::{Memory, Width};
use lucid_code::{Act, Op};
use std::alloc::Global;

/// Returns the operations, each changed in the order of the list. They write fields that are there.
pub(crate) fn changed(
    alloc: Global,
    looks: Looks,
    widths: &[Width],
    ops: &[Op],
) -> Result<Vec<Op>, Memory>
    requires { IsTrue (list_all (writes_below (length widths.now)) ops.now) }
    ensures { IfOk result (λ new. new.items ≡ changed (change_of looks widths.now) [] ops.now) }
{
    let writers = writers_of(alloc, ops, widths.len())?;
    let mut done = Vec::new(alloc);
    for op in ops {
        let now = Now {
            looks,
            widths,
            writers: writers.as_slice(),
            done: done.as_slice(),
            ops,
        };
        let new = changed_op(alloc, now, op)?;
        done.push(new)?;
    }
    Ok(done)
}

fn changed_op(alloc: Global, now: Now, op: &Op) -> Result<Op, Memory>
    requires { Tells (standing now.done.now now.ops.now) now.writers.now }
    ensures { IfOk result (λ new. new ≡ change_of now.entry.looks now.entry.widths.now (standing now.entry.done.now now.entry.ops.now) op.now) }
{
    let looks = now.looks;
    let guard = op.guard.share()?;
    let act = looked_act(alloc, now, op.guard.as_slice(), &op.act)?;
    Ok(Op {
        guard,
        level: op.level,
        act: finished(alloc, looks, act),
    })
}

fn finished(alloc: Global, looks: Looks, act: Act) -> Act
    ensures { result ≡ finish_of looks act }
{
    match looks {
        Looks::Copied => act,
        Looks::Constant => settled(alloc, act),
    }
}
