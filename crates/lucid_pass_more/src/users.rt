// The operations that use each field.
ghost use Rattle.std.specs.Prelude.{◌≡◌, ◌∷◌, ◌++◌, [], replicate, slice_index_or, slice_set, IfOk, OnOk};
ghost use Rattle.lucid_pass_more_spec.specs.Lift.{used_by};
ghost use Rattle.lucid_pass_more.specs.Users.{Names, with_user};

use lucid_base::{Items, Memory};
use lucid_code::Op;
use std::alloc::Global;

/// For each field below `fields`, returns the positions of the operations that read or write it.
pub(crate) fn users_of(
    alloc: Global,
    ops: &[Op],
    fields: usize,
) -> Result<Vec<Items<usize>>, Memory>
    ensures { IfOk result (λ users. Names ops.now ops.now fields users.items) }
{
    let mut users = no_users(alloc, fields)?;
    let mut used = Vec::new(alloc);
    for (at, op) in ops.iter().enumerate() {
        put_uses(op, &mut used)?;
        add_user(&mut users, used.as_slice(), at)?;
    }
    Ok(users)
}

fn no_users(alloc: Global, fields: usize) -> Result<Vec<Items<usize>>, Memory>
    ensures { IfOk result (λ users. users.items ≡ replicate fields []) }
{
    let mut users = Vec::new(alloc);
    for _turn in 0..fields {
        users.push(Items::new(alloc))?;
    }
    Ok(users)
}

/// Fills the list with the fields that an operation uses.
fn put_uses(op: &Op, used: &mut Vec<u32>) -> Result<(), Memory>
    ensures { OnOk result (used.new.items ≡ used_by op.now) }
{
    used.clear();
    op.put_reads(used)?;
    match op.act.written() {
        None => Ok(()),
        Some(k) => {
            used.push(k)?;
            Ok(())
        }
    }
}

/// Adds a position to the users of each of these fields.
fn add_user(users: &mut Vec<Items<usize>>, fields: &[u32], at: usize) -> Result<(), Memory>
    ensures { OnOk result (users.new.items ≡ with_user users.old.items fields.now at) }
{
    for k in fields {
        push_user(users, *k, at)?;
    }
    Ok(())
}

fn push_user(users: &mut Vec<Items<usize>>, k: u32, at: usize) -> Result<(), Memory>
    ensures { OnOk result (users.new.items ≡ slice_set users.old.items k (slice_index_or users.old.items k [] ++ at ∷ [])) }
{
    if (k as usize) < users.len() {
        let row = &mut users[k as usize];
        row.push(at)?;
    }
    Ok(())
}
