// The nodes of code in their order.
ghost use Rattle.std.specs.Prelude.{◌≡◌, ◌++◌, map, IfOk, OnOk, IsTrue};
ghost use Rattle.std.specs.List.{enumerate_from};
ghost use Rattle.lucid_code.specs.Uses.{key_of};
ghost use Rattle.lucid_tables.specs.Numbers.{rising, rises, with_number};
ghost use Rattle.lucid_code.specs.Nodes as spec;

use lucid_base::Memory;
use lucid_code::{Code, Node, Op};
use std::alloc::Global;

/// The nodes of code, in the order in which they are placed.
pub fn nodes(alloc: Global, code: &Code) -> Result<Vec<Node>, Memory>
    ensures { IfOk result (λ ns. ns.items ≡ spec.nodes code.now.ops) }
{
    let ops = code.ops();
    let keys = keys(alloc, ops)?;
    let mut nodes = Vec::new(alloc);
    for key in keys.as_slice() {
        put_nodes(ops, *key, &mut nodes)?;
    }
    Ok(nodes)
}

/// The keys of the operations in rising order, each once.
fn keys(alloc: Global, ops: &[Op]) -> Result<Vec<u64>, Memory>
    ensures { IfOk result (λ keys. keys.items ≡ rising (map key_of ops.now)) }
{
    let mut keys = Vec::new(alloc);
    for op in ops {
        put_key(&mut keys, op.key())?;
    }
    Ok(keys)
}

/// Puts a key at its place, unless it is there.
fn put_key(keys: &mut Vec<u64>, key: u64) -> Result<(), Memory>
    requires { IsTrue (rises keys.old.items) }
    ensures value { OnOk result (keys.new.items ≡ with_number keys.old.items key) }
    ensures rises { OnOk result (IsTrue (rises keys.new.items)) }
{
    match keys.binary_search(&key) {
        Ok(_) => Ok(()),
        Err(at) => {
            keys.insert(at, key)?;
            Ok(())
        }
    }
}

/// Appends the nodes of a key to a list. More operations than 32 bits can number count as out of memory.
fn put_nodes(ops: &[Op], key: u64, nodes: &mut Vec<Node>) -> Result<(), Memory>
    ensures { OnOk result (nodes.new.items ≡ nodes.old.items ++ spec.nodes_with_key (spec.with_key key (enumerate_from 0 ops.now))) }
{
    for (at, op) in ops.iter().enumerate() {
        if op.key() == key {
            match op.act.called() {
                Some(array) => {
                    nodes.push(Node::Array(array))?;
                    return Ok(());
                }
                None => match u32::try_from(at) {
                    Ok(at) => nodes.push(Node::Pure(at))?,
                    Err(_) => return Err(Memory),
                },
            }
        }
    }
    Ok(())
}
