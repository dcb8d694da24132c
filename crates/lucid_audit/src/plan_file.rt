// Reading a placement file, by the definition of specs/PlanFile.
ghost use Rattle.std.specs.Prelude.{◌≡◌, [], None, Some, Ok, Err, IfOk, IfErr, codes, length, option_and_then};
ghost use Rattle.serde_json.specs.Find.{get, as_array};
ghost use Rattle.serde_json.specs.View.{view, items_view, members_view};
ghost use Rattle.lucid_conf.specs.Answers.{Reads};
ghost use Rattle.lucid_audit.specs.declared.plan.PlanKey.TheVariants.{Nodes};
ghost use Rattle.lucid_audit.specs.PlanFile as spec;
ghost use Rattle.lucid_audit.specs.PlanFile.{Gives, Refuses, Answers, plan_read, nodes_read, pairs_from};

use crate::{Plan, PlanError, PlanKey};
use lucid_base::Items;
use lucid_json::{Map, Unread, Value, at, get, items_in, members_in, number_in};
use std::alloc::Global;

/// Reads a plan for this many nodes. Returns Ok exactly if the bytes are JSON that `plan_read` reads, with its result; `NotJson` exactly
/// if they are no JSON; `BadField` exactly if `plan_read` refuses, with its key and place. A plan has one place for each node.
pub fn plan_of(alloc: Global, bytes: &[u8], nodes: usize) -> Result<Plan, PlanError>
    ensures value { Answers result (plan_read nodes) bytes.now }
    ensures count { IfOk result (λ plan. length plan.pairs ≡ nodes) }
{
    let value = value_of(alloc, bytes)?;
    let pairs = read_plan(alloc, &value, nodes)?;
    Ok(Plan { pairs })
}

/// Reads the value that the bytes spell.
fn value_of(alloc: Global, bytes: &[u8]) -> Result<Value, PlanError>
    ensures ok { IfOk result (λ v. Reads bytes.now (view v)) }
    ensures err { IfErr result (λ e. Refuses e (λ d. Ok d) bytes.now) }
{
    match lucid_json::value_of(alloc, bytes) {
        Ok(value) => Ok(value),
        Err(Unread::Memory) => Err(PlanError::Memory),
        Err(Unread::NotJson) => Err(PlanError::NotJson),
    }
}

/// Returns the fault of a key.
fn bad<T>(key: PlanKey) -> Result<T, PlanError>
    ensures value { Gives result (Err (key, None)) }
    ensures never { IfOk result (λ _. ⊥) }
{
    Err(PlanError::BadField { key, place: None })
}

/// Reads the pairs of a file's value for this many nodes.
#[tactic(auto, using(crate::proofs::Counted::none_ok))]
fn read_plan(alloc: Global, value: &Value, nodes: usize) -> Result<Items<(u32, u32)>, PlanError>
    ensures value { Gives result (plan_read nodes (view value.now)) }
    ensures count { IfOk result (λ pairs. length pairs ≡ nodes) }
{
    match members_in(value) {
        None => bad(PlanKey::File),
        Some(members) => {
            if all_known(members) {
                read_nodes(alloc, value, nodes)
            } else {
                bad(PlanKey::Other)
            }
        }
    }
}

/// Returns whether the file has no key but `nodes`.
fn all_known(members: &Map<String, Value>) -> bool
    ensures { result ≡ spec.all_known (members_view members.now.entries) }
{
    for (key, _) in members.iter() {
        if key.as_str() != "nodes" {
            return false;
        }
    }
    true
}

/// Returns the pairs of the list `nodes`.
#[tactic(auto, using(crate::proofs::Counted::none_ok))]
fn read_nodes(alloc: Global, value: &Value, nodes: usize) -> Result<Items<(u32, u32)>, PlanError>
    ensures value { Gives result (nodes_read nodes (option_and_then as_array (get (codes "nodes") (view value.now)))) }
    ensures count { IfOk result (λ pairs. length pairs ≡ nodes) }
{
    match get(value, "nodes") {
        None => bad(PlanKey::Nodes),
        Some(found) => match items_in(found) {
            None => bad(PlanKey::Nodes),
            Some(list) => counted(alloc, list, nodes),
        },
    }
}

/// Reads the pairs of a list of this length.
#[tactic(auto, using(crate::proofs::Counted::counted, crate::proofs::Counted::none_ok))]
fn counted(alloc: Global, values: &[Value], nodes: usize) -> Result<Items<(u32, u32)>, PlanError>
    ensures value { Gives result (nodes_read nodes (Some (items_view values.now))) }
    ensures count { IfOk result (λ pairs. length pairs ≡ nodes) }
{
    if values.len() == nodes {
        each_pair(alloc, values)
    } else {
        bad(PlanKey::Nodes)
    }
}

/// Returns the pairs of a list.
#[tactic(auto, using(crate::proofs::Counted::none_ok))]
fn each_pair(alloc: Global, values: &[Value]) -> Result<Items<(u32, u32)>, PlanError>
    ensures value { Gives result (pairs_from [] (items_view values.now)) }
    ensures count { IfOk result (λ pairs. length pairs ≡ length values.now) }
{
    let mut pairs = Items::new(alloc);
    for value in values {
        match pair(value) {
            None => return bad_at(pairs.len()),
            Some(pair) => pairs.push(pair)?,
        }
    }
    Ok(pairs)
}

/// Returns the fault of an item of the list.
fn bad_at<T>(place: usize) -> Result<T, PlanError>
    ensures value { Gives result (Err (Nodes, Some place)) }
    ensures never { IfOk result (λ _. ⊥) }
{
    match u32::try_from(place) {
        Ok(place) => Err(PlanError::BadField {
            key: PlanKey::Nodes,
            place: Some(place),
        }),
        // No memory holds this many items.
        Err(_) => Err(PlanError::Memory),
    }
}

/// `[stage, table]`
fn pair(item: &Value) -> Option<(u32, u32)>
    ensures { result ≡ spec.pair (view item.now) }
{
    let stage = small_at(item, 0)?;
    let table = small_at(item, 1)?;
    if at(item, 2).is_some() {
        return None;
    }
    Some((stage, table))
}

/// Returns the number below 2^32 at a place of a list.
fn small_at(item: &Value, place: usize) -> Option<u32>
    ensures { result ≡ spec.small_at place (view item.now) }
{
    let number = number_in(at(item, place)?)?;
    if number < 4_294_967_296 {
        Some(number as u32)
    } else {
        None
    }
}
