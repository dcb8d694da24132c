// First fit: each node in order takes the least place that it may have.
ghost use Rattle.std.specs.Prelude.{◌≡◌, ◌<◌, ◌^◌, None, Ok, [], length, IfOk, IfErr, IfSome};
ghost use Rattle.std.specs.List.{AllByRecursion};
ghost use Rattle.lucid_conf.specs.Kept.{AreLimits};
ghost use Rattle.lucid_layout.specs.Fit.{IsFirstFit};
ghost use Rattle.lucid_stages.specs.Stage.{laid, seats};
ghost use Rattle.lucid_stages.specs.Marks.{Within};
ghost use Rattle.lucid_layout.specs.Find.{Takes, TakesNone, Unplaced};

use crate::FitError;
use crate::filling::{Filling, bare_stages, empty_stages, sit};
use crate::find::find;
use lucid_base::{Items, Memory};
use lucid_code::Code;
use lucid_conf::Limits;
use lucid_stages::{Pair, Stage, Work, any_past, ends, floor_of, no_marks, node_table, raise};
use lucid_tables::Table;
use std::alloc::Global;

/// A place for each node, and the stages that then are.
#[derive(Drop)]
pub(crate) struct Layout {
    pub(crate) pairs: Items<Pair>,
    pub(crate) stages: Vec<Stage>,
}

/// Finds the least place that node number `at` may have, and its table then. `ends` has for each field the number behind the last node that
/// writes it, and `low` the first stage above all nodes that have their places and write it.
fn next(
    alloc: Global,
    code: &Code,
    node: &Work,
    at: u32,
    ends: &[u32],
    low: &[u32],
    stages: &mut Vec<Filling>,
    limits: &Limits,
) -> Result<Option<(Pair, Table)>, Memory>
    requires ops { Within (length code.now.ops) node.now.ops }
    requires stages { length stages.old.items ≡ limits.now.stages }
    ensures same { stages.new.items ≡ stages.old.items }
    ensures none { result ≡ Ok None → TakesNone code.now.ops limits.now ends.now low.now stages.old.items node.now at }
    ensures some { IfOk result (λ o. IfSome o (λ x. Takes code.now.ops limits.now ends.now low.now stages.old.items node.now at x.0 x.1)) }
{
    if any_past(ends, node.reads.as_slice(), at) {
        return Ok(None);
    }
    match node_table(alloc, code, node.ops.as_slice(), limits.rows as usize)? {
        None => Ok(None),
        Some(table) => {
            let low = floor_of(low, node.reads.as_slice());
            find(alloc, stages, low, node.is_array, &table, limits)
        }
    }
}

/// Returns the first fit of these nodes, or the first node that has no place.
pub(crate) fn fit(
    alloc: Global,
    code: &Code,
    nodes: &[Work],
    limits: &Limits,
) -> Result<Layout, FitError>
    requires ops { AllByRecursion (λ n. Within (length code.now.ops) n.ops) nodes.now }
    requires writes { AllByRecursion (λ n. Within (length code.now.fields) n.writes) nodes.now }
    requires few { length nodes.now < 2 ^ 32 }
    requires limits { AreLimits limits.now }
    ensures pairs { IfOk result (λ l. IsFirstFit code.now.ops limits.now [] nodes.now l.pairs) }
    ensures stages { IfOk result (λ l. l.stages.items ≡ laid code.now.ops limits.now (seats nodes.now l.pairs)) }
    ensures node { IfErr result (Unplaced code.now.ops limits.now nodes.now) }
{
    let fields = code.fields().len();
    let ends = ends(alloc, nodes, fields)?;
    let mut low = no_marks(alloc, fields)?;
    let mut stages = empty_stages(alloc, limits.stages)?;
    let mut pairs = Items::new(alloc);
    for (at, node) in nodes.iter().enumerate() {
        let at = at as u32;
        match next(
            alloc,
            code,
            node,
            at,
            ends.as_slice(),
            low.as_slice(),
            &mut stages,
            limits,
        )? {
            None => return Err(FitError::Node(at)),
            Some((pair, table)) => {
                sit(&mut stages, node.is_array, pair, table)?;
                raise(&mut low, node.writes.as_slice(), pair.stage + 1);
                pairs.push(pair)?;
            }
        }
    }
    let stages = bare_stages(alloc, stages)?;
    Ok(Layout { pairs, stages })
}
