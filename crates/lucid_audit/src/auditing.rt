// The audit of a placement.
ghost use Rattle.std.specs.Prelude.{◌≡◌, ◌<◌, ◌^◌, [], length, map, IfOk, IfErr};
ghost use Rattle.std.specs.List.{AllByRecursion};
ghost use Rattle.lucid_conf.specs.Kept.{AreLimits};
ghost use Rattle.lucid_stages.specs.Stage.{seats as seats_of};
ghost use Rattle.lucid_code.specs.Nodes.{nodes as nodes_of};
ghost use Rattle.lucid_stages.specs.NodeWorks.{works as works_of};
ghost use Rattle.lucid_stages.specs.Marks.{Within};
ghost use Rattle.lucid_stages.specs.Placing.{stage_code};
ghost use Rattle.lucid_audit.specs.Audit.{IsAudited, KeepsRules, pairs_of, stages as stages_of};
ghost use Rattle.lucid_audit.specs.Refused.{IsRefused, Breaks};

use crate::crowd::first_full;
use crate::early::first_early;
use crate::ranges::first_absent;
use crate::seating::seats;
use crate::staging::stages;
use crate::{AuditError, Plan, law};
use lucid_base::Memory;
use lucid_code::Code;
use lucid_conf::Limits;
use lucid_stages::{Seat, Stage, nodes, stage_codes, test_counts};
use lucid_tables::Placed;
use std::alloc::Global;

/// Places the code in the stages and tables of a plan. The caller guarantees a place for each node. Returns Ok exactly if the counts of the
/// code keep their limits and the places of its nodes keep the rules (`IsAudited` of specs/Audit). Otherwise it returns the first cause
/// (`IsRefused` of specs/Refused). By `Placed::code`, a pass through the stages has the effect of the code.
#[tactic(auto, using(crate::proofs::CountsRefuse::counts_refuse))]
pub fn audit(alloc: Global, code: Code, limits: &Limits, plan: &Plan) -> Result<Placed, AuditError>
    requires limits { AreLimits limits.now }
    requires pairs { length plan.now.pairs ≡ length (nodes_of code.ops) }
    ensures ok { IfOk result (IsAudited code limits.now (pairs_of plan.now.pairs)) }
    ensures err { IfErr result (IsRefused code limits.now (pairs_of plan.now.pairs)) }
{
    test_counts(alloc, &code, limits)?;
    let nodes = nodes(alloc, &code)?;
    let seats = seats(alloc, code.ops(), nodes.as_slice(), plan.pairs.as_slice())?;
    let stages = audited(alloc, &code, seats.as_slice(), limits)?;
    match placed(alloc, code, limits, seats.as_slice(), stages) {
        Ok(placed) => Ok(placed),
        Err(Memory) => Err(AuditError::Memory),
    }
}

/// Returns the stages of nodes at their places, if these keep the rules.
fn audited(
    alloc: Global,
    code: &Code,
    seats: &[Seat],
    limits: &Limits,
) -> Result<Vec<Stage>, AuditError>
    requires limits { AreLimits limits.now }
    requires few { length seats.now < 2 ^ 32 }
    requires ops { AllByRecursion (λ s. Within (length code.now.ops) s.node.ops) seats.now }
    requires writes { AllByRecursion (λ s. Within (length code.now.fields) s.node.writes) seats.now }
    ensures rules { IfOk result (λ stages. KeepsRules code.now.ops limits.now seats.now) }
    ensures stages { IfOk result (λ stages. stages.items ≡ stages_of code.now.ops limits.now seats.now) }
    ensures err { IfErr result (Breaks code.now.ops limits.now seats.now) }
{
    if let Some(node) = first_absent(seats, limits) {
        return Err(AuditError::Range(node));
    }
    if let Some(node) = first_early(alloc, seats, code.fields().len(), limits)? {
        return Err(AuditError::Early(node));
    }
    let stages = stages(alloc, code, seats, limits)?;
    if let Some(stage) = first_full(seats, limits) {
        return Err(AuditError::Arrays(stage));
    }
    Ok(stages)
}

/// Returns the placed code of nodes that keep the rules.
fn placed(
    alloc: Global,
    code: Code,
    limits: &Limits,
    seats: &[Seat],
    stages: Vec<Stage>,
) -> Result<Placed, Memory>
    requires limits { AreLimits limits.now }
    requires seats { (pairs : _) × (length pairs ≡ length (works_of code.ops)) × (seats.now ≡ seats_of (works_of code.ops) pairs) }
    requires rules { KeepsRules code.ops limits.now seats.now }
    requires stages { stages.items ≡ stages_of code.ops limits.now seats.now }
    ensures code { IfOk result (λ p. p.code ≡ code) }
    ensures stages { IfOk result (λ p. p.stages ≡ map (stage_code code.ops) (stages_of code.ops limits.now seats.now)) }
{
    law::products_act();
    law::products_name();
    law::guards_contradict();
    let stages = stage_codes(alloc, code.ops(), stages)?;
    Placed::new(alloc, code, stages)
}
