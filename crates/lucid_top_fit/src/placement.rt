// The parts of an audit: counts, the places that a file gives, and the placed code that they make.
ghost use Rattle.std.specs.Prelude.{◌≡◌, IfOk, OnOk, length};
ghost use Rattle.lucid_code.specs.Nodes.{nodes as nodes_of};
ghost use Rattle.lucid_conf.specs.Kept.{AreLimits};
ghost use Rattle.lucid_stages.specs.Counts.{CountsFit};
ghost use Rattle.lucid_normal_spec.specs.Stands.{StandsFor};
ghost use Rattle.lucid_pass_spec.specs.Replace.{MayReplace};
ghost use Rattle.lucid_top_fit.specs.Fit.{normal_of};
ghost use Rattle.lucid_top_fit.specs.Placing.{IsAudited, IsCounted, IsPlan};
ghost use Rattle.lucid_top_words.specs.Outcome.{Prepares};

use crate::causes::{of_audit, of_count, of_plan};
use crate::law;
use lucid_audit::{Plan, audit, plan_of};
use lucid_code::Code;
use lucid_conf::Limits;
use lucid_core::Core;
use lucid_stages::{nodes, test_counts};
use lucid_tables::Placed;
use lucid_top_words::Refusal;
use std::alloc::Global;

/// Returns whether the counts of a program's code keep their limits (`IsCounted` of specs/Placing); `NoFit` with the first that doesn't.
pub fn counted(alloc: Global, core: &Core, limits: &Limits, code: &Code) -> Result<(), Refusal>
    ensures counted { Prepares (IsCounted core.now limits.now code.now) (λ _. code.now) result }
    ensures counts { OnOk result (CountsFit code.now limits.now) }
{
    law::layouts_are_one();
    match test_counts(alloc, code, limits) {
        Ok(()) => Ok(()),
        Err(error) => {
            let cause = of_count(alloc, core, error)?;
            Err(cause)
        }
    }
}

/// Returns the places that a placement file gives for the nodes of the code (`IsPlan` of specs/Placing); `Placement` with the first fault
/// of the file.
pub fn plan(alloc: Global, text: &[u8], code: &Code) -> Result<Plan, Refusal>
    ensures plan { Prepares (IsPlan text.now (length (nodes_of code.now.ops))) (λ plan. plan) result }
    ensures pairs { IfOk result (λ plan. length plan.pairs ≡ length (nodes_of code.now.ops)) }
{
    let nodes = nodes(alloc, code)?;
    match plan_of(alloc, text, nodes.len()) {
        Ok(plan) => Ok(plan),
        Err(error) => Err(of_plan(error)),
    }
}

/// Audits these places (`IsAudited` of specs/Placing), for code that may replace the program's normal form and whose counts keep their
/// limits; `Placement` with the first rule that the places break. The placed code has at every event the effect of the program.
pub fn audited(
    alloc: Global,
    core: &Core,
    limits: &Limits,
    code: Code,
    plan: &Plan,
) -> Result<Placed, Refusal>
    requires limits { AreLimits limits.now }
    requires replaces { MayReplace (normal_of core.now) code }
    requires counts { CountsFit code limits.now }
    requires pairs { length plan.now.pairs ≡ length (nodes_of code.ops) }
    ensures audited { Prepares (IsAudited limits.now code plan.now) (λ p. p) result }
    ensures stands { IfOk result (λ p. StandsFor p.code core.now) }
    ensures arrays { IfOk result (λ p. p.code.arrays ≡ core.now.arrays) }
    ensures stages { IfOk result (λ p. length p.stages ≡ limits.now.stages) }
{
    law::audits_are_one();
    law::code_stands(core);
    match audit(alloc, code, limits, plan) {
        Ok(placed) => Ok(placed),
        Err(error) => Err(of_audit(error)),
    }
}
