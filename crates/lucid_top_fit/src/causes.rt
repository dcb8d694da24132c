// The refusals for the errors of the parts.
ghost use Rattle.std.specs.Prelude.{◌≡◌, IfOk};
ghost use Rattle.lucid_top_fit.specs.Causes.{array_name, of_audit, of_count, of_fit, of_inline, of_key, of_plan};

use lucid_audit::{AuditError, PlanError, PlanKey};
use lucid_base::{Id, Memory};
use lucid_core::Core;
use lucid_inline::InlineError;
use lucid_layout::FitError;
use lucid_stages::CountError;
use lucid_top_words::{BadPlacement, NoFit, Refusal};
use std::alloc::Global;

pub(crate) fn of_inline(error: InlineError) -> Refusal
    ensures { result ≡ of_inline error }
{
    match error {
        InlineError::TooMany { count, .. } => Refusal::NoFit(NoFit::Ops(count)),
        InlineError::TooLarge { size, .. } => Refusal::NoFit(NoFit::Size(size)),
        InlineError::Memory => Refusal::Memory,
    }
}

/// An array is reported by its name, which takes memory.
pub(crate) fn of_fit(alloc: Global, core: &Core, error: FitError) -> Result<Refusal, Memory>
    ensures { IfOk result (λ r. r ≡ of_fit core.now error) }
{
    match error {
        FitError::Ops(count) => Ok(Refusal::NoFit(NoFit::Ops(count))),
        FitError::Fields(bits) => Ok(Refusal::NoFit(NoFit::Bits(bits))),
        FitError::Arms(array) => {
            let name = array_name(alloc, core, array)?;
            Ok(Refusal::NoFit(NoFit::Arms(name)))
        }
        FitError::Node(node) => Ok(Refusal::NoFit(NoFit::Node(node))),
        FitError::Memory => Err(Memory),
    }
}

/// Why counts pass their limits.
pub(crate) fn of_count(alloc: Global, core: &Core, error: CountError) -> Result<Refusal, Memory>
    ensures { IfOk result (λ r. r ≡ of_count core.now error) }
{
    of_fit(alloc, core, FitError::from(error))
}

fn array_name(alloc: Global, core: &Core, array: u32) -> Result<Id, Memory>
    ensures { IfOk result (λ name. name ≡ array_name core.now array) }
{
    match core.arrays().get(array as usize) {
        None => Id::new(alloc, b""),
        Some(declared) => declared.name.copy(alloc),
    }
}

pub(crate) fn of_plan(error: PlanError) -> Refusal
    ensures { result ≡ of_plan error }
{
    match error {
        PlanError::NotJson => Refusal::Placement(BadPlacement::NotJson),
        PlanError::BadField { key, place } => of_key(key, place),
        PlanError::Memory => Refusal::Memory,
    }
}

fn of_key(key: PlanKey, place: Option<u32>) -> Refusal
    ensures { result ≡ of_key key place }
{
    match (key, place) {
        (PlanKey::File, _) => Refusal::Placement(BadPlacement::File),
        (PlanKey::Other, _) => Refusal::Placement(BadPlacement::Other),
        (PlanKey::Nodes, None) => Refusal::Placement(BadPlacement::Nodes),
        (PlanKey::Nodes, Some(item)) => Refusal::Placement(BadPlacement::Item(item)),
    }
}

/// The counts keep their limits, so that no cause of counts comes.
pub(crate) fn of_audit(error: AuditError) -> Refusal
    ensures { result ≡ of_audit error }
{
    match error {
        AuditError::Range(node) => Refusal::Placement(BadPlacement::Range(node)),
        AuditError::Early(node) => Refusal::Placement(BadPlacement::Early(node)),
        AuditError::Rows { stage, table } => {
            Refusal::Placement(BadPlacement::Rows { stage, table })
        }
        AuditError::Arrays(stage) => Refusal::Placement(BadPlacement::Arrays(stage)),
        AuditError::Ops(_) | AuditError::Fields(_) | AuditError::Arms(_) | AuditError::Memory => {
            Refusal::Memory
        }
    }
}
