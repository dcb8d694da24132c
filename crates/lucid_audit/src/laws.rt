// Laws of all placements. Nothing runs.
ghost use Rattle.lucid_audit.specs.Laws.{AuditsAreOne};

/// Places give one placed code, or one cause why they are refused.
#[tactic(auto, using(crate::proofs::OneAudit::audits_are_one))]
pub fn audits_are_one()
    ensures { AuditsAreOne }
{}
