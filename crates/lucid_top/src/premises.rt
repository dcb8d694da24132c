// The premises of the headline, beside what the commands accept. Nothing runs.
ghost use Rattle.lucid_top.specs.PremisesLaws.{AuditsAreExact, FitsAreExact, ProgramsAreExact, SettingsAreExact};

/// A law: the premises of the headline say what the commands accept, no more and no less.
pub fn premises_are_exact()
    ensures programs { ProgramsAreExact }
    ensures settings { SettingsAreExact }
    ensures fits { FitsAreExact }
    ensures audits { AuditsAreExact }
{}
