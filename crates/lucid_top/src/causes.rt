// Errors of a drive with a snapshot, as refusals of a call.
ghost use Rattle.std.specs.Prelude.{◌≡◌};
ghost use Rattle.lucid_top.specs.Causes as causes;

use lucid_snap::SnapError;
use lucid_top_words::Refusal;

/// Why a drive with a snapshot stops.
pub(crate) fn of_snap(error: SnapError) -> Refusal
    ensures { result ≡ causes.of_snap error }
{
    match error {
        SnapError::WriteFault => Refusal::WriteFault,
        SnapError::Memory => Refusal::Memory,
    }
}
