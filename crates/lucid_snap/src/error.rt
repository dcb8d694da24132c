// Why a drive with a snapshot stops.
ghost use Rattle.std.specs.Prelude.{◌≡◌};
ghost use Rattle.lucid_snap.specs.declared.error.SnapError.TheVariants as error;

use lucid_base::Memory as WantOfMemory;
use lucid_io::WriteFault as Fault;

/// Why a drive with a snapshot stops.
#[derive(Clone, Copy, Debug, PartialEq, Eq)]
pub enum SnapError {
    /// A write of the sink failed.
    WriteFault,
    /// Memory for the snapshot was refused.
    Memory,
}

impl From<WantOfMemory> for SnapError {
    ghost from_gives = { λ _ e. e ≡ error.Memory };

    fn from(_error: WantOfMemory) -> SnapError {
        SnapError::Memory
    }
}

impl From<Fault> for SnapError {
    ghost from_gives = { λ _ e. e ≡ error.WriteFault };

    fn from(_error: Fault) -> SnapError {
        SnapError::WriteFault
    }
}
