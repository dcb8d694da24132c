// Why a placement is refused.
ghost use Rattle.std.specs.Prelude.{◌≡◌};
ghost use Rattle.lucid_audit.specs.declared.error.AuditError.TheVariants as error;
ghost use Rattle.lucid_audit.specs.Refused.{audit_error};

use lucid_base::Memory;
use lucid_stages::CountError;
use std::alloc::{AllocError, AllocFailed};

/// Why a placement is refused (`IsRefused` of specs/Refused), in the order in which the causes are tried.
#[derive(Clone, Copy)]
pub enum AuditError {
    /// The code has this many operations, more than 4,096.
    Ops(u64),
    /// A packet carries this many bits, more than `limits.bits`.
    Fields(u64),
    /// An array has more calls than `limits.arms`: the first such array.
    Arms(u32),
    /// The stage or the table of a node isn't there: the number of the first such node, from 0.
    Range(u32),
    /// A node is not in a stage above all nodes that write its reads: the number of the first such node.
    Early(u32),
    /// A table, or a product on the way to it, has more rows than `limits.rows`: the first such stage, and its first such table.
    Rows { stage: u32, table: u32 },
    /// A stage has more nodes that call an array than `limits.arrays`: the first such stage.
    Arrays(u32),
    /// Memory ran out.
    Memory,
}

impl From<CountError> for AuditError {
    ghost from_gives = { λ c e. e ≡ audit_error c };

    fn from(error: CountError) -> AuditError {
        match error {
            CountError::Ops(n) => AuditError::Ops(n),
            CountError::Fields(n) => AuditError::Fields(n),
            CountError::Arms(array) => AuditError::Arms(array),
            CountError::Memory => AuditError::Memory,
        }
    }
}

impl From<Memory> for AuditError {
    ghost from_gives = { λ _ e. e ≡ error.Memory };

    fn from(_error: Memory) -> AuditError {
        AuditError::Memory
    }
}

impl From<AllocError> for AuditError {
    ghost from_gives = { λ _ e. e ≡ error.Memory };

    fn from(_error: AllocError) -> AuditError {
        AuditError::Memory
    }
}

impl<T: Drop> From<AllocFailed<T>> for AuditError {
    ghost from_gives = { λ _ e. e ≡ error.Memory };

    fn from(_error: AllocFailed<T>) -> AuditError {
        AuditError::Memory
    }
}
