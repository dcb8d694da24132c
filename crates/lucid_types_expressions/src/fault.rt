// Why a tree has no core.
ghost use Rattle.std.specs.Prelude.{◌≡◌};
ghost use Rattle.lucid_types_expressions.specs.declared.fault.Fault.TheVariants as fault;

use lucid_base::Memory;
use std::alloc::{AllocError, AllocFailed};

/// No rule gives the tree a core, or memory ran out. Nothing ties `Memory` to a refused growth.
#[derive(Clone, Copy, Debug, PartialEq, Eq)]
pub enum Fault {
    NoRule,
    Memory,
}

impl From<AllocError> for Fault {
    ghost from_gives = { λ _ e. e ≡ fault.Memory };

    fn from(_error: AllocError) -> Fault {
        Fault::Memory
    }
}

impl<T: Drop> From<AllocFailed<T>> for Fault {
    ghost from_gives = { λ _ e. e ≡ fault.Memory };

    fn from(_error: AllocFailed<T>) -> Fault {
        Fault::Memory
    }
}

impl From<Memory> for Fault {
    ghost from_gives = { λ _ e. e ≡ fault.Memory };

    fn from(_error: Memory) -> Fault {
        Fault::Memory
    }
}
