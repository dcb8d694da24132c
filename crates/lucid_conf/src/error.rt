// Why a file gives nothing.
ghost use Rattle.std.specs.Prelude.{◌≡◌};
ghost use Rattle.lucid_conf.specs.declared.error.ConfError.TheVariants as error;

use crate::Key;
use lucid_base::Memory;
use std::alloc::{AllocError, AllocFailed};

/// Why a limits file or a scenario gives nothing.
#[derive(Clone, Copy)]
pub enum ConfError {
    /// The bytes are no JSON: not UTF-8, no JSON value, or more than 127 lists and objects within one another.
    NotJson,
    /// The first key that fails, in the order of the table, and if that key is a list with a bad item the number of the first such item, from 0.
    BadField { key: Key, place: Option<u32> },
    /// Memory ran out.
    Memory,
}

impl From<Memory> for ConfError {
    ghost from_gives = { λ _ e. e ≡ error.Memory };

    fn from(_error: Memory) -> ConfError {
        ConfError::Memory
    }
}

impl From<AllocError> for ConfError {
    ghost from_gives = { λ _ e. e ≡ error.Memory };

    fn from(_error: AllocError) -> ConfError {
        ConfError::Memory
    }
}

impl<T: Drop> From<AllocFailed<T>> for ConfError {
    ghost from_gives = { λ _ e. e ≡ error.Memory };

    fn from(_error: AllocFailed<T>) -> ConfError {
        ConfError::Memory
    }
}
