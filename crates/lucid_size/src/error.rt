// Why a text has no expansion.
ghost use Rattle.std.specs.Prelude.{◌≡◌};
ghost use Rattle.lucid_size.specs.declared.error.SizeError.TheVariants as errors;

use lucid_base::Id;
use std::alloc::{AllocError, AllocFailed};

/// Why a text has no expansion. The causes are tried in this order.
#[derive(Drop)]
pub enum SizeError {
    /// A template has no name before its first `{`, no `{`, or no `}` that closes it. Its `fun` is the token with this number, from 1.
    Broken(usize),
    /// Two templates have this name, the first that an earlier template has.
    Twice { name: Id },
    /// The expanded text has more than 8,388,608 bytes.
    TooBig,
    /// Memory ran out.
    Memory,
}

impl From<lucid_base::Memory> for SizeError {
    ghost from_gives = { λ _ e. e ≡ errors.Memory };

    fn from(_error: lucid_base::Memory) -> SizeError {
        SizeError::Memory
    }
}

impl<T: Drop> From<AllocFailed<T>> for SizeError {
    ghost from_gives = { λ _ e. e ≡ errors.Memory };

    fn from(_error: AllocFailed<T>) -> SizeError {
        SizeError::Memory
    }
}

impl From<AllocError> for SizeError {
    ghost from_gives = { λ _ e. e ≡ errors.Memory };

    fn from(_error: AllocError) -> SizeError {
        SizeError::Memory
    }
}
