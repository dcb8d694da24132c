// Why a program is refused.
use lucid_base::{ArrayName, Memory};

/// Why a program is refused.
#[derive(Drop)]
pub enum OrderError {
    /// Function or handler `decl`, counted among all declarations from 1, is the first that isn't in order. In its cycle no name occurs
    /// twice, each is needed before the next and the last before the first, and the earliest comes first.
    NoOrder { decl: u32, cycle: Vec<ArrayName> },
    /// Memory ran out.
    Memory,
}

impl From<Memory> for OrderError {
    ghost use Rattle.std.specs.Prelude.{◌≡◌};
    ghost use Rattle.lucid_effects.specs.declared.error.OrderError.TheVariants as errors;

    ghost from_gives = { λ _ e. e ≡ errors.Memory };

    fn from(_memory: Memory) -> OrderError {
        OrderError::Memory
    }
}
