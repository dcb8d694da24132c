// The reason why a core is not inlined.
use lucid_base::Memory as NoMemory;

/// Why a core has no flat form here. Counts stop at the last `u64`.
#[derive(Clone, Copy)]
pub enum InlineError {
    /// The normal form has more ops than there is room for; at this handler, from 0, they pass it.
    TooMany { handler: u32, count: u64 },
    /// The flat form is larger than 262,144; at this handler, from 0, it passes that.
    TooLarge { handler: u32, size: u64 },
    /// Memory ran out.
    Memory,
}

impl From<NoMemory> for InlineError {
    ghost use Rattle.std.specs.Prelude.{◌≡◌};
    ghost use Rattle.lucid_inline.specs.declared.error.InlineError.TheVariants as errors;

    ghost from_gives = { λ _ e. e ≡ errors.Memory };

    fn from(_error: NoMemory) -> InlineError {
        InlineError::Memory
    }
}
