// Why the counts of code pass limits.
ghost use Rattle.std.specs.Prelude.{◌≡◌};
ghost use Rattle.lucid_stages.specs.declared.count_error.CountError.TheVariants as error;

use lucid_base::Memory;

/// Why the counts of code pass limits (`CountsFail` of specs/Counts), in the order in which the causes are tried.
#[derive(Clone, Copy)]
pub enum CountError {
    /// The code has this many operations, more than 4,096.
    Ops(u64),
    /// A packet carries this many bits, more than `limits.bits`.
    Fields(u64),
    /// An array has more calls than `limits.arms`: the first such array.
    Arms(u32),
    /// Memory ran out.
    Memory,
}

impl From<Memory> for CountError {
    ghost from_gives = { λ _ e. e ≡ error.Memory };

    fn from(_error: Memory) -> CountError {
        CountError::Memory
    }
}
