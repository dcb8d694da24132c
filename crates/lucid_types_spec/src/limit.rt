// The limits on numbers of things.

/// The limit that a declaration exceeds.
#[derive(Clone, Copy, Debug, PartialEq, Eq)]
pub enum What {
    /// More than 64 arrays.
    Arrays,
    /// A function of more than 8 arrays.
    ArrayParameters,
    /// An event or a function of more than 8 values.
    ValueParameters,
    /// A `hash` of more than 8 values besides its seed, or a `printf` of more than 8.
    Arguments,
    /// A path with more than 8 events and prints.
    Outs,
    /// A `match` of more than 32 cases.
    Cases,
}
