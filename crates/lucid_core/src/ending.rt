// How a block ends.

/// On which paths a block returns.
#[derive(Clone, Copy)]
pub enum Ending {
    Never,
    Sometimes,
    Always,
}
