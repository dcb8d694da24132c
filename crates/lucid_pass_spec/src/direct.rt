// The test that the field of a comparison represents.

/// That a field equals a value.
#[derive(Clone, Copy)]
pub struct Test {
    pub field: u32,
    pub value: u64,
}
