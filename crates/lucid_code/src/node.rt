// The unit of placement.

/// An operation that calls no array, by its place in the list, or all calls of an array.
#[derive(Clone, Copy)]
pub enum Node {
    Pure(u32),
    Array(u32),
}
