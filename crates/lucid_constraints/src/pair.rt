// The constraint of a function on the order of arrays.
use lucid_base::ArrayName;

/// A place in a body: its start, or that after a call of an array.
#[derive(Clone, Copy, PartialEq)]
pub enum Atom {
    Start,
    After(ArrayName),
}

/// The place comes before the array.
#[derive(Clone, Copy, PartialEq)]
pub struct Pair {
    pub atom: Atom,
    pub array: ArrayName,
}
