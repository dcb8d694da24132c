// The position of a piece of a text.

/// The bytes of a text from `start` up to, and not with, `end`; both count bytes from 0.
#[derive(Clone, Copy, PartialEq, Eq)]
pub struct Span {
    pub start: usize,
    pub end: usize,
}
