// Out of memory: the one error that every allocating call may return.
use std::alloc::{AllocError, AllocFailed};

/// Memory ran out. No clause ties this answer to a refused growth.
#[derive(Clone, Copy, Debug, PartialEq, Eq)]
pub struct Memory;

impl From<AllocError> for Memory {
    fn from(_error: AllocError) -> Memory {
        Memory
    }
}

impl<T: Drop> From<AllocFailed<T>> for Memory {
    fn from(_error: AllocFailed<T>) -> Memory {
        Memory
    }
}
