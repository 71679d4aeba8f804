use std::alloc::{AllocError, AllocFailed};
use thiserror::Error;

/// Want of memory, the one answer that every call may give that takes some.
#[derive(Clone, Copy, Debug, PartialEq, Eq, Error)]
#[error("out of memory; free some and try again")]
pub struct Memory;

impl From<AllocError> for Memory {
    fn from(_error: AllocError) -> Memory {
        Memory
    }
}

impl<T: Drop> From<AllocFailed<T>> for Memory {
    fn from(_error: AllocFailed<T>) -> Memory {
        Memory
    }
}
