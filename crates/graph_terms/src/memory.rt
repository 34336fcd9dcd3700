//! Want of memory.
use std::alloc::{AllocError, AllocFailed};
use thiserror::Error;

/// Memory was refused, or a count would have passed the greatest number of its type.
#[derive(Clone, Copy, Debug, PartialEq, Eq, Error)]
#[error("memory was refused, or a count would have passed the greatest number of its type")]
pub struct Memory;

impl<T: Drop> From<AllocFailed<T>> for Memory {
    fn from(_failed: AllocFailed<T>) -> Memory {
        Memory
    }
}

impl From<AllocError> for Memory {
    fn from(_refused: AllocError) -> Memory {
        Memory
    }
}
