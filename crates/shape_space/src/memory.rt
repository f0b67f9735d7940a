//! Want of memory, as every crate above answers it.
//! What a refused call hands back is dropped, so nothing is kept here.
use std::alloc::{AllocError, AllocFailed};

/// Memory was wanted and there was none.
#[derive(Clone, Copy, Debug, PartialEq, Eq)]
pub struct NoMemory;

impl From<AllocError> for NoMemory {
    fn from(_e: AllocError) -> NoMemory {
        NoMemory
    }
}

impl<T: Drop> From<AllocFailed<T>> for NoMemory {
    fn from(_e: AllocFailed<T>) -> NoMemory {
        NoMemory
    }
}
