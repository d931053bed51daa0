use std::alloc::{AllocError, AllocFailed};

/// Want of memory: an allocation was refused. Nothing is merged with this answer, and a call that gives it leaves
/// what the caller lent as it was, unless the call says otherwise.
#[derive(Clone, Copy, Debug, PartialEq, Eq, Drop)]
pub struct OutOfMemory;

impl From<AllocError> for OutOfMemory {
    fn from(_error: AllocError) -> OutOfMemory {
        OutOfMemory
    }
}

impl<T: Drop> From<AllocFailed<T>> for OutOfMemory {
    fn from(_failed: AllocFailed<T>) -> OutOfMemory {
        OutOfMemory
    }
}
