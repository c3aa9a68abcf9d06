//! The answer if memory runs out.
use std::alloc::{AllocError, AllocFailed};

/// Memory was wanted and not given. Only a refusal is made into one, here, and it is not copied: who answers it was refused a
/// growth, or was handed the refusal.
#[derive(Debug, Drop, PartialEq, Eq)]
pub struct Memory {
    refused: (),
}

impl From<AllocError> for Memory {
    fn from(_: AllocError) -> Self {
        Memory { refused: () }
    }
}

impl<T: Drop> From<AllocFailed<T>> for Memory {
    fn from(_: AllocFailed<T>) -> Self {
        Memory { refused: () }
    }
}
