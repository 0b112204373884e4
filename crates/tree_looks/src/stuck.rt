//! Why a look has no answer.
use std::alloc::{AllocError, AllocFailed};

/// Why a look has no answer.
#[derive(Clone, Copy, Debug, PartialEq, Eq, Drop)]
pub(crate) enum Stuck {
    /// The corner does not close, or not within the bounds.
    Open,
    /// There is no memory.
    Memory,
}

impl From<AllocError> for Stuck {
    fn from(_: AllocError) -> Stuck {
        Stuck::Memory
    }
}

impl<T: Drop> From<AllocFailed<T>> for Stuck {
    fn from(_: AllocFailed<T>) -> Stuck {
        Stuck::Memory
    }
}
