//! Why the rows cannot be run.
use sleep_base::{Failed, Mem};
use std::alloc::{AllocError, AllocFailed};

/// Why the rows end before their end.
#[derive(Clone, Copy)]
pub enum RowsFault {
    /// A line is of no form, or what belongs to it is missing.
    Form,
    /// What a row says could not be written.
    Write,
    /// There was no memory.
    Mem,
}

impl From<Mem> for RowsFault {
    ghost from_gives = { λ _ _. Unit {0} };

    fn from(_: Mem) -> Self {
        RowsFault::Mem
    }
}

impl From<AllocError> for RowsFault {
    ghost from_gives = { λ _ _. Unit {0} };

    fn from(_: AllocError) -> Self {
        RowsFault::Mem
    }
}

impl<T: Drop> From<AllocFailed<T>> for RowsFault {
    ghost from_gives = { λ _ _. Unit {0} };

    fn from(_: AllocFailed<T>) -> Self {
        RowsFault::Mem
    }
}

impl From<Failed> for RowsFault {
    ghost from_gives = { λ _ _. Unit {0} };

    fn from(_: Failed) -> Self {
        RowsFault::Write
    }
}
