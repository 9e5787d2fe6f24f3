//! Why bytes are not read as the text of a log.
ghost use Rattle.std.specs.Prelude.{◌≡◌};
ghost use Rattle.log_text.specs.declared.fault.LogFault.TheVariants as fault;

use sleep_base::Mem;
use std::alloc::{AllocError, AllocFailed};
use thiserror::Error;

/// Why bytes were not read as a log.
#[derive(Clone, Copy, Debug, PartialEq, Eq, Error)]
pub enum LogFault {
    /// The first bad line, counted from 1: the grammar has no such line, or it is missing.
    #[error("line {0} is not of the log's grammar, or is missing")]
    Line(u32),
    /// Memory ran out, or the numbers of lines.
    #[error("out of memory")]
    Mem,
}

impl From<Mem> for LogFault {
    ghost from_gives = { λ _ e. e ≡ fault.Mem };

    fn from(_failed: Mem) -> LogFault {
        LogFault::Mem
    }
}

impl From<AllocError> for LogFault {
    ghost from_gives = { λ _ e. e ≡ fault.Mem };

    fn from(_failed: AllocError) -> LogFault {
        LogFault::Mem
    }
}

impl<T: Drop> From<AllocFailed<T>> for LogFault {
    ghost from_gives = { λ _ e. e ≡ fault.Mem };

    fn from(_failed: AllocFailed<T>) -> LogFault {
        LogFault::Mem
    }
}
