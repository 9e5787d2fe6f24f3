//! Why a run gives nothing.

ghost use Rattle.std.specs.Prelude.{◌≡◌};
ghost use Rattle.world_workers.specs.declared.fault.RunFault.TheVariants as fault;

use sleep_base::Mem;
use sleep_core::CoreFault;
use std::alloc::AllocError;
use thiserror::Error;
use wakeup_source::SourceFault;

/// Why a run gives nothing, and why a task of a burst comes to no end of its own.
#[derive(Clone, Copy, Debug, PartialEq, Eq, Error)]
pub enum RunFault {
    /// The history of that source has no place left for a call.
    #[error("the history of wakeup source {0} has no place left for a call")]
    SourceFull(u32),
    /// There was no memory.
    #[error("out of memory")]
    Mem,
}

impl From<AllocError> for RunFault {
    ghost from_gives = { λ _ e. e ≡ fault.Mem };

    fn from(_: AllocError) -> Self {
        RunFault::Mem
    }
}

impl From<Mem> for RunFault {
    ghost from_gives = { λ _ e. e ≡ fault.Mem };

    fn from(_: Mem) -> Self {
        RunFault::Mem
    }
}

impl From<CoreFault> for RunFault {
    ghost from_gives = { λ _ e. e ≡ fault.Mem };

    fn from(_: CoreFault) -> Self {
        RunFault::Mem
    }
}

impl RunFault {
    ghost use Rattle.std.specs.Prelude.{◌≡◌};
    ghost use Rattle.world_workers.specs.Refused.{run_fault};

    /// Why a call on that source was refused.
    pub fn of_call(fault: SourceFault, source: u32) -> Self
        ensures { result ≡ run_fault fault source }
    {
        match fault {
            SourceFault::Full => RunFault::SourceFull(source),
            SourceFault::Mem => RunFault::Mem,
        }
    }
}

/// Which of two counts: out of memory before a full source, and the lesser source.
pub(crate) fn graver(one: Option<RunFault>, other: Option<RunFault>) -> Option<RunFault> {
    match (one, other) {
        (None, _) | (Some(RunFault::SourceFull(_)), Some(RunFault::Mem)) => other,
        (Some(RunFault::SourceFull(source)), Some(RunFault::SourceFull(less))) if less < source =>
            other,
        _ => one,
    }
}
