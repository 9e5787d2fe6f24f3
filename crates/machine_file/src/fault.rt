//! Why a machine file gives no machine.
ghost use Rattle.std.specs.Prelude.{◌≡◌};
ghost use Rattle.machine_file.specs.declared.fault.MachineFault.TheVariants as fault;
ghost use Rattle.machine_file.specs.declared.fault.Stop.TheVariants as stop;

use sleep_base::Mem;
use std::alloc::{AllocError, AllocFailed};
use thiserror::Error;

/// Why no machine was read.
#[derive(Debug, Drop, Error)]
pub enum MachineFault {
    /// The bytes break a rule of the format: its number, 1 to 24, and the first place that does.
    #[error("rule {rule}: {place}")]
    Rule { rule: u8, place: String },
    /// Memory ran out.
    #[error("out of memory")]
    Mem,
}

impl From<AllocError> for MachineFault {
    ghost from_gives = { λ _ e. e ≡ fault.Mem };

    fn from(_failed: AllocError) -> MachineFault {
        MachineFault::Mem
    }
}

impl<T: Drop> From<AllocFailed<T>> for MachineFault {
    ghost from_gives = { λ _ e. e ≡ fault.Mem };

    fn from(_failed: AllocFailed<T>) -> MachineFault {
        MachineFault::Mem
    }
}

impl From<Mem> for MachineFault {
    ghost from_gives = { λ _ e. e ≡ fault.Mem };

    fn from(_failed: Mem) -> MachineFault {
        MachineFault::Mem
    }
}

/// Why reading stops: a rule is broken, or memory ran out.
#[derive(Clone, Copy)]
pub(crate) enum Stop {
    Broken,
    Mem,
}

impl<T: Drop> From<AllocFailed<T>> for Stop {
    ghost from_gives = { λ _ e. e ≡ stop.Mem };

    fn from(_failed: AllocFailed<T>) -> Stop {
        Stop::Mem
    }
}

impl From<AllocError> for Stop {
    ghost from_gives = { λ _ e. e ≡ stop.Mem };

    fn from(_failed: AllocError) -> Stop {
        Stop::Mem
    }
}

impl From<Mem> for Stop {
    ghost from_gives = { λ _ e. e ≡ stop.Mem };

    fn from(_failed: Mem) -> Stop {
        Stop::Mem
    }
}
