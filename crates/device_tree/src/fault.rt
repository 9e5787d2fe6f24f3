//! Why a device is not registered.

ghost use Rattle.std.specs.Prelude.{◌≡◌};
ghost use Rattle.device_tree.specs.declared.fault.TreeFault.TheVariants as fault;

use sleep_base::Mem;
use std::alloc::{AllocError, AllocFailed};
use thiserror::Error;

/// Why a device was not registered.
#[derive(Clone, Copy, Debug, PartialEq, Eq, Error)]
pub enum TreeFault {
    /// There are as many devices as a machine may have.
    #[error("as many devices stand as a machine may have")]
    TooMany,
    /// There is a device of this name.
    #[error("a device of this name stands")]
    NameTaken,
    /// The parent is not registered yet.
    #[error("the parent is not registered yet")]
    NoParent,
    /// Memory ran out.
    #[error("out of memory")]
    Mem,
}

impl From<Mem> for TreeFault {
    ghost from_gives = { λ _ e. e ≡ fault.Mem };

    fn from(_failed: Mem) -> TreeFault {
        TreeFault::Mem
    }
}

impl From<AllocError> for TreeFault {
    ghost from_gives = { λ _ e. e ≡ fault.Mem };

    fn from(_failed: AllocError) -> TreeFault {
        TreeFault::Mem
    }
}

impl<T: Drop> From<AllocFailed<T>> for TreeFault {
    ghost from_gives = { λ _ e. e ≡ fault.Mem };

    fn from(_failed: AllocFailed<T>) -> TreeFault {
        TreeFault::Mem
    }
}
