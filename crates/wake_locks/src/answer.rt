//! What a call on named locks answers, and why it fails.
ghost use Rattle.std.specs.Prelude.{◌≡◌};
ghost use Rattle.wake_locks.specs.Writes.{answered};

use sleep_model::Name;
use std::alloc::AllocError;

/// What a write to `wake_lock` or `wake_unlock` answers.
#[derive(Clone, Copy, Debug, PartialEq, Eq)]
pub enum LockAnswer {
    /// The call was made.
    Done,
    /// The text is of no form, or names no lock (`EINVAL`).
    BadText,
    /// As many names are known as may be (`ENOSPC`).
    NoSpace,
}

/// Why a call on a lock's source was not made.
#[derive(Clone, Copy, Debug, PartialEq, Eq)]
pub enum LockFault {
    /// The history of that lock's source has fewer than four places left.
    Full(Name),
    /// There was no memory.
    Mem,
}

impl From<AllocError> for LockFault {
    ghost use Rattle.wake_locks.specs.declared.answer.LockFault.TheVariants.{Mem};
    ghost use Rattle.std.specs.Prelude.{◌≡◌};

    ghost from_gives = { λ _ e. e ≡ Mem };

    fn from(_: AllocError) -> Self {
        LockFault::Mem
    }
}

/// The answer to a call that was made, or its fault.
pub(crate) fn answered(made: Result<(), LockFault>) -> Result<LockAnswer, LockFault>
    ensures { result ≡ answered made }
{
    match made {
        Ok(()) => Ok(LockAnswer::Done),
        Err(fault) => Err(fault),
    }
}
