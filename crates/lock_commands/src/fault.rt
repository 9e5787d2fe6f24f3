//! Why the lines of an input are not answered.

use sleep_base::Mem;
use sleep_model::Name;
use std::alloc::AllocError;
use wake_locks::LockFault;

/// Why lines are not answered.
#[derive(Clone, Copy, Debug, PartialEq, Eq)]
pub enum LinesFault {
    /// The line of that number, from 1, is the first of no form.
    Line(u32),
    /// A line's call, or an expiry, meets a lock of that name whose history has room for fewer than four
    /// entries.
    Full(Name),
    /// There was no memory.
    Mem,
}

impl From<AllocError> for LinesFault {
    ghost use Rattle.lock_commands.specs.declared.fault.LinesFault.TheVariants.{Mem};
    ghost use Rattle.std.specs.Prelude.{◌≡◌};

    ghost from_gives = { λ _ e. e ≡ Mem };

    fn from(_: AllocError) -> Self {
        LinesFault::Mem
    }
}

impl From<Mem> for LinesFault {
    ghost use Rattle.lock_commands.specs.declared.fault.LinesFault.TheVariants as fault;
    ghost use Rattle.std.specs.Prelude.{◌≡◌};

    ghost from_gives = { λ _ e. e ≡ fault.Mem };

    fn from(_: Mem) -> Self {
        LinesFault::Mem
    }
}

impl From<LockFault> for LinesFault {
    ghost use Rattle.lock_commands.specs.Steps.{fault_of};
    ghost use Rattle.std.specs.Prelude.{◌≡◌};

    ghost from_gives = { λ fault e. e ≡ fault_of fault };

    fn from(fault: LockFault) -> Self {
        match fault {
            LockFault::Full(name) => LinesFault::Full(name),
            LockFault::Mem => LinesFault::Mem,
        }
    }
}
