//! The status of a lock: inactive, or active until a moment or for ever.
ghost use Rattle.std.specs.Prelude.{◌≡◌, ◌≤◌, ◌^◌};
ghost use Rattle.wake_locks.specs.LockStatuses.{status_after, lasting_until, is_in_progress, end_or_never};

use crate::soonest::NEVER;
use sleep_model::SourceCall;

/// The status of a lock: whether an event is in progress on its source, and whether it ends by itself.
#[derive(Clone, Copy, Debug, PartialEq, Eq)]
pub enum LockStatus {
    /// No event is in progress.
    Inactive,
    /// One is, until it is unlocked.
    Endless,
    /// One is, until that moment in ms.
    Until(u64),
}

impl LockStatus {
    /// The status of a lock after a call on its source: a later, shorter timeout does not cut an earlier one.
    pub(crate) fn after(self, call: SourceCall, now: u64) -> LockStatus
        requires { now ≤ 2 ^ 63 }
        ensures { result ≡ status_after call now self }
    {
        match call {
            SourceCall::Awake => LockStatus::Endless,
            SourceCall::Event { ms, .. } => self.lasting_until(now + u64::from(ms)),
            SourceCall::Relax | SourceCall::Expire => LockStatus::Inactive,
        }
    }

    /// Its status after an event that ends at that moment.
    fn lasting_until(self, end: u64) -> LockStatus
        ensures { result ≡ lasting_until end self }
    {
        match self {
            LockStatus::Inactive | LockStatus::Endless => LockStatus::Until(end),
            LockStatus::Until(stands) => LockStatus::Until(end.max(stands)),
        }
    }

    /// Whether an event is in progress.
    pub(crate) fn is_in_progress(self) -> bool
        ensures { result ≡ is_in_progress self }
    {
        !matches!(self, LockStatus::Inactive)
    }

    /// When it ends by itself; never, if it does not.
    pub(crate) fn end_or_never(self) -> u64
        ensures { result ≡ end_or_never self }
    {
        match self {
            LockStatus::Until(end) => end,
            LockStatus::Inactive | LockStatus::Endless => NEVER,
        }
    }
}
