//! The lock that ends first of those seen so far.
ghost use Rattle.std.specs.Prelude.{◌≡◌};
ghost use Rattle.wake_locks.specs.LockFields.{with_floor, with_lock};

/// The moment at which a lock ends that does not end by itself.
pub(crate) const NEVER: u64 = u64::MAX;

/// Which of some locks ends first by itself.
#[derive(Clone, Copy, Debug, PartialEq, Eq)]
pub(crate) struct Soonest {
    /// Its index: of those that end together the first by name.
    pub(crate) at: usize,
    /// When it ends.
    pub(crate) end: u64,
    /// No other of them ends before this moment, looked at or not.
    pub(crate) others: u64,
}

impl Soonest {
    /// The same with one more lock, which comes before the others and ends at that moment.
    pub(crate) fn with_lock(self, at: usize, end: u64) -> Soonest
        ensures { result ≡ with_lock at end self }
    {
        if end <= self.end {
            return Soonest {
                at,
                end,
                others: self.others.min(self.end),
            };
        }
        Soonest {
            at: self.at,
            end: self.end,
            others: self.others.min(end),
        }
    }
    /// The same with locks that were not looked at, of which none ends before that moment.
    pub(crate) fn with_floor(self, floor: u64) -> Soonest
        ensures { result ≡ with_floor floor self }
    {
        Soonest {
            others: self.others.min(floor),
            ..self
        }
    }
}
