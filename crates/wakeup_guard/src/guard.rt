//! The guard of an attempt: the saved count of events, and how many the attempt began with.
use sleep_base::Errno;
use sleep_model::{EventNow, FrozeEnd, Group, Kind, SkipCause};
use std::marker::Model;

/// The count that is in force, and the hard events that the last freeze of user tasks forgot. User
/// space sees the last `BITS` bits of the count of registered events, 1 to 24 (`saved_count`,
/// `events_check_enabled`, `pm_abort_suspend`).
#[derive(Drop)]
pub struct Guard<const BITS: u32> {
    force: Option<u32>,
    forgotten: u32,
}

impl<const BITS: u32> Model for Guard<BITS> {
    ghost use Rattle.std.specs.Prelude.{◌≤◌};
    ghost use Rattle.wakeup_guard.specs.Guarded.{Guarded};

    ghost Value = { Guarded };

    ghost view = { λ g. record { force = g.force; forgotten = g.forgotten } };

    ghost invariant = { λ _. (1 ≤ BITS) × (BITS ≤ 24) };
}

impl<const BITS: u32> Guard<BITS> {
    ghost use Rattle.std.specs.Prelude.{◌≡◌, ◌≤◌, if◌then◌else◌};
    ghost use Rattle.wakeup_guard.specs.Guarded.{visible_part, may_save, has_changed_count, is_wakeup_pending, tested, guarded_after};

    /// No count in force, and no hard event forgotten.
    pub fn new() -> Self
        requires { (1 ≤ BITS) × (BITS ≤ 24) }
        ensures { result ≡ record { force = None; forgotten = 0 } }
    {
        Guard {
            force: None,
            forgotten: 0,
        }
    }

    /// The count that user space sees (`pm_get_wakeup_count`).
    pub fn visible(&self, now: EventNow) -> u32
        ensures { result ≡ visible_part BITS now }
    {
        let _open = &self.force;
        now.count % (1 << BITS)
    }

    /// Saves a count. It is in force from now on exactly if it is the visible one and no event is in
    /// progress. Then the answer is true; else none is in force (`pm_save_wakeup_count`).
    pub fn save(&mut self, now: EventNow, c: u32) -> bool
        ensures answer { result ≡ may_save BITS now c }
        ensures after { self.new ≡ record self.old { force = if result then Some c else None } }
    {
        let saved = self.visible(now) == c && now.inpr == 0;
        self.force = if saved { Some(c) } else { None };
        saved
    }

    /// Whether a wakeup is pending. A count in force that has changed is dropped by the test
    /// (`pm_wakeup_pending`).
    pub fn pending(&mut self, now: EventNow) -> bool
        ensures answer { result ≡ is_wakeup_pending BITS self.old now }
        ensures after { self.new ≡ record self.old { force = tested BITS now self.old.force } }
    {
        let pending = self.is_pending(now);
        self.test(now);
        pending
    }

    /// Whether a wakeup is pending. Nothing changes.
    pub fn is_pending(&self, now: EventNow) -> bool
        ensures { result ≡ is_wakeup_pending BITS self.now now }
    {
        self.has_changed(now) || now.hard > self.forgotten
    }

    /// Forgets the hard events so far (`pm_wakeup_clear`). It is for a caller that has a guard without a
    /// journal: the core reports entries to a guard by `note`.
    pub fn clear_hard(&mut self, now: EventNow)
        ensures { self.new ≡ record self.old { forgotten = now.hard } }
    {
        self.forgotten = now.hard;
    }

    /// Drops the count in force, at the end of an attempt (`enter_state`, `events_check_enabled`).
    pub fn finish(&mut self)
        ensures { self.new ≡ record self.old { force = None } }
    {
        self.force = None;
    }

    /// The count in force.
    pub fn in_force(&self) -> Option<u32>
        ensures { result ≡ self.now.force }
    {
        self.force
    }

    /// What an entry that saw this word leaves. A save stores or drops a count, a test that found a wakeup
    /// drops one that has changed, a freeze of user tasks forgets the hard events.
    pub fn note(&mut self, kind: Kind, now: EventNow)
        ensures { self.new ≡ guarded_after BITS kind now self.old }
    {
        match kind {
            Kind::Saved(c) | Kind::AutoSaved(c) => self.force = Some(c),
            Kind::SaveErr(_, Errno::EINVAL) | Kind::AutoUnsaved(_) | Kind::Clear => self.force =
                None,
            Kind::Froze(_, FrozeEnd::Wakeup { .. })
            | Kind::Skip(_, _, SkipCause::Pending)
            | Kind::CpuBusy(_)
            | Kind::SyscoreCheck(Some(Errno::EBUSY))
            | Kind::Enter { busy: true } => self.test(now),
            Kind::Freeze(Group::User) => self.forgotten = now.hard,
            _ => (),
        }
    }

    /// Drops a count in force that has changed.
    fn test(&mut self, now: EventNow)
        ensures { self.new ≡ record self.old { force = tested BITS now self.old.force } }
    {
        if self.has_changed(now) {
            self.force = None;
        }
    }

    /// Whether a count is in force that has changed, or that sees an event in progress.
    fn has_changed(&self, now: EventNow) -> bool
        ensures { result ≡ has_changed_count BITS self.now.force now }
    {
        match self.force {
            None => false,
            Some(c) => self.visible(now) != c || now.inpr > 0,
        }
    }
}
