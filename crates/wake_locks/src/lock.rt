//! A named lock: its name, its status and its source.
use crate::answer::LockFault;
use crate::status::LockStatus;
use event_word::PlainEvents;
use sleep_model::{Actor, Name, SourceCall, Stamp, Stats};
use std::alloc::Global;
use std::cmp::Ordering;
use std::marker::Model;
use std::sync::Wait;
use wakeup_source::{CallBy, SourceFault, WakeSource};

/// What is counted of a lock: its name, and the statistics of its source.
#[derive(Clone, Copy, Debug, PartialEq, Eq)]
pub struct LockStats {
    /// The lock's name.
    pub name: Name,
    /// The statistics of its source.
    pub stats: Stats,
}

/// A lock: a name, and the wakeup source of that name (`struct wakelock`). Nobody looks at the event word
/// here, so each source moves one of its own.
#[derive(Drop)]
pub(crate) struct Lock<const CAP: usize> {
    name: Name,
    status: LockStatus,
    source: WakeSource<CAP>,
    events: PlainEvents,
}

impl<const CAP: usize> Model for Lock<CAP> {
    ghost use Rattle.wake_locks.specs.Locks.{LockState};

    ghost Value = { LockState };

    ghost use Rattle.wake_locks.specs.LockFields.{IsLock};
    ghost use Rattle.wakeup_source.specs.SourceStates.{unstamped_source};

    ghost view = { λ l. record { name = l.name; status = l.status; own = unstamped_source l.source.past } };

    ghost invariant = { λ l. IsLock l.status l.source l.events };
}

ghost use Rattle.std.specs.Prelude.{◌≡◌, ◌≤◌, ◌<◌, ◌+◌, ◌^◌, ◌↔◌, ℕ, List, true, Err, length, OnOk, OnErr, IfOk, Some, None};
ghost use Rattle.event_word.specs.Steps.{has_room_for_all};
ghost use Rattle.sleep_model.specs.Sources.{makes, since, most_entries, stats_at};
ghost use Rattle.wakeup_source.specs.declared.fault.SourceFault.TheVariants as SourceFault;
ghost use Rattle.wakeup_source.specs.SourceStates.{unstamped_source, latest};
ghost use Rattle.wakeup_source.specs.Shown.{MayCall};
ghost use Rattle.wake_locks.specs.declared.answer.LockFault.TheVariants.{Full};
ghost use Rattle.wake_locks.specs.Locks.{new_lock, lock_after_call, by_name, maker, is_as_asked};
ghost use Rattle.wake_locks.specs.LockFields.{IsNotBefore, GainsCall, IsMeant};
ghost use Rattle.wake_locks.specs.LockStatuses.{end_of, end_or_never};
ghost use Rattle.wake_locks.specs.Counted.{StatusAgrees, lock_stats};
ghost use Rattle.wake_locks.specs.Writes.{IsFull};

/// Who makes a call.
fn maker(call: SourceCall) -> Actor
    ensures { result ≡ maker call }
{
    match call {
        SourceCall::Expire => Actor::Timer(0),
        _ => Actor::Script(0),
    }
}

/// A call on a source.
fn make<R: Wait, const CAP: usize>(
    rt: &R,
    source: &mut WakeSource<CAP>,
    events: &mut PlainEvents,
    by: CallBy,
    call: SourceCall,
) -> Result<(), SourceFault>
    requires time { latest (unstamped_source source.old.past) ≤ by.now }
    requires small { by.now ≤ 2 ^ 63 }
    requires can { has_room_for_all events.old (makes call (since (unstamped_source source.old.past))) ≡ true }
    requires may { MayCall call (unstamped_source source.old.past) by.now }
    ensures made { OnOk result (GainsCall by call events.old events.new source.old source.new) }
    ensures full { (result ≡ Err SourceFault.Full) ↔ (CAP < length source.old.past + 4) }
    ensures err { OnErr result ((source.new ≡ source.old) × (events.new ≡ events.old)) }
{
    source.call(rt, events, by, call)?;
    Ok(())
}

impl<const CAP: usize> Lock<CAP> {
    /// A lock that was never called.
    pub(crate) fn new(alloc: Global, name: Name) -> Self
        requires { CAP ≤ most_entries }
        ensures { result ≡ new_lock name }
    {
        Lock {
            name,
            status: LockStatus::Inactive,
            source: WakeSource::new(alloc, 0),
            events: PlainEvents::new(),
        }
    }

    /// Its name.
    pub(crate) fn name(&self) -> Name
        ensures { result ≡ self.now.name }
    {
        self.name
    }

    /// How its name compares with that one.
    pub(crate) fn cmp_name(&self, name: &Name) -> Ordering
        ensures { result ≡ by_name self.now.name name.now }
    {
        self.name.bytes().cmp(name.bytes())
    }

    /// Whether an event is in progress, or whether none is, as is asked.
    pub(crate) fn is_as_asked(&self, active: bool) -> bool
        ensures { result ≡ is_as_asked active self.now }
    {
        if active {
            self.status.is_in_progress()
        } else {
            !self.status.is_in_progress()
        }
    }

    /// When it ends by itself, which is not before its last entry; never, if it does not.
    pub(crate) fn end_or_never(&self) -> u64
        ensures end { result ≡ end_or_never self.now.status }
        ensures following { IsNotBefore (latest self.now.own) (end_of self.now.status) }
    {
        self.status.end_or_never()
    }

    /// A call on its source. After a fault nothing has changed.
    pub(crate) fn call<R: Wait>(
        &mut self,
        rt: &R,
        call: SourceCall,
        now: u64,
    ) -> Result<(), LockFault>
        requires time { latest self.old.own ≤ now }
        requires small { now ≤ 2 ^ 63 }
        requires meant { IsMeant call now self.old.status }
        ensures done { OnOk result (self.new ≡ lock_after_call call now self.old) }
        ensures full { (name : List ℕ) → (result ≡ Err (Full name)) ↔ ((name ≡ self.old.name) × IsFull CAP self.old) }
        ensures err { OnErr result (self.new ≡ self.old) }
    {
        let floor = Stamp { pos: 0, tick: 0 };
        let by = CallBy {
            actor: maker(call),
            floor,
            now,
        };
        match make(rt, &mut self.source, &mut self.events, by, call) {
            Ok(()) => {
                self.status = self.status.after(call, now);
                Ok(())
            }
            Err(SourceFault::Full) => Err(LockFault::Full(self.name)),
            Err(SourceFault::Mem) => Err(LockFault::Mem),
        }
    }

    /// The statistics of its source at that moment.
    pub(crate) fn stats(&self, now: u64) -> Stats
        requires time { latest self.now.own ≤ now }
        requires small { now ≤ 2 ^ 63 }
        ensures { result ≡ stats_at self.now.own now }
    {
        self.source.stats(now)
    }

    /// What is counted of it at that moment.
    pub(crate) fn lock_stats(&self, now: u64) -> LockStats
        requires time { latest self.now.own ≤ now }
        requires small { now ≤ 2 ^ 63 }
        ensures is { result ≡ lock_stats now self.now }
        ensures agrees { StatusAgrees self.now }
    {
        LockStats {
            name: self.name,
            stats: self.stats(now),
        }
    }
}
