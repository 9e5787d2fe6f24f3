//! The named locks of a process, in the order of their names.
use crate::answer::{LockAnswer, LockFault, answered};
use crate::floors::{Floors, ROW};
use crate::lock::{Lock, LockStats};
use crate::soonest::{NEVER, Soonest};
use crate::text::{lock_text, unlock_text};
use sleep_base::Mem;
use sleep_model::{ListOf, Name, SourceCall, Stats};
use std::alloc::Global;
use std::cmp::Ordering;
use std::marker::Model;
use std::sync::Wait;

/// How many names are known at most (`CONFIG_PM_WAKELOCKS_LIMIT`).
pub const MOST_LOCKS: usize = 100;

/// Names, in order.
pub type NameList = ListOf<Name>;

/// The locks that user space has named, each a wakeup source with a history of at most `CAP` entries
/// (`kernel/power/wakelock.c`, `wakelocks_tree`). Contracts see them in the order of their names.
#[derive(Drop)]
pub struct WakeLocks<const CAP: usize> {
    alloc: Global,
    locks: Vec<Lock<CAP>>,
    /// No lock ends by itself before this moment.
    soonest: u64,
    /// Nor one of a row before its moment.
    floors: Floors,
}

impl<const CAP: usize> Model for WakeLocks<CAP> {
    ghost use Rattle.std.specs.Prelude.{List};
    ghost use Rattle.wake_locks.specs.Locks.{LockState};

    ghost Value = { List LockState };

    ghost use Rattle.wake_locks.specs.LockFields.{AreLocks};

    ghost view = { λ w. w.locks.items };

    ghost invariant = { λ w. AreLocks CAP w.soonest w.floors.moments w.locks.items };
}

ghost use Rattle.std.specs.Prelude.{◌≡◌, ◌≢◌, ◌≤◌, ◌<◌, ◌+◌, ◌*◌, ◌^◌, min, ℕ, List, [], Ok, Err, None, length, slice_index_or, OnOk, OnErr, IfOk, IfErr, IfSome, option_map, map};
ghost use Rattle.wake_locks.specs.Counted.{AllAgree, lock_stats};
ghost use Rattle.sleep_model.specs.Sources.{most_entries, stats_at};
ghost use Rattle.wake_locks.specs.declared.answer.LockAnswer.TheVariants as LockAnswer;
ghost use Rattle.wake_locks.specs.declared.answer.LockFault.TheVariants as LockFault;
ghost use Rattle.wakeup_source.specs.SourceStates.{latest};
ghost use Rattle.wake_locks.specs.declared.status.LockStatus.TheVariants as LockStatus;
ghost use Rattle.wake_locks.specs.Expiries.{IsAdvance, next_due};
ghost use Rattle.wake_locks.specs.LockFields.{IsLockAt, IsGapFor, IsMeant, IsSoonest, MatchDue, NoOtherEndsBefore, NoneEndsWithin, index_and_end};
ghost use Rattle.wake_locks.specs.LockStatuses.{never};
ghost use Rattle.wake_locks.specs.Locks.{LockState, new_lock, lock_after_call, put, find, names_of, AreBefore, AreSortedByName, ExpiriesAreDue};
ghost use Rattle.wake_locks.specs.Writes.{asked_lock, asked_unlock, on_lock, WriteEnded};

impl<const CAP: usize> WakeLocks<CAP> {
    /// No lock is known.
    pub fn new(alloc: Global) -> Self
        requires { CAP ≤ most_entries }
        ensures { result ≡ [] }
    {
        WakeLocks {
            alloc,
            locks: Vec::new(alloc),
            soonest: NEVER,
            floors: Floors::new(),
        }
    }

    /// The index of the lock of that name, or the one that it would get.
    fn index_of(&self, name: &Name) -> Result<usize, usize>
        ensures found { IfOk result (IsLockAt name.now self.now) }
        ensures absent { IfErr result (IsGapFor name.now self.now) }
    {
        let mut low = 0;
        let mut high = self.locks.len();
        while low < high {
            let middle = low + (high - low) / 2;
            match self.locks[middle].cmp_name(name) {
                Ordering::Less => low = middle + 1,
                Ordering::Equal => return Ok(middle),
                Ordering::Greater => high = middle,
            }
        }
        Err(low)
    }

    /// A write to `wake_lock` (`pm_wake_lock`). After a fault all is as before.
    pub fn wake_lock<R: Wait>(
        &mut self,
        rt: &R,
        text: &[u8],
        now: u64,
    ) -> Result<LockAnswer, LockFault>
        requires timely { ExpiriesAreDue now self.old }
        requires small { now ≤ 2 ^ 63 }
        ensures ended { WriteEnded CAP (asked_lock text.now self.old) now self.old self.new result }
        ensures timely { ExpiriesAreDue now self.new }
    {
        let Some((name, call)) = lock_text(text) else {
            return Ok(LockAnswer::BadText);
        };
        match self.index_of(&name) {
            Ok(at) => self.call_at(rt, at, call, now),
            Err(at) => self.call_new(rt, at, name, call, now),
        }
    }

    /// A write to `wake_unlock` (`pm_wake_unlock`). After a fault all is as before.
    pub fn wake_unlock<R: Wait>(
        &mut self,
        rt: &R,
        text: &[u8],
        now: u64,
    ) -> Result<LockAnswer, LockFault>
        requires timely { ExpiriesAreDue now self.old }
        requires small { now ≤ 2 ^ 63 }
        ensures ended { WriteEnded CAP (asked_unlock text.now self.old) now self.old self.new result }
        ensures timely { ExpiriesAreDue now self.new }
    {
        let Some(name) = unlock_text(text) else {
            return Ok(LockAnswer::BadText);
        };
        match self.index_of(&name) {
            Ok(at) => self.call_at(rt, at, SourceCall::Relax, now),
            Err(_) => Ok(LockAnswer::BadText),
        }
    }

    /// A call on the lock there. After a fault all is as before.
    fn call_at<R: Wait>(
        &mut self,
        rt: &R,
        at: usize,
        call: SourceCall,
        now: u64,
    ) -> Result<LockAnswer, LockFault>
        requires in_range { at < length self.old }
        requires time { (d : LockState) → latest (slice_index_or self.old at d).own ≤ now }
        requires small { now ≤ 2 ^ 63 }
        requires meant { (d : LockState) → IsMeant call now (slice_index_or self.old at d).status }
        ensures { (d : LockState) → WriteEnded CAP
            (Ok (record { lock = slice_index_or self.old at d; made = call })) now self.old self.new result }
    {
        let lock = &mut self.locks[at];
        let made = lock.call(rt, call, now);
        let end = lock.end_or_never();
        self.soonest = self.soonest.min(end);
        self.floors.lower(at / ROW, end);
        answered(made)
    }

    /// A call on a new lock, which goes there, unless as many are known as may be. After a fault all is as
    /// before.
    fn call_new<R: Wait>(
        &mut self,
        rt: &R,
        at: usize,
        name: Name,
        call: SourceCall,
        now: u64,
    ) -> Result<LockAnswer, LockFault>
        requires gap { IsGapFor name self.old at }
        requires small { now ≤ 2 ^ 63 }
        requires meant { IsMeant call now LockStatus.Inactive }
        ensures { WriteEnded CAP (on_lock name call (length self.old) None) now self.old self.new result }
    {
        if self.locks.len() >= MOST_LOCKS {
            return Ok(LockAnswer::NoSpace);
        }
        let mut lock = Lock::new(self.alloc, name);
        match lock.call(rt, call, now) {
            Ok(()) => self.insert(at, lock),
            Err(fault) => Err(fault),
        }
    }

    /// Puts a new lock there. If there is no memory, all is as before.
    fn insert(&mut self, at: usize, lock: Lock<CAP>) -> Result<LockAnswer, LockFault>
        requires gap { IsGapFor lock.name self.old at }
        requires few { length self.old < 100 }
        ensures ok { OnOk result (self.new ≡ put lock.entry self.old) }
        ensures err { OnErr result (self.new ≡ self.old) }
        ensures answer { result ≢ Err LockFault.Mem → result ≡ Ok LockAnswer.Done }
    {
        self.locks.reserve(1)?;
        let end = lock.end_or_never();
        if self.locks.insert(at, lock).is_err() {
            unreachable!()
        }
        self.soonest = self.soonest.min(end);
        self.floors = Floors::new();
        Ok(LockAnswer::Done)
    }

    /// Makes each expiry up to that moment at its own, those of one moment by name (`pm_wakeup_timer_fn`).
    /// After a fault those that were made stay.
    pub fn advance<R: Wait>(&mut self, rt: &R, to: u64) -> Result<(), LockFault>
        requires time { AreBefore to self.old }
        requires small { to ≤ 2 ^ 63 }
        ensures ended { IsAdvance CAP to self.old self.new result }
        ensures time { AreBefore to self.new }
        ensures timely { OnOk result (ExpiriesAreDue to self.new) }
    {
        let many = self.locks.len();
        for _ in 0..many {
            let Some(found) = self.next_due(to) else {
                return Ok(());
            };
            self.call_at(rt, found.at, SourceCall::Expire, found.end)?;
            self.soonest = found.others;
        }
        Ok(())
    }

    /// The lock that ends first by that moment, the first by name of those that end together. No lock is
    /// looked at before one may end.
    fn next_due(&mut self, to: u64) -> Option<Soonest>
        requires small { to ≤ 2 ^ 63 }
        ensures same { self.new ≡ self.old }
        ensures found { MatchDue self.old (next_due to self.old) (option_map index_and_end result) }
        ensures others { IfSome result (λ found. NoOtherEndsBefore found.others found.at self.old) }
        ensures few { IfSome result (λ found. found.others ≤ never) }
        ensures ordered { AreSortedByName self.old }
    {
        if to < self.soonest {
            return None;
        }
        let found = self.first_to_end(to);
        if to < found.end {
            self.soonest = found.end.min(found.others);
            return None;
        }
        Some(found)
    }

    /// The lock that ends first, if one ends by that moment.
    fn first_to_end(&mut self, to: u64) -> Soonest
        requires { to < never }
        ensures same { self.new ≡ self.old }
        ensures first { IsSoonest to self.old 0 result }
    {
        let many = self.locks.len();
        let mut row = (many + (ROW - 1)) / ROW;
        let mut found = Soonest {
            at: many,
            end: NEVER,
            others: NEVER,
        };
        while row > 0 {
            row -= 1;
            found = self.past_row(to, row, found);
        }
        found
    }

    /// The same with the locks of a row, which come before the others. No lock is looked at if none of the
    /// row ends by that moment.
    fn past_row(&mut self, to: u64, row: usize, found: Soonest) -> Soonest
        requires small { to < never }
        requires in_range { row * 8 < length self.old }
        requires after { IsSoonest to self.old (min (row * 8 + 8) (length self.old)) found }
        ensures same { self.new ≡ self.old }
        ensures first { IsSoonest to self.old (row * 8) result }
    {
        let floor = self.floors.of_row(row);
        if to < floor {
            return found.with_floor(floor);
        }
        let from = row * ROW;
        let until = self.locks.len().min(from + ROW);
        let (found, least) = self.with_row(from, until, found);
        self.floors.set_row(row, least);
        found
    }

    /// The same with the locks between two indices, which come before the others, and a moment before which
    /// none of these ends.
    fn with_row(&self, from: usize, until: usize, after: Soonest) -> (Soonest, u64)
        requires ordered { from ≤ until }
        requires in_range { until ≤ length self.now }
        ensures first { (to : ℕ) → to < never → IsSoonest to self.now until after → IsSoonest to self.now from result.0 }
        ensures least { NoneEndsWithin result.1 from until self.now }
    {
        let mut at = until;
        let mut found = after;
        let mut least = NEVER;
        while at > from {
            at -= 1;
            let lock = &self.locks[at];
            let end = lock.end_or_never();
            found = found.with_lock(at, end);
            least = least.min(end);
        }
        (found, least)
    }

    /// The names of the locks that are active, or of those that are not, in order (`pm_show_wakelocks`).
    pub fn names(&self, active: bool) -> Result<NameList, Mem>
        ensures { IfOk result (λ names. names ≡ names_of active self.now) }
    {
        let mut names = Vec::new(self.alloc);
        self.list_names(active, &mut names)?;
        Ok(ListOf::of_vec(names))
    }

    /// The same in a list that is there, in place of what was in it. After an error it has some of them.
    pub fn list_names(&self, active: bool, names: &mut Vec<Name>) -> Result<(), Mem>
        ensures { OnOk result (names.new.items ≡ names_of active self.now) }
    {
        names.clear();
        for lock in &self.locks {
            if lock.is_as_asked(active) {
                names.push(lock.name())?;
            }
        }
        Ok(())
    }

    /// What is counted of each known lock at that moment, in the order of their names. Each agrees with its
    /// source's entries.
    pub fn all_stats(&self, now: u64) -> Result<Vec<LockStats>, Mem>
        requires time { AreBefore now self.now }
        requires small { now ≤ 2 ^ 63 }
        ensures lock_stats { IfOk result (λ all. all.items ≡ map (lock_stats now) self.now) }
        ensures agree { OnOk result (AllAgree self.now) }
    {
        let mut all = Vec::new(self.alloc);
        for lock in &self.locks {
            all.push(lock.lock_stats(now))?;
        }
        Ok(all)
    }

    /// The statistics of that lock's source at that moment, if it is known (`print_wakeup_source_stats`).
    pub fn stats(&self, name: &Name, now: u64) -> Option<Stats>
        requires time { AreBefore now self.now }
        requires small { now ≤ 2 ^ 63 }
        ensures { result ≡ option_map (λ (lock : LockState). stats_at lock.own now) (find name.now self.now) }
    {
        match self.index_of(name) {
            Ok(at) => {
                let lock = &self.locks[at];
                Some(lock.stats(now))
            }
            Err(_) => None,
        }
    }
}
