//! The journal of a machine in few bytes: entries in a row mostly share their moment and the word.

ghost use Rattle.std.specs.Prelude.{◌≡◌, ◌≤◌, ◌<◌, ◌+◌, ◌^◌, IfSome, length, vec_len, vec_capacity};
ghost use Rattle.sleep_model.specs.Journals.{IsShared, IsFound, IsOf, entry_of, moment_at};

use crate::entry::{Actor, Entry, JournalEntry, Kind};
use crate::word::{EventNow, Stamp};
use std::alloc::{AllocError, Global};
use std::marker::Model;

/// When entries in a row were made, in ms, the word that they saw, and the stamp of the first.
#[derive(Clone, Copy)]
pub(crate) struct Moment {
    time: u64,
    now: EventNow,
    stamp: Stamp,
}

/// An entry: the number of its moment, how many ticks it comes after that moment's first, who made it, and
/// what it was.
#[derive(Clone, Copy)]
pub(crate) struct Recorded {
    moment: u32,
    ticks: u32,
    actor: Actor,
    kind: Kind,
}

/// The entries made so far, with places reserved for more. Contracts see the entries, the newest first.
#[derive(Drop)]
pub struct Journal {
    moments: Vec<Moment>,
    made: Vec<Recorded>,
    room: usize,
}

impl Model for Journal {
    ghost use Rattle.sleep_model.specs.Journals.{JournalRoom};

    ghost Value = { JournalRoom };

    ghost use Rattle.sleep_model.specs.JournalFields.{journal_room, JournalInvariant};

    ghost view = { journal_room };

    ghost invariant = { JournalInvariant };
}

/// How many ticks an entry comes after the first of that moment, if it is of that moment.
#[inline(always)]
fn ticks_after(moment: Moment, one: JournalEntry) -> Option<u32>
    ensures { IfSome result (λ ticks. IsShared moment one ticks) }
{
    let JournalEntry { stamp, entry } = one;
    if moment.time != entry.time || moment.now != entry.now || moment.stamp.pos != stamp.pos {
        return None;
    }
    let first = moment.stamp.tick;
    if stamp.tick < first || stamp.tick - first > u64::from(u32::MAX) {
        return None;
    }
    Some((stamp.tick - first) as u32)
}

/// The entry's moment, the last or a new one, and how many ticks the entry comes after its first.
#[inline(always)]
#[tactic(auto, using(crate::proofs::Journals::found_last, crate::proofs::Journals::found_new))]
fn found(moments: &mut Vec<Moment>, one: JournalEntry) -> (u32, u32)
    requires room { vec_len moments.old < vec_capacity moments.old }
    requires few { length moments.old.items + 1 < 2 ^ 32 }
    ensures found { IsFound one moments.old.items moments.new.items result.0 result.1 }
    ensures len { vec_len moments.new ≤ vec_len moments.old + 1 }
    ensures capacity { vec_capacity moments.new ≡ vec_capacity moments.old }
    ensures small { one.stamp.tick < 2 ^ 64 }
{
    let count = moments.len();
    if count > 0 {
        if let Some(ticks) = ticks_after(moments[count - 1], one) {
            return (count as u32 - 1, ticks);
        }
    }
    moments.push_reserved(Moment {
        time: one.entry.time,
        now: one.entry.now,
        stamp: one.stamp,
    });
    (count as u32, 0)
}

/// The entry that was made so.
#[inline(always)]
pub(crate) fn entry_at(moments: &[Moment], made: &Recorded) -> JournalEntry
    requires { IsOf moments.now made.now }
    ensures { result ≡ entry_of (moment_at moments.now made.now.moment) made.now }
{
    let Moment { time, now, stamp } = moments[made.moment as usize];
    JournalEntry {
        stamp: Stamp {
            pos: stamp.pos,
            tick: stamp.tick + u64::from(made.ticks),
        },
        entry: Entry {
            time,
            now,
            actor: made.actor,
            kind: made.kind,
        },
    }
}

impl Journal {
    ghost use Rattle.std.specs.Prelude.{◌≡◌, ◌≤◌, ◌<◌, ◌+◌, ◌-◌, ◌^◌, [], ◌∷◌, length, reverse, IsOk, OnOk, OnErr};
    ghost use Rattle.sleep_model.specs.Journals.{items_of, AreOf};

    /// An empty journal without a reserved place.
    pub fn new(alloc: Global) -> Self
        ensures { result ≡ record { past = []; room = 0 } }
    {
        Journal {
            moments: Vec::new(alloc),
            made: Vec::new(alloc),
            room: 0,
        }
    }

    /// Sees that at least `journal_room` places are reserved. After an error nothing has changed.
    pub fn reserve(&mut self, journal_room: usize) -> Result<(), AllocError>
        ensures past { self.new.past ≡ self.old.past }
        ensures room { self.old.room ≤ self.new.room }
        ensures ok { OnOk result (journal_room ≤ self.new.room) }
        ensures enough { journal_room ≤ self.old.room → IsOk result }
        ensures err { OnErr result (self.new ≡ self.old) }
    {
        if self.room < journal_room {
            // A moment's number has to fit.
            if u32::MAX as usize - self.moments.len() <= journal_room {
                return Err(AllocError);
            }
            self.moments.reserve(journal_room)?;
            self.made.reserve(journal_room)?;
            self.room = journal_room;
        }
        Ok(())
    }

    /// How many entries there are. A vector has fewer than 2^63.
    pub fn len(&self) -> usize
        ensures len { result ≡ length self.now.past }
        ensures small { result < 2 ^ 63 }
    {
        self.made.len()
    }

    /// How many places are reserved.
    pub fn room(&self) -> usize
        ensures room { result ≡ self.now.room }
        ensures small { result < 2 ^ 63 }
    {
        self.room
    }

    /// Appends an entry in a reserved place.
    #[inline(always)]
    pub fn put(&mut self, one: JournalEntry)
        requires { 0 < self.old.room }
        ensures { self.new ≡ record { past = one ∷ self.old.past; room = self.old.room - 1 } }
    {
        let (moment, ticks) = found(&mut self.moments, one);
        let Entry { actor, kind, .. } = one.entry;
        self.made.push_reserved(Recorded {
            moment,
            ticks,
            actor,
            kind,
        });
        self.room -= 1;
    }

    /// Reads the entries with their stamps, the oldest first.
    pub fn reader(&self) -> JournalReader<'_>
        ensures { result ≡ reverse self.now.past }
    {
        JournalReader {
            moments: self.moments.as_slice(),
            made: self.made.as_slice(),
        }
    }

    /// The moments, and the entries of them, the oldest first.
    pub(crate) fn moments_and_entries(&self) -> (&[Moment], &[Recorded])
        ensures items { items_of result.0.now result.1.now ≡ reverse self.now.past }
        ensures kept { AreOf result.0.now result.1.now }
    {
        (self.moments.as_slice(), self.made.as_slice())
    }
}

/// Reads the entries of a journal with their stamps, each once. Contracts see what is left.
#[derive(Drop)]
pub struct JournalReader<'a> {
    moments: &'a [Moment],
    made: &'a [Recorded],
}

impl<'a> Model for JournalReader<'a> {
    ghost use Rattle.std.specs.Prelude.{List};
    ghost use Rattle.sleep_model.specs.declared.entry.JournalEntry.{JournalEntry};
    ghost use Rattle.sleep_model.specs.Journals.{items_of, AreOf};

    ghost Value = { List JournalEntry };

    ghost view = { λ r. items_of r.moments.now r.made.now };

    ghost invariant = { λ r. AreOf r.moments.now r.made.now };
}

impl<'a> JournalReader<'a> {
    ghost use Rattle.std.specs.Prelude.{◌≡◌, [], ◌∷◌, MatchOption, slice_get};

    /// The next entry, which stays the next. `None` at the end.
    #[inline(always)]
    pub fn peek(&self) -> Option<JournalEntry>
        ensures { result ≡ slice_get self.now 0 }
    {
        match self.made.first() {
            Some(made) => Some(entry_at(self.moments, made)),
            None => None,
        }
    }

    /// The next entry. `None` at the end.
    #[inline(always)]
    pub fn next(&mut self) -> Option<JournalEntry>
        ensures { MatchOption result ((self.old ≡ []) × (self.new ≡ self.old)) (λ e. self.old ≡ e ∷ self.new) }
    {
        let (first, rest) = self.made.split_first()?;
        let entry = entry_at(self.moments, first);
        self.made = rest;
        Some(entry)
    }
}
