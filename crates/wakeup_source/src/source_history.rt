//! The history of a source and what is counted of it.
use crate::call_by::CallBy;
use crate::kinds::{note_of, step_of};
use crate::reserved_places::Entries;
use crate::tally::Tally;
use sleep_model::{
    Entry, EventNow, SourceCall, SourceEntry, SourceList, Stamp, Stats, WordKind, pos,
};
use std::alloc::{AllocError, Global};
use std::marker::Model;

/// The history of a wakeup source, and what is counted of it. Between a call's note and its last step
/// it owes steps.
#[derive(Drop)]
pub(crate) struct SourceHistory {
    id: u32,
    entries: Entries,
    tally: Tally,
    /// What the source last knew.
    floor: Stamp,
}

impl Model for SourceHistory {
    ghost use Rattle.wakeup_source.specs.SourceHistories.{SourceHistoryState};

    ghost Value = { SourceHistoryState };

    ghost use Rattle.wakeup_source.specs.SourceHistoryFields.{source_history_view, IsSourceHistory};

    ghost view = { source_history_view };

    ghost invariant = { IsSourceHistory };
}

impl SourceHistory {
    ghost use Rattle.std.specs.Prelude.{◌≡◌, ◌≤◌, ◌<◌, ◌+◌, ◌^◌, length, reverse, is_some, OnOk, OnErr};
    ghost use Rattle.sleep_model.specs.Sources.{expiry, has_expired, since, stats_at};
    ghost use Rattle.wakeup_source.specs.SourceHistories.{HasRoomFor, after_noting, stepped};
    ghost use Rattle.wakeup_source.specs.SourceStates.{new_source, unstamped_source, latest, later_stamp};

    /// The history of a source that was never called.
    pub(crate) fn new(alloc: Global, id: u32) -> Self
        ensures { result ≡ record { source = new_source id; room = 0 } }
    {
        SourceHistory {
            id,
            entries: Entries::new(alloc),
            tally: Tally::new(),
            floor: Stamp { pos: 0, tick: 0 },
        }
    }

    /// Sees that at least `places` places are reserved. After an error nothing has changed.
    pub(crate) fn reserve(&mut self, places: usize) -> Result<(), AllocError>
        ensures source { self.new.source ≡ self.old.source }
        ensures ok { OnOk result (places ≤ self.new.room) }
        ensures err { OnErr result (self.new ≡ self.old) }
    {
        self.entries.reserve(places)
    }

    /// How many entries there are, fewer than 2^63.
    #[inline(always)]
    pub(crate) fn len(&self) -> usize
        ensures len { result ≡ length self.now.source.past }
        ensures small { result < 2 ^ 63 }
    {
        self.entries.len()
    }

    /// The entries, the oldest first.
    pub(crate) fn as_slice(&self) -> &[SourceEntry]
        ensures { reverse result.now ≡ self.now.source.past }
    {
        self.entries.as_slice()
    }

    /// The entries, the oldest first.
    pub(crate) fn into_list(self) -> SourceList
        ensures { reverse result ≡ self.source.past }
    {
        let SourceHistory { entries, .. } = self;
        entries.into_list()
    }

    /// What the source last knew.
    #[inline(always)]
    pub(crate) fn floor(&self) -> Stamp
        ensures { result ≡ self.now.source.floor }
    {
        self.floor
    }

    /// Raises what the source last knew, number by number.
    pub(crate) fn raise(&mut self, floor: Stamp)
        ensures { self.new ≡ record self.old {
          source = record self.old.source { floor = later_stamp self.old.source.floor floor };
        } }
    {
        self.floor = Stamp {
            pos: self.floor.pos.max(floor.pos),
            tick: self.floor.tick.max(floor.tick),
        };
    }

    /// Whether an event is in progress.
    #[inline(always)]
    pub(crate) fn is_active(&self) -> bool
        ensures { result ≡ is_some (since (unstamped_source self.now.source.past)) }
    {
        self.tally.since.is_some()
    }

    /// When it ends by itself, if it does.
    pub(crate) fn expiry(&self) -> Option<u64>
        ensures { result ≡ expiry (unstamped_source self.now.source.past) }
    {
        self.tally.expiry
    }

    /// Whether that moment has come.
    pub(crate) fn has_expired(&self, now: u64) -> bool
        ensures { result ≡ has_expired (expiry (unstamped_source self.now.source.past)) now }
    {
        self.tally.has_expired(now)
    }

    /// The statistics at that moment.
    pub(crate) fn stats(&self, now: u64) -> Stats
        requires time { latest (unstamped_source self.now.source.past) ≤ now }
        requires small { now ≤ 2 ^ 63 }
        ensures { result ≡ stats_at (unstamped_source self.now.source.past) now }
    {
        self.tally.stats(now)
    }

    /// Appends the note of a call that saw that word.
    #[inline(always)]
    pub(crate) fn note(&mut self, by: CallBy, call: SourceCall, seen: EventNow)
        requires { HasRoomFor 1 by self.old }
        ensures { self.new ≡ after_noting by call seen self.old }
    {
        let stamp = Stamp {
            pos: pos(seen),
            tick: by.floor.tick.max(self.floor.tick) + 1,
        };
        let entry = Entry {
            time: by.now,
            now: seen,
            actor: by.actor,
            kind: note_of(self.id, call),
        };
        self.tally.note(call, by.now);
        self.floor = stamp;
        self.entries.put(SourceEntry { stamp, entry });
    }

    /// Appends a step of the call on the word, with the word before it.
    #[inline(always)]
    pub(crate) fn step(&mut self, by: CallBy, step: WordKind, before: EventNow)
        requires { HasRoomFor 1 by self.old }
        ensures { self.new ≡ stepped by step before self.old }
    {
        let stamp = Stamp {
            pos: pos(before),
            tick: self.floor.tick + 1,
        };
        let entry = Entry {
            time: by.now,
            now: before,
            actor: by.actor,
            kind: step_of(self.id, step),
        };
        self.tally.step(step, by.now);
        self.floor = Stamp {
            pos: stamp.pos + 1,
            tick: stamp.tick,
        };
        self.entries.put(SourceEntry { stamp, entry });
    }
}
