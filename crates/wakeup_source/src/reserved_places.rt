//! The entries of a source, with room that is reserved before a call.
use sleep_model::{ListOf, SourceEntry, SourceList};
use std::alloc::{AllocError, Global};
use std::marker::Model;

/// The entries made so far, with places reserved for more.
#[derive(Drop)]
pub(crate) struct Entries {
    entries: Vec<SourceEntry>,
    room: usize,
}

impl Model for Entries {
    ghost use Rattle.std.specs.Prelude.{◌≤◌, ◌+◌, reverse, vec_len, vec_capacity};
    ghost use Rattle.wakeup_source.specs.SourceHistories.{HistoryRoom};

    ghost Value = { HistoryRoom };

    ghost view = { λ e. record { past = reverse e.entries.items; room = e.room } };

    ghost invariant = { λ e. vec_len e.entries + e.room ≤ vec_capacity e.entries };
}

impl Entries {
    ghost use Rattle.std.specs.Prelude.{◌≡◌, ◌≤◌, ◌<◌, ◌+◌, ◌-◌, ◌^◌, [], ◌∷◌, length, reverse, OnOk, OnErr};

    /// No entry and no reserved place.
    pub(crate) fn new(alloc: Global) -> Self
        ensures { result ≡ record { past = []; room = 0 } }
    {
        Entries {
            entries: Vec::new(alloc),
            room: 0,
        }
    }

    /// Sees that at least `reserved` places are reserved. After an error nothing has changed.
    pub(crate) fn reserve(&mut self, reserved: usize) -> Result<(), AllocError>
        ensures past { self.new.past ≡ self.old.past }
        ensures ok { OnOk result (reserved ≤ self.new.room) }
        ensures err { OnErr result (self.new ≡ self.old) }
    {
        if self.room < reserved {
            self.entries.reserve(reserved)?;
            self.room = reserved;
        }
        Ok(())
    }

    /// How many entries there are. A vector has fewer than 2^63.
    #[inline(always)]
    pub(crate) fn len(&self) -> usize
        ensures len { result ≡ length self.now.past }
        ensures small { result < 2 ^ 63 }
    {
        self.entries.len()
    }

    /// Appends an entry in a reserved place.
    #[inline(always)]
    pub(crate) fn put(&mut self, entry: SourceEntry)
        requires { 0 < self.old.room }
        ensures { self.new ≡ record { past = entry ∷ self.old.past; room = self.old.room - 1 } }
    {
        self.room -= 1;
        if self.entries.push(entry).is_err() {
            unreachable!()
        }
    }

    /// The entries, the oldest first.
    pub(crate) fn as_slice(&self) -> &[SourceEntry]
        ensures { reverse result.now ≡ self.now.past }
    {
        self.entries.as_slice()
    }
    /// The entries, the oldest first.
    pub(crate) fn into_list(self) -> SourceList
        ensures { reverse result ≡ self.past }
    {
        let Entries { entries, .. } = self;
        ListOf::of_vec(entries)
    }
}
