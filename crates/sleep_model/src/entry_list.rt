//! The entries of a log, most of which are stored as they are in a journal.

use crate::entry::{Entry, JournalEntry};
use crate::journal::{Journal, Moment, Recorded, entry_at};
use std::alloc::{AllocError, Global};
use std::marker::Model;

/// An entry that is not the journal's, and how many of the journal come before it.
#[derive(Clone, Copy)]
pub struct OtherEntry {
    pub before: usize,
    pub entry: Entry,
}

/// Entries in the order of a log. Contracts see the plain list; a journal's are stored as they are, so that a
/// log needs no second copy of them.
#[derive(Drop)]
pub struct EntryList {
    journal: Journal,
    others: Vec<OtherEntry>,
}

impl Model for EntryList {
    ghost use Rattle.std.specs.Prelude.{List, reverse};
    ghost use Rattle.sleep_model.specs.declared.entry.Entry.{Entry};
    ghost use Rattle.sleep_model.specs.Interleaved.{interleaved};

    ghost Value = { List Entry };

    ghost view = { λ l. interleaved 0 (reverse l.journal.past) l.others.items };
}

impl EntryList {
    ghost use Rattle.std.specs.Prelude.{◌≡◌, ◌++◌, ◌∷◌, [], length, reverse, OnOk, OnErr};
    ghost use Rattle.sleep_model.specs.Interleaved.{interleaved, unread};

    /// No entry.
    pub fn new(alloc: Global) -> Self
        ensures { result ≡ [] }
    {
        EntryList {
            journal: Journal::new(alloc),
            others: Vec::new(alloc),
        }
    }

    /// The entries of a journal, and others among them, each after as many of the journal as it says.
    pub fn of_journal(journal: Journal, others: Vec<OtherEntry>) -> Self
        ensures { result ≡ interleaved 0 (reverse journal.past) others.items }
    {
        EntryList { journal, others }
    }

    /// Puts an entry after all others. After an error nothing has changed.
    #[tactic(auto, using(crate::proofs::Interleaving::put_last))]
    pub fn push(&mut self, entry: Entry) -> Result<(), AllocError>
        ensures ok { OnOk result (self.new ≡ self.old ++ entry ∷ []) }
        ensures err { OnErr result (self.new ≡ self.old) }
    {
        let before = self.journal.len();
        self.others.push(OtherEntry { before, entry })?;
        Ok(())
    }

    /// How many entries there are.
    #[tactic(auto, using(crate::proofs::Interleaving::length_all))]
    pub fn len(&self) -> usize
        ensures { result ≡ length self.now }
    {
        self.journal.len() + self.others.len()
    }

    /// Reads the entries in order.
    pub fn reader(&self) -> EntryReader<'_>
        ensures { unread result ≡ self.now }
    {
        let (moments, made) = self.journal.moments_and_entries();
        EntryReader {
            passed: 0,
            moments,
            made,
            others: self.others.as_slice(),
        }
    }
}

/// Reads the entries of a list in order, each once. Contracts see what is left.
#[derive(Drop)]
pub struct EntryReader<'a> {
    /// How many of the journal were read.
    passed: usize,
    moments: &'a [Moment],
    made: &'a [Recorded],
    others: &'a [OtherEntry],
}

impl<'a> Model for EntryReader<'a> {
    ghost use Rattle.sleep_model.specs.Interleaved.{Unread};

    ghost Value = { Unread };

    ghost use Rattle.sleep_model.specs.ReaderFields.{unread_seen, AreReadable};

    ghost view = { unread_seen };

    ghost invariant = { AreReadable };
}

impl<'a> EntryReader<'a> {
    ghost use Rattle.std.specs.Prelude.{◌≡◌, ◌∷◌, [], true, MatchOption};
    ghost use Rattle.sleep_model.specs.Interleaved.{unread, is_ahead, is_journals_turn};

    /// Whether that one of the others comes before all that is left of the journal.
    #[inline(always)]
    fn is_ahead(&self, other: &OtherEntry) -> bool
        ensures { result ≡ is_ahead self.now.passed self.now.journal other.now }
    {
        self.made.is_empty() || other.before <= self.passed
    }

    /// The next entry, if it is the journal's. `None` at the end.
    #[inline(always)]
    #[tactic(auto, using(crate::proofs::Interleaving::read_journal, crate::proofs::Interleaving::read_none))]
    fn next_of_journal(&mut self) -> Option<Entry>
        requires { is_journals_turn self.old.passed self.old.journal self.old.others ≡ true }
        ensures { MatchOption result ((unread self.old ≡ []) × (self.new ≡ self.old)) (λ e. unread self.old ≡ e ∷ unread self.new) }
    {
        let (first, rest) = self.made.split_first()?;
        let JournalEntry { entry, .. } = entry_at(self.moments, first);
        self.made = rest;
        self.passed += 1;
        Some(entry)
    }

    /// The next entry. `None` at the end.
    #[inline(always)]
    #[tactic(auto, using(crate::proofs::Interleaving::read_other))]
    pub fn next(&mut self) -> Option<Entry>
        ensures { MatchOption result ((unread self.old ≡ []) × (self.new ≡ self.old)) (λ e. unread self.old ≡ e ∷ unread self.new) }
    {
        match self.others.split_first() {
            Some((other, rest)) if self.is_ahead(other) => {
                self.others = rest;
                Some(other.entry)
            }
            _ => self.next_of_journal(),
        }
    }
}
