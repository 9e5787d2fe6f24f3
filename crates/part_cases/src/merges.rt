//! The one log of a journal and the sources' histories: `merge`, with `at LIST TIME POS TICK ENTRY` for each
//! entry, of the journal if the list is 0, else of that history of seven.

use crate::asked::{Words, after};
use crate::kinds::entry_of;
use crate::logs::{entry_at, say_times};
use crate::parts::CaseRunner;
use crate::reply::{CaseReply, Out, ReplyWord};
use log_merge::{merge, merge_journal, rises};
use sleep_base::Mem;
use sleep_model::{
    Entry, EntryList, Journal, JournalEntry, ListOf, SourceEntry, SourceList, Stamp,
};
use std::alloc::Global;

/// An entry, or a call on all so far.
#[derive(Clone, Copy)]
pub enum MergeCall {
    At,
    Rises,
    Merged,
    MergedKept,
}

/// The verb of each call.
pub const MERGE_CALLS: [(&str, MergeCall); 4] = [
    ("at", MergeCall::At),
    ("rises", MergeCall::Rises),
    ("merged", MergeCall::Merged),
    ("merged_kept", MergeCall::MergedKept),
];

/// An entry of a list, with its stamp.
#[derive(Clone, Copy)]
pub struct StampedEntry {
    list: u32,
    stamp: Stamp,
    entry: Entry,
}

/// The entries of the journal and of all histories.
#[derive(Drop)]
pub struct MergeCase {
    pub alloc: Global,
    pub made: Vec<StampedEntry>,
}

/// The entry that a line gives.
fn made_of(text: &str, out: &mut Out) -> StampedEntry {
    let words = Words::of(text);
    let (actor, kind) = entry_of(after(text, 4), out);
    StampedEntry {
        list: words.number(0),
        stamp: Stamp {
            pos: words.long(2),
            tick: words.long(3),
        },
        entry: entry_at(words.long(1), 0, actor, kind),
    }
}

impl MergeCase {
    /// The journal.
    fn journal(&self) -> Result<Vec<JournalEntry>, Mem> {
        let mut journal = Vec::new(self.alloc);
        for made in &self.made {
            let (stamp, entry) = (made.stamp, made.entry);
            if made.list == 0 {
                journal.push(JournalEntry { stamp, entry })?;
            }
        }
        Ok(journal)
    }

    /// A history.
    fn history(&self, number: u32) -> Result<SourceList, Mem> {
        let mut history = Vec::new(self.alloc);
        for made in &self.made {
            let (stamp, entry) = (made.stamp, made.entry);
            if made.list == number {
                history.push(SourceEntry { stamp, entry })?;
            }
        }
        Ok(ListOf::of_vec(history))
    }

    /// Seven histories, which may be empty.
    fn histories(&self) -> Result<Vec<SourceList>, Mem> {
        let mut histories = Vec::new(self.alloc);
        for number in 1..8u32 {
            histories.push(self.history(number)?)?;
        }
        Ok(histories)
    }
}

/// The one log of these.
fn merged(
    alloc: Global,
    journal: &[JournalEntry],
    histories: &[SourceList],
) -> Result<EntryList, Mem> {
    if !rises(journal) {
        return Err(Mem);
    }
    merge(alloc, journal, histories)
}

/// The one log of these, whose journal, of two entries, is held as a run holds it.
fn merged_preserved(
    alloc: Global,
    made: &[JournalEntry],
    histories: &[SourceList],
) -> Result<EntryList, Mem> {
    let [first, last] = made else {
        return Err(Mem);
    };
    if !rises(&[*first, *last]) {
        return Err(Mem);
    }
    let mut journal = Journal::new(alloc);
    journal.reserve(2)?;
    journal.put(*first);
    journal.put(*last);
    merge_journal(alloc, journal, histories)
}

/// Says the times of a log, and lets it go.
fn say_log(log: Result<EntryList, Mem>, out: &mut Out) -> CaseReply {
    match log {
        Ok(log) => {
            say_times(&log, out);
            CaseReply::Nothing
        }
        Err(_) => out.lack(),
    }
}

/// Says what a call on these lists answers.
fn say_call(
    alloc: Global,
    call: MergeCall,
    journal: &[JournalEntry],
    histories: &[SourceList],
    out: &mut Out,
) -> CaseReply {
    match call {
        MergeCall::Merged => say_log(merged(alloc, journal, histories), out),
        MergeCall::MergedKept => say_log(merged_preserved(alloc, journal, histories), out),
        _ => CaseReply::One(ReplyWord::Flag(rises(journal))),
    }
}

impl MergeCase {
    /// Says what a call on the lists answers.
    fn call(&self, call: MergeCall, out: &mut Out) -> Result<CaseReply, Mem> {
        let journal = self.journal()?;
        let histories = self.histories()?;
        Ok(say_call(self.alloc, call, &journal, &histories, out))
    }
}

impl CaseRunner<MergeCall> for MergeCase {
    /// Takes an entry, or answers a call.
    fn answer(&mut self, call: MergeCall, rest: &str, out: &mut Out) -> CaseReply {
        if matches!(call, MergeCall::At) {
            let made = made_of(rest, out);
            return out.check(self.made.push(made));
        }
        match self.call(call, out) {
            Ok(reply) => reply,
            Err(_) => out.lack(),
        }
    }
}
