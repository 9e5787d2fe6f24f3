//! The entries of a log, which has a journal and others, and what a log counts: `entries` and `counts`.

use crate::asked::Words;
use crate::kinds::kind_of;
use crate::parts::CaseRunner;
use crate::reply::{CaseReply, Out, ReplyWord};
use crate::spelled::Said;
use sleep_base::Mem;
use sleep_model::{
    Actor, Entry, EntryList, EventNow, Journal, JournalEntry, Kind, ListOf, Log, LogEnd,
    OtherEntry, Stamp,
};
use sleep_stats::{Counts, LastDev, count};
use std::alloc::Global;

/// An entry at that moment, after this number of hard events.
pub fn entry_at(time: u64, hard: u32, actor: Actor, kind: Kind) -> Entry {
    let now = EventNow {
        inpr: 0,
        count: 0,
        hard,
    };
    Entry {
        time,
        now,
        actor,
        kind,
    }
}

/// An entry of the journal, `made TIME HARD TICK`; another, `other BEFORE TIME`; how many entries the journal
/// has, and for how many there is room then; `times LAST`, the moments of all in order.
#[derive(Clone, Copy)]
pub enum EntryCall {
    Made,
    Other,
    Journal,
    Times,
}

/// The verb of each call.
pub const ENTRY_CALLS: [(&str, EntryCall); 4] = [
    ("made", EntryCall::Made),
    ("other", EntryCall::Other),
    ("journal", EntryCall::Journal),
    ("times", EntryCall::Times),
];

/// The entries of a journal, and the others.
#[derive(Drop)]
pub struct EntryCase {
    pub alloc: Global,
    pub made: Vec<JournalEntry>,
    pub others: Vec<OtherEntry>,
}

/// An entry of the journal, whose position is that of its hard events.
fn made_of(words: Words) -> JournalEntry {
    let hard = words.number(1);
    let stamp = Stamp {
        pos: u64::from(hard),
        tick: words.long(2),
    };
    JournalEntry {
        stamp,
        entry: entry_at(words.long(0), hard, Actor::Auto, Kind::Pass),
    }
}

/// Another entry, before that number of the journal's.
fn other_of(words: Words) -> OtherEntry {
    OtherEntry {
        before: words.number(0) as usize,
        entry: entry_at(words.long(1), 0, Actor::Auto, Kind::Pass),
    }
}

/// Puts entries into a journal that has room for each.
fn fill(journal: &mut Journal, made: &[JournalEntry]) {
    for one in made {
        if journal.room() > 0 {
            journal.put(*one);
        }
    }
}

/// A journal which has these entries, and room for no others.
fn journal_of(alloc: Global, made: &[JournalEntry]) -> Result<Journal, Mem> {
    let mut journal = Journal::new(alloc);
    journal.reserve(made.len())?;
    fill(&mut journal, made);
    Ok(journal)
}

/// Says the time of each entry of a list.
pub fn say_times(list: &EntryList, out: &mut Out) {
    let mut reader = list.reader();
    out.word(ReplyWord::Said(Said::Times));
    for _ in 0..list.len() {
        if let Some(entry) = reader.next() {
            out.word(ReplyWord::Long(entry.time));
        }
    }
    out.end();
}

impl EntryCase {
    /// The list of the journal and the others.
    fn list(&self) -> Result<EntryList, Mem> {
        let others = self.others.as_slice().to_vec(self.alloc)?;
        let journal = journal_of(self.alloc, &self.made)?;
        Ok(EntryList::of_journal(journal, others))
    }

    /// Says the moments of all in order, with one more entry at that moment after them.
    fn say_all(&self, last: u64, out: &mut Out) -> Result<(), Mem> {
        let mut list = self.list()?;
        let pushed = list.push(entry_at(last, 0, Actor::Auto, Kind::Pass));
        out.say(CaseReply::One(ReplyWord::Size(list.len())));
        say_times(&list, out);
        drop(list);
        Ok(pushed?)
    }
}

impl CaseRunner<EntryCall> for EntryCase {
    /// Answers a call on entries.
    fn answer(&mut self, call: EntryCall, rest: &str, out: &mut Out) -> CaseReply {
        let words = Words::of(rest);
        match call {
            EntryCall::Made => out.check(self.made.push(made_of(words))),
            EntryCall::Other => out.check(self.others.push(other_of(words))),
            EntryCall::Journal => match journal_of(self.alloc, &self.made) {
                Ok(journal) => CaseReply::Two(
                    ReplyWord::Size(journal.len()),
                    ReplyWord::Size(journal.room()),
                ),
                Err(_) => out.lack(),
            },
            EntryCall::Times => {
                let done = self.say_all(words.long(0), out);
                out.check(done)
            }
        }
    }
}

/// Adds an entry of a line.
fn push_line(entries: &mut EntryList, line: &str, out: &mut Out) {
    let entry = entry_at(0, 0, Actor::Script(0), kind_of(line, out));
    out.check(entries.push(entry));
}

/// A log with an entry of each line.
fn log_of(alloc: Global, lines: &str, out: &mut Out) -> Log {
    let mut entries = EntryList::new(alloc);
    for line in lines.split('\n') {
        push_line(&mut entries, line, out);
    }
    Log {
        entries,
        stats: ListOf::of_vec(Vec::new(alloc)),
        end: LogEnd::Finished,
    }
}

/// What a log counts, if it has few entries.
fn counted(log: &Log) -> Option<Counts> {
    (log.entries.len() <= u32::MAX as usize).then(|| count(log))
}

/// A device whose callback failed.
fn last_reply(last: Option<LastDev>) -> CaseReply {
    match last {
        Some(last) => CaseReply::Four(
            ReplyWord::Said(Said::Device),
            ReplyWord::Number(last.device),
            ReplyWord::Phase(last.phase),
            ReplyWord::Error(Some(last.error)),
        ),
        None => CaseReply::One(ReplyWord::Nothing),
    }
}

/// Says what a log counts: successes, failures, failed freezes, then failures of prepare, suspend, late,
/// noirq, resume, early and resume_noirq. After these come the errors of the last two attempts that failed,
/// and the last two devices.
fn say_counts(counts: &Counts, out: &mut Out) {
    out.list(&[counts.success, counts.fail, counts.failed_freeze]);
    out.list(&[
        counts.failed_prepare,
        counts.failed_suspend,
        counts.failed_suspend_late,
        counts.failed_suspend_noirq,
        counts.failed_resume,
        counts.failed_resume_early,
        counts.failed_resume_noirq,
    ]);
    let errnos = &counts.last_errnos;
    out.say(CaseReply::Two(
        ReplyWord::Error(errnos.newest),
        ReplyWord::Error(errnos.older),
    ));
    out.say(last_reply(counts.last_devs.newest));
    out.say(last_reply(counts.last_devs.older));
}

/// Says what a log of an entry a line counts.
pub fn counts(alloc: Global, lines: &str, out: &mut Out) {
    let log = log_of(alloc, lines, out);
    let counts = counted(&log);
    drop(log);
    if let Some(counts) = counts {
        say_counts(&counts, out);
    }
}
