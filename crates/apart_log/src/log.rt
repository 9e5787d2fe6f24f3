//! A log as its journal and its sources' histories.

ghost use Rattle.std.specs.Prelude.{◌≡◌};

use crate::cut::{TextSource, texts};
use crate::merged::MergedEntries;
use crate::range::Range;
use log_merge::merge_journal;
use log_text::TextFrame;
use sleep_base::Mem;
use sleep_model::{Journal, ListOf, Log, LogEnd, Machine, SourceList, Stats};
use std::alloc::Global;
use std::marker::Model;
use std::thread::Threads;

/// A log that is stored as its machine's journal and its sources' histories. Contracts see the log.
#[derive(Drop)]
pub struct ApartLog {
    journal: Journal,
    histories: Vec<SourceList>,
    stats: ListOf<Stats>,
    end: LogEnd,
}

impl Model for ApartLog {
    ghost use Rattle.sleep_model.specs.declared.log.Log.{Log};

    ghost Value = { Log };

    ghost use Rattle.apart_log.specs.LogFields.{whole_log, LogInvariant};

    ghost view = { whole_log };

    ghost invariant = { LogInvariant };
}

/// How many entries of sources a log has at least for each one of the journal, if slices are worth their
/// threads.
const FEW: usize = 8;

/// The fewest entries of sources of which slices are worth their threads.
const MANY: usize = 16_384;

/// How many entries of sources a slice has, at least. A processor's cache holds them, and the machine's
/// names, which each slice spells, are few beside them.
const SLICE: usize = 4_096;

/// How often each of the workers halves its own range, so that its slices are short. There are as many
/// workers as the log is halved for.
fn halvings_in_row(entries: usize, halvings: u32) -> u32 {
    let slices = (entries / SLICE).max(1);
    slices.ilog2().saturating_sub(halvings)
}

/// How many entries these histories have.
fn entries_of(histories: &[SourceList]) -> usize {
    let mut entries = 0_usize;
    for history in histories {
        entries = entries.saturating_add(history.len());
    }
    entries
}

/// The greatest position at which a history ends.
fn last_position(histories: &[SourceList]) -> u64 {
    let mut last = 0;
    for history in histories {
        if let Some(one) = history.as_slice().last() {
            last = one.stamp.pos.max(last);
        }
    }
    last
}

impl ApartLog {
    ghost use Rattle.std.specs.Prelude.{◌≡◌, ◌++◌, true, reverse, IfOk, flat_map, map};
    ghost use Rattle.std.specs.List.{list_all};
    ghost use Rattle.sleep_model.specs.Merge.{merge, of_source, rises};
    ghost use Rattle.sleep_model.specs.Text.{end_text, entry_line, source_lines, source_names};
    ghost use Rattle.apart_log.specs.Slices.{joined_texts};

    /// The log of a journal and of the sources' histories, along each of which ticks and positions rise, with
    /// the sources' statistics and how the run ended.
    pub fn new(journal: Journal, histories: Vec<SourceList>, stats: Vec<Stats>, end: LogEnd) -> Self
        requires journal { rises (reverse journal.past) ≡ true }
        requires histories { list_all (λ history. rises (map of_source history)) histories.items ≡ true }
        ensures { result ≡ record { entries = merge (reverse journal.past) histories.items; stats = stats.items; end = end } }
    {
        ApartLog {
            journal,
            histories,
            stats: ListOf::of_vec(stats),
            end,
        }
    }

    /// How the run ended.
    pub fn end(&self) -> &LogEnd
        ensures { result.now ≡ self.now.end }
    {
        &self.end
    }

    /// Whether the log is worth its slices: most of it was made by sources, and there is much of it.
    pub fn is_worth_slices(&self) -> bool {
        let entries = entries_of(&self.histories);
        MANY <= entries && self.journal.len() <= entries / FEW
    }

    /// The log in one list. `Mem` if there is no memory.
    pub fn into_log(self, alloc: Global) -> Result<Log, Mem>
        ensures { IfOk result (λ log. log ≡ self) }
    {
        let ApartLog {
            journal,
            histories,
            stats,
            end,
        } = self;
        let entries = merge_journal(alloc, journal, &histories)?;
        Ok(Log {
            entries,
            stats,
            end,
        })
    }

    /// The entries of the log in order, which stay where they are stored. `Mem` if there is no memory for
    /// their order.
    pub(crate) fn merged(&self, alloc: Global) -> Result<MergedEntries<'_>, Mem>
        ensures { IfOk result (λ entries. entries ≡ self.now.entries) }
    {
        MergedEntries::new(alloc, &self.journal, &self.histories)
    }

    /// What the text of the log has besides its entries. `Mem` if there is no memory for it.
    pub(crate) fn frame<'m>(
        &self,
        alloc: Global,
        machine: &'m Machine,
    ) -> Result<TextFrame<'m>, Mem>
        ensures { IfOk result (λ frame. frame ≡ record {
          machine = machine.now;
          closing = source_lines (source_names machine.now) self.now.stats ++ end_text machine.now self.now.end;
        }) }
    {
        TextFrame::new(alloc, machine, self.stats.as_slice(), &self.end)
    }

    /// The texts of slices of the entries; one after the other they are the text of all. Workers make them,
    /// each on a thread of its own if one can be made; there are twice as many workers for each `halvings`.
    /// `Mem` if there is no memory.
    #[tactic(auto, using(crate::proofs::Cutting::lines_all))]
    pub(crate) fn texts<R: Threads + Sync>(
        &self,
        rt: &R,
        alloc: Global,
        machine: &Machine,
        halvings: u32,
    ) -> Result<Vec<Vec<u8>>, Mem>
        ensures { IfOk result (λ texts. joined_texts texts.items ≡ flat_map (entry_line machine.now) self.now.entries) }
    {
        let source = TextSource {
            machine,
            journal: &self.journal,
            histories: self.histories.as_slice(),
            last: last_position(&self.histories),
            in_row: halvings_in_row(entries_of(&self.histories), halvings),
        };
        texts(rt, alloc, &source, Range::all(), halvings)
    }

    /// The sources' statistics, and how the run ended.
    pub(crate) fn into_ending(self) -> (ListOf<Stats>, LogEnd)
        ensures stats { result.0 ≡ self.stats }
        ensures end { result.1 ≡ self.end }
    {
        let ApartLog { stats, end, .. } = self;
        (stats, end)
    }
}
