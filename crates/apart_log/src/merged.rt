//! The one log of a journal and of the sources' histories, whose entries stay where they are stored (own:
//! Linux keeps no such log).

ghost use Rattle.std.specs.Prelude.{◌≡◌, true, IfSome, map};
ghost use Rattle.std.specs.List.{list_all};
ghost use Rattle.sleep_model.specs.Merge.{of_source, rises};
ghost use Rattle.log_merge.specs.Remainders.{sources_entries};

use crate::others::Others;
use crate::writing::write_merged;
use log_merge::sorted;
use log_text::TextFrame;
use sleep_base::{ByteSink, Failed, Mem};
use sleep_model::{Journal, SourceEntry, SourceList};
use std::alloc::Global;
use std::marker::Model;

/// The entries of a log. Contracts see them in order.
#[derive(Drop)]
pub(crate) struct MergedEntries<'a> {
    journal: &'a Journal,
    /// The only history that has entries. It is empty if several have.
    history: &'a [SourceEntry],
    /// The entries of all histories, in order, if several have any.
    sorted: Vec<&'a SourceEntry>,
}

impl<'a> Model for MergedEntries<'a> {
    ghost use Rattle.std.specs.Prelude.{List};
    ghost use Rattle.sleep_model.specs.declared.entry.Entry.{Entry};
    ghost use Rattle.apart_log.specs.EntryFields.{all_merged, AreMerged};

    ghost Value = { List Entry };

    ghost view = { all_merged };

    ghost invariant = { AreMerged };
}

/// The only one of these histories that has entries, or an empty one. `None` if several have.
fn only_history(histories: &[SourceList]) -> Option<&[SourceEntry]>
    requires { list_all (λ history. rises (map of_source history)) histories.now ≡ true }
    ensures entries { IfSome result (λ history. map of_source history.now ≡ sources_entries histories.now) }
    ensures rises { IfSome result (λ history. rises (map of_source history.now) ≡ true) }
{
    let mut only: &[SourceEntry] = &[];
    for history in histories {
        if only.is_empty() {
            only = history.as_slice();
        } else if !history.as_slice().is_empty() {
            return None;
        }
    }
    Some(only)
}

impl<'a> MergedEntries<'a> {
    ghost use Rattle.std.specs.Prelude.{◌≡◌, ◌≤◌, ◌++◌, true, IfOk, flat_map, map, reverse};
    ghost use Rattle.std.specs.List.{list_all};
    ghost use Rattle.sleep_base.specs.Whole.{WriteAll};
    ghost use Rattle.sleep_model.specs.Merge.{merge, of_source, rises};
    ghost use Rattle.sleep_model.specs.Text.{entry_line};

    /// The log of a journal and of histories, along each of which ticks and positions rise. `Mem` if several
    /// histories have entries, and there is no memory for their order.
    pub(crate) fn new(
        alloc: Global,
        journal: &'a Journal,
        histories: &'a [SourceList],
    ) -> Result<Self, Mem>
        requires journal { rises (reverse journal.now.past) ≡ true }
        requires histories { list_all (λ history. rises (map of_source history)) histories.now ≡ true }
        ensures { IfOk result (λ l. l ≡ merge (reverse journal.now.past) histories.now) }
    {
        if let Some(history) = only_history(histories) {
            return Ok(MergedEntries {
                journal,
                history,
                sorted: Vec::new(alloc),
            });
        }
        let sorted = sorted(alloc, histories)?;
        Ok(MergedEntries {
            journal,
            history: &[],
            sorted,
        })
    }

    /// Writes a line for each entry, and then the lines after those. `Failed` at the first write that fails: a
    /// front of all lines was written.
    pub(crate) fn write_to<K: ByteSink>(
        &self,
        sink: &mut K,
        frame: &TextFrame<'_>,
    ) -> Result<(), Failed>
        ensures bytes { WriteAll (K.written sink.old) (K.written sink.new) (K.faults sink.old) (K.faults sink.new) (flat_map (entry_line frame.now.machine) self.now ++ frame.now.closing) result }
        ensures faults { K.faults sink.old ≤ K.faults sink.new }
    {
        let others = Others::of(self.history, self.sorted.as_slice());
        write_merged(sink, frame, self.journal, others)
    }
}
