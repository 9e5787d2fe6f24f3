//! The one log of a journal that is a list (own: Linux keeps no such log).

ghost use Rattle.std.specs.Prelude.{◌≡◌, true, IfOk, reverse};
ghost use Rattle.sleep_model.specs.Merge.{merge, rises};

use crate::with_counts::merge_journal;
use sleep_base::Mem;
use sleep_model::{EntryList, Journal, JournalEntry, SourceList};
use std::alloc::Global;

/// The journal of these entries. `Mem` if there is no memory.
fn journal_of_entries(alloc: Global, entries: &[JournalEntry]) -> Result<Journal, Mem>
    ensures { IfOk result (λ journal. reverse journal.past ≡ entries.now) }
{
    let mut journal = Journal::new(alloc);
    journal.reserve(entries.len())?;
    for entry in entries {
        journal.put(*entry);
    }
    Ok(journal)
}

/// The one log of a journal, whose ticks and positions rise, and of the sources' histories, as a list. `Mem`
/// if there is no memory.
pub fn merge(
    alloc: Global,
    journal: &[JournalEntry],
    histories: &[SourceList],
) -> Result<EntryList, Mem>
    requires { rises journal.now ≡ true }
    ensures { IfOk result (λ log. log ≡ merge journal.now histories.now) }
{
    merge_journal(alloc, journal_of_entries(alloc, journal)?, histories)
}
