//! The one log over a journal that stays as it is stored: the places of the sources' entries in it (own:
//! Linux keeps no such log).

ghost use Rattle.std.specs.Prelude.{◌≡◌, ◌+◌, ◌≤◌, ◌++◌, true, IfOk, drop, length, reverse, vec_len, vec_capacity};
ghost use Rattle.sleep_model.specs.Merge.{merge, of_source, rises};
ghost use Rattle.log_merge.specs.WithCounts.{with_counts};
ghost use Rattle.log_merge.specs.Remainders.{is_journals_turn, leads_next, seen};

use crate::order::is_ahead;
use crate::sources::sorted;
use sleep_base::Mem;
use sleep_model::{
    EntryList, Journal, JournalEntry, JournalReader, OtherEntry, SourceEntry, SourceList,
};
use std::alloc::Global;

/// Whether that entry of a source stands before the next of a journal, or none is left of it.
#[inline(always)]
pub fn leads(next: &Option<JournalEntry>, other: &SourceEntry) -> bool
    ensures { result ≡ leads_next (of_source other.now) next.now }
{
    match next {
        Some(entry) => is_ahead(other, entry),
        None => true,
    }
}

/// Places those of these entries of sources, from that one on, that come before all that is left of a journal,
/// of which `before` were passed. Answers how many then are placed. There is room for all of them.
#[inline(always)]
fn put_leading(
    all: &mut Vec<OtherEntry>,
    before: usize,
    others: &[&SourceEntry],
    from: usize,
    reader: &JournalReader<'_>,
) -> usize
    requires from { from ≤ length others.now }
    requires room { vec_len all.old + length others.now ≤ vec_capacity all.old + from }
    ensures placed { all.new.items ++ with_counts before reader.now (drop result (seen others.now))
        ≡ all.old.items ++ with_counts before reader.now (drop from (seen others.now)) }
    ensures turn { is_journals_turn reader.now (drop result (seen others.now)) ≡ true }
    ensures most { result ≤ length others.now }
    ensures left { vec_len all.new + length others.now ≤ vec_capacity all.new + result }
{
    let next = reader.peek();
    for place in from..others.len() {
        let other = others[place];
        if !leads(&next, other) {
            return place;
        }
        all.push_reserved(OtherEntry {
            before,
            entry: other.entry,
        });
    }
    others.len()
}

/// Each of these entries of sources, which are in order, with the number of the journal's before it. `Mem` if
/// there is no memory.
fn with_counts(
    alloc: Global,
    journal: &Journal,
    others: &[&SourceEntry],
) -> Result<Vec<OtherEntry>, Mem>
    ensures { IfOk result (λ all. all.items ≡ with_counts 0 (reverse journal.now.past) (seen others.now)) }
{
    let mut reader = journal.reader();
    let mut placed = 0;
    let mut all = Vec::with_capacity(alloc, others.len())?;
    for before in 0..journal.len() {
        if placed == others.len() {
            return Ok(all);
        }
        placed = put_leading(&mut all, before, others, placed, &reader);
        let _ = reader.next();
    }
    put_leading(&mut all, journal.len(), others, placed, &reader);
    Ok(all)
}

/// The one log of a journal, whose ticks and positions rise, and of the sources' histories. The journal's
/// entries stay as they are. `Mem` if there is no memory for the sources'.
pub fn merge_journal(
    alloc: Global,
    journal: Journal,
    histories: &[SourceList],
) -> Result<EntryList, Mem>
    requires { rises (reverse journal.past) ≡ true }
    ensures { IfOk result (λ log. log ≡ merge (reverse journal.past) histories.now) }
{
    let ordered = sorted(alloc, histories)?;
    let others = with_counts(alloc, &journal, &ordered)?;
    Ok(EntryList::of_journal(journal, others))
}
