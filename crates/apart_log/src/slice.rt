//! One slice of a log: its entries in order, and their text.

ghost use Rattle.std.specs.Prelude.{◌≡◌, ◌++◌, true, IfOk, OnOk, filter, map, nat_le, nat_lt, reverse, ◌∷◌, []};
ghost use Rattle.std.specs.List.{list_all};
ghost use Rattle.std.specs.List.Sorted.{IsNonDecreasingBy};
ghost use Rattle.sleep_model.specs.Merge.{all_entries, in_order, of_source, rises};
ghost use Rattle.log_merge.specs.Remainders.{seen, sources_entries};
ghost use Rattle.apart_log.specs.Slices.{is_in, slice_lines};

use crate::cut::TextSource;
use crate::range::Range;
use log_merge::{in_order, with_history};
use log_text::write_entries;
use sleep_base::Mem;
use sleep_model::{Journal, JournalEntry, SourceEntry, SourceList};
use std::alloc::{AllocError, Global};

/// Puts an entry of the journal after others, if it is of that range.
#[inline(always)]
fn push_in(those: &mut Vec<SourceEntry>, one: JournalEntry, range: Range) -> Result<(), AllocError>
    ensures { OnOk result (map of_source those.new.items ≡ map of_source those.old.items ++ filter (is_in range) (one ∷ [])) }
{
    let JournalEntry { stamp, entry } = one;
    if range.holds(stamp) {
        those.push(SourceEntry { stamp, entry })?;
    }
    Ok(())
}

/// The entries of a journal that are of that range. `Mem` if there is no memory.
pub(crate) fn journal_in(
    alloc: Global,
    journal: &Journal,
    range: Range,
) -> Result<Vec<SourceEntry>, Mem>
    ensures { IfOk result (λ those. map of_source those.items ≡ filter (is_in range) (reverse journal.now.past)) }
{
    let mut reader = journal.reader();
    let mut those = Vec::new(alloc);
    while let Some(one) = reader.next() {
        push_in(&mut those, one, range)?;
    }
    Ok(those)
}

/// Puts an entry after others, if it is of that range.
#[inline(always)]
fn push_ref_in<'a>(
    entries: &mut Vec<&'a SourceEntry>,
    one: &'a SourceEntry,
    range: Range,
) -> Result<(), AllocError>
    ensures { OnOk result (seen entries.new.items ≡ seen entries.old.items ++ filter (is_in range) (of_source one.now ∷ [])) }
{
    if range.holds(one.stamp) {
        entries.push(one)?;
    }
    Ok(())
}

/// Those of these entries that are of that range. `Mem` if there is no memory.
fn those_in(alloc: Global, entries: &[SourceEntry], range: Range) -> Result<Vec<&SourceEntry>, Mem>
    ensures { IfOk result (λ those. seen those.items ≡ filter (is_in range) (map of_source entries.now)) }
{
    let mut those = Vec::new(alloc);
    for entry in entries {
        push_ref_in(&mut those, entry, range)?;
    }
    Ok(those)
}

/// The entries of a history, whose positions rise, that come before that position.
fn before(history: &[SourceEntry], pos: u64) -> &[SourceEntry]
    requires { IsNonDecreasingBy (λ (one : SourceEntry). one.stamp.pos) history.now }
    ensures { result.now ≡ filter (λ (one : SourceEntry). nat_lt one.stamp.pos pos) history.now }
{
    let end = history.partition_point(|one| one.stamp.pos < pos);
    &history[..end]
}

/// Those from that position on.
fn from_on(history: &[SourceEntry], pos: u64) -> &[SourceEntry]
    requires { IsNonDecreasingBy (λ (one : SourceEntry). one.stamp.pos) history.now }
    ensures those { result.now ≡ filter (λ (one : SourceEntry). nat_le pos one.stamp.pos) history.now }
    ensures rising { IsNonDecreasingBy (λ (one : SourceEntry). one.stamp.pos) result.now }
{
    let begin = history.partition_point(|one| one.stamp.pos < pos);
    &history[begin..]
}

/// Those of that range.
fn range_in(history: &[SourceEntry], range: Range) -> &[SourceEntry]
    requires { rises (map of_source history.now) ≡ true }
    ensures { map of_source result.now ≡ filter (is_in range) (map of_source history.now) }
{
    let rest = from_on(history, range.from);
    match range.to {
        Some(end) => before(rest, end),
        None => rest,
    }
}

/// These entries, and after them those of all histories that are of that range. `Mem` if there is no memory.
fn gathered<'a>(
    mut entries: Vec<&'a SourceEntry>,
    histories: &'a [SourceList],
    range: Range,
) -> Result<Vec<&'a SourceEntry>, Mem>
    requires { list_all (λ history. rises (map of_source history)) histories.now ≡ true }
    ensures { IfOk result (λ all. seen all.items ≡ seen entries.entry.items ++ filter (is_in range) (sources_entries histories.now)) }
{
    for history in histories {
        entries = with_history(entries, range_in(history.as_slice(), range))?;
    }
    Ok(entries)
}

/// The entries of a log that are of that range, in order. `Mem` if there is no memory.
fn entries_in<'a>(
    alloc: Global,
    journal: &'a [SourceEntry],
    histories: &'a [SourceList],
    range: Range,
) -> Result<Vec<&'a SourceEntry>, Mem>
    requires { list_all (λ history. rises (map of_source history)) histories.now ≡ true }
    ensures { IfOk result (λ all. seen all.items ≡ in_order (filter (is_in range) (map of_source journal.now) ++ filter (is_in range) (sources_entries histories.now))) }
{
    let entries = those_in(alloc, journal, range)?;
    in_order(gathered(entries, histories, range)?)
}

/// The lines of the entries of that range, of that journal and the histories. `Mem` if there is no memory.
pub(crate) fn slice_text(
    alloc: Global,
    source: &TextSource<'_>,
    journal: &[SourceEntry],
    range: Range,
) -> Result<Vec<u8>, Mem>
    ensures { IfOk result (λ text. text.items ≡ slice_lines source.now.machine.now range (all_entries (map of_source journal.now) source.now.histories.now)) }
{
    let entries = entries_in(alloc, journal, source.histories, range)?;
    write_entries(alloc, source.machine, entries.as_slice())
}
