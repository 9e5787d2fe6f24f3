//! The lines of a log, written from where its entries are stored.

ghost use Rattle.std.specs.Prelude.{◌≡◌, ◌≤◌, ◌++◌, ◌∷◌, [], true, false, MatchOption, OnErr, OnOk, reverse};
ghost use Rattle.sleep_base.specs.Whole.{WriteAll};
ghost use Rattle.log_merge.specs.Remainders.{is_in_order};
ghost use Rattle.log_text.specs.Passing.{Passes};
ghost use Rattle.apart_log.specs.Merged.{is_others_turn, lines_of, others_of};

use crate::others::Others;
use log_text::{LineStream, TextFrame};
use sleep_base::{ByteSink, Failed};
use sleep_model::{Journal, JournalEntry, JournalReader};

/// The next entry of a journal, if it comes before these of sources.
#[inline(always)]
fn next_before(journal: &mut JournalReader<'_>, others: Others<'_>) -> Option<JournalEntry>
    ensures { MatchOption result
        ((is_others_turn journal.old (others_of others.entry) ≡ true) × (journal.new ≡ journal.old))
        (λ e. (is_others_turn journal.old (others_of others.entry) ≡ false) × (journal.old ≡ e ∷ journal.new)) }
{
    if others.are_next(journal) {
        return None;
    }
    journal.next()
}

/// Writes the lines of a journal's entries that come before these of sources. `Failed` at the first write
/// that fails: a front of all lines was written.
#[inline(never)]
fn put_journal<K: ByteSink>(
    sink: &mut K,
    stream: &mut LineStream<'_>,
    journal: &mut JournalReader<'_>,
    others: Others<'_>,
) -> Result<(), Failed>
    requires order { is_in_order journal.old ≡ true }
    requires others { is_in_order (others_of others) ≡ true }
    ensures machine { stream.new.machine ≡ stream.old.machine }
    ensures order { OnOk result (is_in_order journal.new ≡ true) }
    ensures turn { OnOk result (is_others_turn journal.new (others_of others.entry) ≡ true) }
    ensures passes { OnOk result (Passes (K.written sink.old) (K.written sink.new) (K.faults sink.old) (K.faults sink.new)
        (stream.old.buffered ++ lines_of stream.old.machine journal.old (others_of others.entry))
        (stream.new.buffered ++ lines_of stream.old.machine journal.new (others_of others.entry))) }
    ensures fails { OnErr result (WriteAll (K.written sink.old) (K.written sink.new) (K.faults sink.old) (K.faults sink.new)
        (stream.old.buffered ++ lines_of stream.old.machine journal.old (others_of others.entry)) result) }
    ensures faults { K.faults sink.old ≤ K.faults sink.new }
{
    while let Some(one) = next_before(journal, others) {
        stream.put(sink, one.entry)?;
    }
    Ok(())
}

/// Writes a line for each entry of a journal and of sources, and then the lines after those. `Failed` at the
/// first write that fails: a front of all lines was written.
#[inline(never)]
pub(crate) fn write_merged<K: ByteSink>(
    sink: &mut K,
    frame: &TextFrame<'_>,
    journal: &Journal,
    mut others: Others<'_>,
) -> Result<(), Failed>
    requires order { is_in_order (reverse journal.now.past) ≡ true }
    requires others { is_in_order (others_of others) ≡ true }
    ensures bytes { WriteAll (K.written sink.old) (K.written sink.new) (K.faults sink.old) (K.faults sink.new)
        (lines_of frame.now.machine (reverse journal.now.past) (others_of others.entry) ++ frame.now.closing) result }
    ensures faults { K.faults sink.old ≤ K.faults sink.new }
{
    let mut stream = frame.stream();
    let mut reader = journal.reader();
    while let Some((other, rest)) = others.split_first() {
        if !others.are_next(&reader) {
            put_journal(sink, &mut stream, &mut reader, others)?;
        }
        stream.put(sink, other.entry)?;
        others = rest;
    }
    put_journal(sink, &mut stream, &mut reader, others)?;
    frame.finish(sink, &mut stream)
}
