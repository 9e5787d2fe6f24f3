//! A log cut for workers, side by side on threads, and each worker's piece into slices.

ghost use Rattle.std.specs.Prelude.{◌≡◌, ◌++◌, true, IfOk, map, reverse};
ghost use Rattle.std.specs.List.{list_all};
ghost use Rattle.std.specs.Thread.{IsSync};
ghost use Rattle.sleep_model.specs.Merge.{all_entries, of_source, rises};
ghost use Rattle.apart_log.specs.Slices.{IsUpTo, joined_texts, slice_lines};

use crate::range::Range;
use crate::slice::{journal_in, slice_text};
use sleep_base::Mem;
use sleep_model::{Journal, Machine, SourceEntry, SourceList};
use std::alloc::Global;
use std::thread::{Threads, join};

/// What the text of a log is made of.
#[derive(Drop)]
pub(crate) struct TextSource<'a> {
    pub(crate) machine: &'a Machine,
    pub(crate) journal: &'a Journal,
    pub(crate) histories: &'a [SourceList],
    /// The position at which the log ends. It says only which cuts are good.
    pub(crate) last: u64,
    /// How often a worker halves its own range. It says only how long slices are.
    pub(crate) in_row: u32,
    ghost rising: { list_all (λ history. rises (map of_source history)) histories.now ≡ true },
}

/// The text of one slice, of that journal and the histories.
fn one_text(
    alloc: Global,
    source: &TextSource<'_>,
    journal: &[SourceEntry],
    range: Range,
) -> Result<Vec<Vec<u8>>, Mem>
    ensures { IfOk result (λ texts. joined_texts texts.items
        ≡ slice_lines source.now.machine.now range (all_entries (map of_source journal.now) source.now.histories.now)) }
{
    let text = slice_text(alloc, source, journal, range)?;
    let mut texts = Vec::new(alloc);
    texts.push(text)?;
    Ok(texts)
}

/// These texts, and others after them.
fn both(mut texts: Vec<Vec<u8>>, mut others: Vec<Vec<u8>>) -> Result<Vec<Vec<u8>>, Mem>
    ensures { IfOk result (λ all. joined_texts all.items ≡ joined_texts texts.items ++ joined_texts others.items) }
{
    texts.append(&mut others)?;
    Ok(texts)
}

/// The texts of the slices of a range, which is halved `halvings` times, made one after the other, of that
/// journal and the histories. What a short slice is made of stays in the processor's cache until its text is
/// written. `Mem` if there is no memory.
fn texts_in_row(
    alloc: Global,
    source: &TextSource<'_>,
    journal: &[SourceEntry],
    range: Range,
    halvings: u32,
) -> Result<Vec<Vec<u8>>, Mem>
    requires { IsUpTo range.from range.to }
    ensures { IfOk result (λ texts. joined_texts texts.items
        ≡ slice_lines source.now.machine.now range (all_entries (map of_source journal.now) source.now.histories.now)) }
{
    if halvings == 0 {
        return one_text(alloc, source, journal, range);
    }
    let middle = range.middle(source.last);
    let front = texts_in_row(alloc, source, journal, range.below(middle), halvings - 1)?;
    let back = texts_in_row(alloc, source, journal, range.from_on(middle), halvings - 1)?;
    let texts = both(front, back)?;
    Ok(texts)
}

/// The texts of a worker's range, one after the other. `Mem` if there is no memory.
fn worker_texts(alloc: Global, source: &TextSource<'_>, range: Range) -> Result<Vec<Vec<u8>>, Mem>
    requires { IsUpTo range.from range.to }
    ensures { IfOk result (λ texts. joined_texts texts.items
        ≡ slice_lines source.now.machine.now range (all_entries (reverse source.now.journal.now.past) source.now.histories.now)) }
{
    let journal = journal_in(alloc, source.journal, range)?;
    texts_in_row(alloc, source, journal.as_slice(), range, source.in_row)
}

/// The texts of a range, which is halved `halvings` times. Each piece has a worker of its own, on a thread if
/// one can be made. `Mem` if there is no memory.
#[cycle(texts)]
pub(crate) fn texts<R: Threads + Sync>(
    rt: &R,
    alloc: Global,
    source: &TextSource<'_>,
    range: Range,
    halvings: u32,
) -> Result<Vec<Vec<u8>>, Mem>
    requires { IsUpTo range.from range.to }
    ensures { IfOk result (λ texts. joined_texts texts.items
        ≡ slice_lines source.now.machine.now range (all_entries (reverse source.now.journal.now.past) source.now.histories.now)) }
{
    if halvings == 0 {
        return worker_texts(alloc, source, range);
    }
    let middle = range.middle(source.last);
    let low = range.below(middle);
    let high = range.from_on(middle);
    let less = halvings - 1;
    let front = move || -> Result<Vec<Vec<u8>>, Mem>
        requires { IsSync R.row × IsUpTo low.from low.to }
        ensures { IfOk result (λ texts. joined_texts texts.items
            ≡ slice_lines source.entry.now.machine.now low (all_entries (reverse source.entry.now.journal.now.past) source.entry.now.histories.now)) }
    { texts(rt, alloc, source, low, less) };
    let back = move || -> Result<Vec<Vec<u8>>, Mem>
        requires { IsSync R.row × IsUpTo high.from high.to }
        ensures { IfOk result (λ texts. joined_texts texts.items
            ≡ slice_lines source.entry.now.machine.now high (all_entries (reverse source.entry.now.journal.now.past) source.entry.now.histories.now)) }
    { texts(rt, alloc, source, high, less) };
    let (front, back) = join(rt, front, back);
    let texts = both(front?, back?)?;
    Ok(texts)
}
