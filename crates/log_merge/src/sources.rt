//! The entries of all sources, as references, in the order of the one log.

ghost use Rattle.std.specs.Prelude.{◌≡◌, ◌++◌, IfOk, map};
ghost use Rattle.std.specs.Ordering.{is_lt};
ghost use Rattle.sleep_model.specs.Merge.{in_order, of_source, precedes};
ghost use Rattle.log_merge.specs.Remainders.{sources_entries, seen};

use crate::order::precedes;
use sleep_base::Mem;
use sleep_model::{SourceEntry, SourceList};
use std::alloc::Global;
use std::cmp::Ordering;

/// The order of two entries of sources.
#[inline]
fn compare(a: &SourceEntry, b: &SourceEntry) -> Ordering
    ensures { is_lt result ≡ precedes (of_source a.now) (of_source b.now) }
{
    if precedes(&a.stamp, &a.entry, &b.stamp, &b.entry) {
        Ordering::Less
    } else if precedes(&b.stamp, &b.entry, &a.stamp, &a.entry) {
        Ordering::Greater
    } else {
        Ordering::Equal
    }
}

/// These entries, and those of a history after them. `Mem` if there is no memory.
pub fn with_history<'a>(
    mut entries: Vec<&'a SourceEntry>,
    history: &'a [SourceEntry],
) -> Result<Vec<&'a SourceEntry>, Mem>
    ensures { IfOk result (λ all. seen all.items ≡ seen entries.entry.items ++ map of_source history.now) }
{
    for entry in history {
        entries.push(entry)?;
    }
    Ok(entries)
}

/// The entries of all sources, history by history. `Mem` if there is no memory.
fn gathered(alloc: Global, histories: &[SourceList]) -> Result<Vec<&SourceEntry>, Mem>
    ensures { IfOk result (λ all. seen all.items ≡ sources_entries histories.now) }
{
    let mut entries = Vec::new(alloc);
    for history in histories {
        entries = with_history(entries, history.as_slice())?;
    }
    Ok(entries)
}

/// Entries in the order of the one log, equal ones as they were. `Mem` if there is no memory.
pub fn in_order(mut entries: Vec<&SourceEntry>) -> Result<Vec<&SourceEntry>, Mem>
    ensures { IfOk result (λ all. seen all.items ≡ in_order (seen entries.entry.items)) }
{
    entries.sort_by(|a, b| compare(a, b))?;
    Ok(entries)
}

/// The entries of all sources in the order of the one log, equal ones history by history. `Mem` if there is
/// no memory.
pub fn sorted(alloc: Global, histories: &[SourceList]) -> Result<Vec<&SourceEntry>, Mem>
    ensures { IfOk result (λ all. seen all.items ≡ in_order (sources_entries histories.now)) }
{
    let entries = gathered(alloc, histories)?;
    in_order(entries)
}
