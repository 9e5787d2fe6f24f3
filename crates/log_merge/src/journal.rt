//! Whether a journal may be merged (own: Linux keeps no such log).

ghost use Rattle.std.specs.Prelude.{◌≡◌};
ghost use Rattle.sleep_model.specs.Merge.{rises};
ghost use Rattle.log_merge.specs.Journals.{rises_on_entry};

use crate::order::is_step;
use sleep_model::JournalEntry;

/// Whether an entry may come right after another of its journal: its tick is greater, and its position is no
/// less, and greater after a step on the word.
fn rises_on_entry(last: &JournalEntry, next: &JournalEntry) -> bool
    ensures { result ≡ rises_on_entry last.now next.now }
{
    last.stamp.tick < next.stamp.tick
        && if is_step(last.entry.kind) {
            last.stamp.pos < next.stamp.pos
        } else {
            last.stamp.pos <= next.stamp.pos
        }
}

/// Whether the ticks of a journal rise, and its positions never fall, and rise after a step on the word.
pub fn rises(journal: &[JournalEntry]) -> bool
    ensures { result ≡ rises journal.now }
{
    for i in 1..journal.len() {
        if !rises_on_entry(&journal[i - 1], &journal[i]) {
            return false;
        }
    }
    true
}
