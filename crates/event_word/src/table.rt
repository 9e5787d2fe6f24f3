//! The table of the event word, and its seats while they are off it.
ghost use Rattle.std.specs.Prelude.{◌≡◌, ◌<◌, [], IfOk};
ghost use Rattle.event_word.specs.Counting.{look_view, with_one_source, source_view};
ghost use Rattle.event_word.specs.Seats.{IsSourceSeat, IsLook, IsUnused, source_count};

use crate::plays::{Counting, NewSource};
use crate::view::WordView;
use atomic_table::{Seat, Table};
use sleep_base::Mem;
use std::alloc::Global;

/// A seat at the table.
pub type WordToken = Seat<(), WordView>;

/// The word, which threads share.
pub type SharedWord = Table<(), WordView, (), Counting, Global>;

/// The event word for many holders (`drivers/base/power/wakeup.c`, `combined_event_count`).
#[derive(Drop)]
pub struct EventTable {
    pub cells: Table<(), WordView, (), Counting, Global>,
    ghost shaped: { (cells.shared.table_id.words ≡ 1) × (cells.shared.table_id.slots ≡ 0) },
}

/// The seat of one source: it knows which steps the source made.
#[derive(Drop)]
pub struct EventSeat {
    pub token: WordToken,
    ghost seated: { IsSourceSeat token },
}

/// The seat that only looks, and that is needed to close the table.
#[derive(Drop)]
pub struct LookSeat {
    pub token: WordToken,
    ghost seated: { IsLook token },
    ghost unused: { IsUnused token },
}

impl EventTable {
    /// A table with no source.
    pub(crate) fn empty(alloc: Global) -> Result<(EventTable, LookSeat), Mem>
        ensures table { IfOk result (λ made. made.1.token.table_id ≡ made.0.cells.shared.table_id) }
        ensures view { IfOk result (λ made. made.1.token.me ≡ (look_view, [])) }
    {
        let (cells, token) = Table::of_words(alloc, &[0], &())?;
        Ok((EventTable { cells }, LookSeat { token }))
    }

    /// One more source's seat, with the next number.
    pub(crate) fn source(&self, look: &mut LookSeat) -> EventSeat
        requires table { look.old.token.table_id ≡ self.now.cells.shared.table_id }
        requires room { source_count look.old.token < 256 }
        ensures table { look.new.token.table_id ≡ look.old.token.table_id }
        ensures look { look.new.token.me ≡ (with_one_source look.old.token.me.0, []) }
        ensures seat { result.token.table_id ≡ look.old.token.table_id }
        ensures view { result.token.me ≡ (source_view (source_count look.old.token), []) }
    {
        let token = self.cells.shared.split_seat::<NewSource>(&mut look.token);
        EventSeat { token }
    }
}
