//! How a table of the event word is closed.
ghost use Rattle.std.specs.Prelude.{◌≡◌, ◌≤◌, [], ◌∷◌, ◌++◌, IfOk, IsOk};
ghost use Rattle.event_word.specs.Histories.{AreClosed};
ghost use Rattle.event_word.specs.Seats.{IsLook, IsUnused, AreAllSeats, source_count, looked_of};
ghost use Rattle.event_word.specs.Lists.{tokens, made_lists, looked_lists};

use crate::plays::SourceBack;
use crate::seats::apart;
use crate::table::{EventSeat, EventTable, LookSeat, SharedWord, WordToken};
use sleep_base::Mem;
use sleep_model::EventNow;

/// What the sources made comes to the seat that only looks.
fn gather(cells: &SharedWord, look: &mut WordToken, seats: Vec<EventSeat>)
    requires table { (look.old.table_id ≡ cells.now.shared.table_id) × (cells.now.shared.table_id.words ≡ 1) }
    requires look { IsLook look.old × IsUnused look.old }
    requires seats { AreAllSeats look.old (tokens seats.items) }
    ensures table { look.new.table_id ≡ look.old.table_id }
    ensures look { IsLook look.new × (source_count look.new ≡ source_count look.old) }
    ensures looked { looked_of look.new ≡ looked_of look.old }
    ensures known { look.new.me.0.known ≡ made_lists seats.items }
    ensures heard { look.new.me.0.heard ≡ looked_lists seats.items }
{
    for seat in seats {
        let EventSeat { token } = seat;
        cells.shared.join_seat::<SourceBack>(look, token);
    }
}

/// Closes the table, with the seats of all its sources in the order of their numbers. The answer is the word
/// after all steps.
pub fn close(table: EventTable, seats: Vec<EventSeat>, look: LookSeat) -> Result<EventNow, Mem>
    requires look { look.token.table_id ≡ table.cells.shared.table_id }
    requires seats { AreAllSeats look.token (tokens seats.items) }
    ensures closed { IfOk result (λ now.
        AreClosed (made_lists seats.items) (looked_lists seats.items ++ looked_of look.token ∷ []) now) }
    ensures always { IsOk result }
{
    let EventTable { cells } = table;
    let LookSeat { mut token } = look;
    gather(&cells, &mut token, seats);
    let closed = cells.close_with(token);
    let word = closed.word(0);
    closed.free();
    Ok(apart(word))
}
