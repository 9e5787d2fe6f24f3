//! How the seats of a run come back to their table.

ghost use Rattle.std.specs.Prelude.{◌≡◌, true, IfOk, reverse};
ghost use Rattle.std.specs.List.{list_all};
ghost use Rattle.event_word.specs.Lists.{tokens};
ghost use Rattle.event_word.specs.Seats.{AreAllSeats, looked_of};
ghost use Rattle.run_laws.specs.Apart.{is_journals};
ghost use Rattle.run_objects.specs.Closed.{IsClosedTable, histories_of};
ghost use Rattle.run_objects.specs.Objects.{SourcesInvariant, seats_of};

use crate::machine::SeatedCore;
use crate::source::SeatedSource;
use event_word::{EventSeat, EventTable, close};
use sleep_base::Mem;
use sleep_model::{Journal, SourceList};
use std::alloc::Global;

/// The sources' seats, and their histories, in the same order.
fn split(
    alloc: Global,
    sources: Vec<SeatedSource>,
) -> Result<(Vec<EventSeat>, Vec<SourceList>), Mem>
    ensures seats { IfOk result (λ parts. tokens parts.0.items ≡ seats_of sources.items) }
    ensures histories { IfOk result (λ parts. parts.1.items ≡ histories_of sources.items) }
    ensures kept { IfOk result (λ parts. SourcesInvariant sources.items) }
{
    let mut seats = Vec::with_capacity(alloc, sources.len())?;
    let mut histories = Vec::with_capacity(alloc, sources.len())?;
    for source in sources {
        let (seat, history) = source.into_components();
        seats.push(seat)?;
        histories.push(history)?;
    }
    Ok((seats, histories))
}

/// Closes the table: what its seats did gives the word. Answers the journal, and the history of each source,
/// in the order of their numbers. `Mem` if there is no memory.
pub fn close_table(
    alloc: Global,
    table: EventTable,
    sources: Vec<SeatedSource>,
    machine: SeatedCore<'_>,
) -> Result<(Journal, Vec<SourceList>), Mem>
    requires table { machine.seat.table_id ≡ table.cells.shared.table_id }
    requires seats { AreAllSeats machine.seat (seats_of sources.items) }
    requires kept { list_all is_journals machine.core.past ≡ true }
    ensures journal { IfOk result (λ kept. kept.0.past ≡ machine.entry.core.past) }
    ensures histories { IfOk result (λ kept. kept.1.items ≡ histories_of sources.items) }
    ensures closed_over { IfOk result (λ kept. IsClosedTable (looked_of machine.entry.seat)
        (reverse machine.entry.core.past) (histories_of sources.items)) }
{
    let (look, journal) = machine.into_components();
    let (seats, histories) = split(alloc, sources)?;
    let _ = close(table, seats, look)?;
    Ok((journal, histories))
}
