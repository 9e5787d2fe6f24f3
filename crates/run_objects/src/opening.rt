//! How the sources of a run get their seats.

ghost use Rattle.std.specs.Prelude.{◌≡◌, ◌≤◌, ◌+◌, IfOk, vec_len};
ghost use Rattle.event_word.specs.Lists.{tokens};
ghost use Rattle.event_word.specs.Seats.{AreNew, IsUntouched, source_count};
ghost use Rattle.run_objects.specs.Objects.{AreFirst, AreUncalled, seats_of};

use crate::source::SeatedSource;
use event_word::{EventSeat, EventTable, LookSeat};
use sleep_base::Mem;
use std::alloc::Global;

/// A source for each of these seats, in the order of their numbers.
fn seated(alloc: Global, seats: Vec<EventSeat>) -> Result<Vec<SeatedSource>, Mem>
    requires few { vec_len seats ≤ 256 }
    requires new { AreFirst (tokens seats.items) }
    ensures count { IfOk result (λ sources. vec_len sources ≡ vec_len seats) }
    ensures seats { IfOk result (λ sources. seats_of sources.items ≡ tokens seats.items) }
    ensures uncalled { IfOk result (λ sources. AreUncalled sources.items) }
{
    let mut sources = Vec::with_capacity(alloc, seats.len())?;
    let mut number = 0;
    for seat in seats {
        sources.push(SeatedSource::new(alloc, number, seat))?;
        number += 1;
    }
    Ok(sources)
}

/// The table with the word 0/0/0, a source with its seat for each number below `sources`, 1 to 256, and the
/// machine's seat. `Mem` if there is no memory.
pub fn seated_sources(
    alloc: Global,
    sources: u32,
) -> Result<(EventTable, Vec<SeatedSource>, LookSeat), Mem>
    requires { (1 ≤ sources) × (sources ≤ 256) }
    ensures count { IfOk result (λ made. (vec_len made.1 ≡ sources) × (source_count made.2.token ≡ sources)) }
    ensures sources { IfOk result (λ made. AreUncalled made.1.items) }
    ensures seats { IfOk result (λ made. AreNew made.2.token (seats_of made.1.items)) }
    ensures look { IfOk result (λ made. made.2.token.table_id ≡ made.0.cells.shared.table_id) }
    ensures untouched { IfOk result (λ made. IsUntouched made.2.token) }
{
    let (table, seats, look) = EventTable::new(alloc, sources)?;
    let sources = seated(alloc, seats)?;
    Ok((table, sources, look))
}
