//! How a table of the event word is made.
ghost use Rattle.std.specs.Prelude.{◌≡◌, ◌≤◌, vec_len, IfOk};
ghost use Rattle.event_word.specs.Seats.{IsUntouched, AreNew, source_count, made_of, looked_of, floor_of};
ghost use Rattle.event_word.specs.Lists.{tokens};

use crate::table::{EventSeat, EventTable, LookSeat};
use sleep_base::Mem;
use std::alloc::Global;

impl EventTable {
    /// The seats of that many new sources, in the order of their numbers.
    fn sources(&self, alloc: Global, look: &mut LookSeat, count: u32) -> Result<Vec<EventSeat>, Mem>
        requires table { look.old.token.table_id ≡ self.now.cells.shared.table_id }
        requires none { source_count look.old.token ≡ 0 }
        requires count { count ≤ 256 }
        ensures table { look.new.token.table_id ≡ look.old.token.table_id }
        ensures looked { IfOk result (λ _. looked_of look.new.token ≡ looked_of look.old.token) }
        ensures floor { IfOk result (λ _. floor_of look.new.token ≡ floor_of look.old.token) }
        ensures made { IfOk result (λ _. made_of look.new.token ≡ made_of look.old.token) }
        ensures count { IfOk result (λ seats. vec_len seats ≡ count) }
        ensures new { IfOk result (λ seats. AreNew look.new.token (tokens seats.items)) }
    {
        let mut seats = Vec::with_capacity(alloc, count as usize)?;
        for _ in 0..count {
            seats.push(self.source(look))?;
        }
        Ok(seats)
    }

    /// A table with the word 0/0/0, a seat for each source, in the order of their numbers, and one that only
    /// looks.
    pub fn new(alloc: Global, sources: u32) -> Result<(EventTable, Vec<EventSeat>, LookSeat), Mem>
        requires { (1 ≤ sources) × (sources ≤ 256) }
        ensures count { IfOk result (λ made. vec_len made.1 ≡ sources) }
        ensures seats { IfOk result (λ made. AreNew made.2.token (tokens made.1.items)) }
        ensures look { IfOk result (λ made. made.2.token.table_id ≡ made.0.cells.shared.table_id) }
        ensures untouched { IfOk result (λ made. IsUntouched made.2.token) }
    {
        let (table, mut look) = EventTable::empty(alloc)?;
        let seats = table.sources(alloc, &mut look, sources)?;
        Ok((table, seats, look))
    }
}
