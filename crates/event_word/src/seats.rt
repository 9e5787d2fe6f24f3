//! Seats on the table: they look at the word and move it.
ghost use Rattle.std.specs.Prelude.{◌≡◌, true, false, [], length, Some, None};
ghost use Rattle.event_word.specs.Histories.{unpacked};
ghost use Rattle.event_word.specs.Steps.{can_make, is_active};
ghost use Rattle.event_word.specs.Seats.{IsSourceSeat, IsLook, IsUnused, source_count, number_of, made_of, looked_of, floor_of};

use crate::events::{Bump, Events};
use crate::plays::{Finish, Hard, Look, Start};
use crate::table::{EventSeat, EventTable, LookSeat, WordToken};
use sleep_model::EventNow;

/// What a start adds to the word: one more in progress.
const START: u64 = 1;

/// What a finish adds to the word: one less in progress, one more registered (`MAX_IN_PROGRESS`).
const FINISH: u64 = 65_535;

/// What a hard step adds to the word (own: Linux keeps that count apart).
const HARD: u64 = 1 << 40;

/// A source's seat on its table.
#[derive(Drop)]
pub struct TableSeat<'t> {
    pub table: &'t EventTable,
    pub token: WordToken,
    ghost seated: { IsSourceSeat token },
    ghost fits: { token.table_id ≡ table.now.cells.shared.table_id },
}

/// The seat that only looks, on its table.
#[derive(Drop)]
pub struct TableLook<'t> {
    pub table: &'t EventTable,
    pub token: WordToken,
    ghost seated: { IsLook token },
    ghost unused: { IsUnused token },
    ghost fits: { token.table_id ≡ table.now.cells.shared.table_id },
}

/// The word, taken apart.
pub(crate) fn apart(word: u64) -> EventNow
    ensures { result ≡ unpacked word }
{
    EventNow {
        inpr: (word % (1 << 16)) as u32,
        count: (word / (1 << 16) % (1 << 24)) as u32,
        hard: (word / (1 << 40)) as u32,
    }
}

impl EventSeat {
    /// Takes the seat to its table.
    pub fn on<'t>(self, table: &'t EventTable) -> TableSeat<'t>
        requires { self.token.table_id ≡ table.now.cells.shared.table_id }
        ensures { result.token ≡ self.token }
    {
        let EventSeat { token } = self;
        TableSeat { table, token }
    }
}

impl LookSeat {
    /// Takes the seat to its table.
    pub fn on<'t>(self, table: &'t EventTable) -> TableLook<'t>
        requires { self.token.table_id ≡ table.now.cells.shared.table_id }
        ensures { result.token ≡ self.token }
    {
        let LookSeat { token } = self;
        TableLook { table, token }
    }
}

impl TableSeat<'_> {
    /// Leaves the table, with all that the seat knows.
    pub fn off(self) -> EventSeat
        ensures { result.token ≡ self.entry.token }
    {
        let TableSeat { table: _, token } = self;
        EventSeat { token }
    }
}

impl TableLook<'_> {
    /// Leaves the table, with all that the seat knows.
    pub fn off(self) -> LookSeat
        ensures { result.token ≡ self.entry.token }
    {
        let TableLook { table: _, token } = self;
        LookSeat { token }
    }
}

impl Events for TableSeat<'_> {
    ghost use Rattle.std.specs.Prelude.{ℕ, Option};
    ghost use Rattle.atomic_table.specs.Seated.{TableId};

    ghost shows = { λ _. None };

    ghost looked = { λ s. Some (looked_of s.token) };

    ghost made = { λ s. Some (made_of s.token) };

    ghost can = { λ s. can_make (length (made_of s.token)) (is_active (made_of s.token)) };

    ghost floor = { λ s. floor_of s.token };

    ghost Root = { TableId × Option ℕ };

    ghost root = { λ s. (s.token.table_id, number_of s.token) };

    fn look(&mut self) -> EventNow {
        apart(self.table.cells.shared.load::<Look>(&mut self.token, 0))
    }
}

impl Bump for TableSeat<'_> {
    fn start(&mut self) -> EventNow {
        let cells = &self.table.cells;
        apart(cells.shared.fetch_add::<Start>(&mut self.token, 0, START))
    }

    fn finish(&mut self) -> EventNow {
        let cells = &self.table.cells;
        apart(cells.shared.fetch_add::<Finish>(&mut self.token, 0, FINISH))
    }

    fn hard(&mut self) -> EventNow {
        let cells = &self.table.cells;
        apart(cells.shared.fetch_add::<Hard>(&mut self.token, 0, HARD))
    }
}

impl Events for TableLook<'_> {
    ghost use Rattle.std.specs.Prelude.{ℕ};
    ghost use Rattle.atomic_table.specs.Seated.{TableId};

    ghost shows = { λ _. None };

    ghost looked = { λ s. Some (looked_of s.token) };

    ghost made = { λ _. Some [] };

    ghost can = { λ _ _. false };

    ghost floor = { λ s. floor_of s.token };

    ghost Root = { TableId × ℕ };

    ghost root = { λ s. (s.token.table_id, source_count s.token) };

    fn look(&mut self) -> EventNow {
        let cells = &self.table.cells;
        apart(cells.shared.load::<Look>(&mut self.token, 0))
    }
}
