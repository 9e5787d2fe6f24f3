//! One worker's steps and looks at the event word in its table.
ghost use Rattle.std.specs.Prelude.{◌≡◌, ◌+◌, ◌<◌, length, not, if◌then◌else◌};
ghost use Rattle.event_word.specs.Steps.{is_active};
ghost use Rattle.event_word.specs.Seats.{number_of, made_of};

use event_word::{Bump, TableSeat};
use sleep_model::EventNow;

pub(crate) fn word(inpr: u32, count: u32, hard: u32) -> EventNow {
    EventNow { inpr, count, hard }
}

/// A step of a source: hard, or the start or the finish of its event. Answers the word before it, and whether
/// an event is in progress now.
pub(crate) fn step(seat: &mut TableSeat<'_>, active: bool, hard: bool) -> (EventNow, bool)
    requires active { is_active (made_of seat.old.token) ≡ active }
    requires room { length (made_of seat.old.token) < 60000 }
    ensures active { is_active (made_of seat.new.token) ≡ result.1 }
    ensures turns { result.1 ≡ (if hard then active else not active) }
    ensures count { length (made_of seat.new.token) ≡ length (made_of seat.old.token) + 1 }
    ensures same { (seat.new.token.table_id ≡ seat.old.token.table_id) × (number_of seat.new.token ≡ number_of seat.old.token) }
{
    if hard {
        (seat.hard(), active)
    } else if active {
        (seat.finish(), false)
    } else {
        (seat.start(), true)
    }
}
