//! The table of the word is closed after steps of two workers.
ghost use Rattle.std.specs.Prelude.{◌≡◌, [], IfOk};
ghost use Rattle.event_word.specs.Seats.{AreAllSeats, AreNew, number_of, made_of};
ghost use Rattle.event_word.specs.Lists.{tokens};

use crate::word_table_tests::{step, word};
use event_word::{EventSeat, EventTable, LookSeat, close};
use sleep_base::{Mem, drop_for_mem};
use sleep_model::EventNow;
use std::alloc::{AllocError, Global};
use std::sync::Wait;
use std::sync::atomic::{AtomicBool, Ordering};
use std::thread;
use std::thread::Threads;

/// Two steps of a source: the first begins an event, and the second ends it, or is hard if another source
/// came before.
fn two_steps(table: &EventTable, seat: EventSeat, came: &AtomicBool) -> EventSeat
    requires table { seat.token.table_id ≡ table.now.cells.shared.table_id }
    requires new { made_of seat.token ≡ [] }
    ensures table { result.token.table_id ≡ seat.token.table_id }
    ensures number { number_of result.token ≡ number_of seat.token }
{
    let mut seat = seat.on(table);
    let (_before, active) = step(&mut seat, false, false);
    let hard = came.swap(true, Ordering::SeqCst);
    let _last = step(&mut seat, active, hard);
    seat.off()
}

/// The two steps of each source.
fn twice<R: Threads + Wait + Sync>(
    rt: &R,
    table: &EventTable,
    look: &LookSeat,
    seats: Vec<EventSeat>,
) -> Result<Vec<EventSeat>, AllocError>
    requires look { look.now.token.table_id ≡ table.now.cells.shared.table_id }
    requires seats { AreNew look.now.token (tokens seats.items) }
    ensures { IfOk result (λ back. AreAllSeats look.now.token (tokens back.items)) }
{
    let _ = look;
    let came = AtomicBool::new(false);
    let one = |seat: EventSeat| -> EventSeat
        requires { (seat.token.table_id ≡ table.now.cells.shared.table_id) × (made_of seat.token ≡ []) }
        ensures { (result.token.table_id ≡ seat.token.table_id) × (number_of result.token ≡ number_of seat.token) }
    { two_steps(table, seat, &came) };
    let back = thread::map_vec(rt, seats, &one)?;
    Ok(back)
}

/// The last word of two sources that make two steps each.
fn last_word<R: Threads + Wait + Sync>(rt: &R, alloc: Global) -> Result<EventNow, Mem> {
    let (table, seats, look) = EventTable::new(alloc, 2)?;
    let Ok(back) = twice(rt, &table, &look, seats) else {
        return Err(drop_for_mem((table, look)));
    };
    close(table, back, look)
}

/// Two sources make four steps: one event is over, one goes on, and one hard event was seen.
#[test]
fn four_steps_are_closed(rt: HostRuntime) {
    assert!(rt; last_word(&rt, rt.alloc()) == Ok(word(1, 1, 1)));
}
