//! Two workers make steps of the event word that overlap.
ghost use Rattle.std.specs.Prelude.{◌≡◌, []};
ghost use Rattle.event_word.specs.Seats.{AreNew, made_of};
ghost use Rattle.event_word.specs.Lists.{tokens};

use crate::word_table_tests::{step, word};
use event_word::{EventSeat, EventTable, Events, LookSeat};
use sleep_base::{Mem, drop_for_mem};
use sleep_model::EventNow;
use std::alloc::{AllocError, Global};
use std::sync::{Barrier, Wait};
use std::thread;
use std::thread::Threads;

/// Begins the source's event, and waits until the other one's is in progress. Answers the word then.
fn meet<R: Wait>(rt: &R, table: &EventTable, seat: EventSeat, both: &Barrier) -> EventNow
    requires table { seat.token.table_id ≡ table.now.cells.shared.table_id }
    requires new { made_of seat.token ≡ [] }
{
    let mut seat = seat.on(table);
    let (_before, active) = step(&mut seat, false, false);
    both.wait(rt);
    let seen = seat.look();
    both.wait(rt);
    let _last = step(&mut seat, active, false);
    seen
}

/// Two workers, each with a source.
fn meeting<R: Threads + Wait + Sync>(
    rt: &R,
    table: &EventTable,
    look: &LookSeat,
    seats: Vec<EventSeat>,
) -> Result<Vec<EventNow>, AllocError>
    requires look { look.now.token.table_id ≡ table.now.cells.shared.table_id }
    requires seats { AreNew look.now.token (tokens seats.items) }
{
    let _ = look;
    let both = Barrier::new(2);
    let one = |seat: EventSeat| -> EventNow
        requires { (seat.token.table_id ≡ table.now.cells.shared.table_id) × (made_of seat.token ≡ []) }
    { meet(rt, table, seat, &both) };
    let seen = thread::map_vec(rt, seats, &one)?;
    Ok(seen)
}

/// Whether each of two workers that overlap sees the events of both in progress.
fn see_both<R: Threads + Wait + Sync>(rt: &R, alloc: Global) -> Result<bool, Mem> {
    let (table, seats, look) = EventTable::new(alloc, 2)?;
    let Ok(seen) = meeting(rt, &table, &look, seats) else {
        return Err(drop_for_mem((table, look)));
    };
    drop((table, look));
    Ok(seen.as_slice() == [word(2, 0, 0), word(2, 0, 0)].as_slice())
}

/// Two workers overlap: each sees the events of both in progress.
#[test]
fn two_workers_overlap(rt: HostRuntime) {
    assert!(rt; see_both(&rt, rt.alloc()) == Ok(true));
}
