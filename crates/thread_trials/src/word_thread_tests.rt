//! Many workers make steps of the event word: each finds another position.
ghost use Rattle.std.specs.Prelude.{◌≡◌, ◌≤◌, [], map, IfOk};
ghost use Rattle.event_word.specs.Seats.{AreAllSeats, AreNew, number_of, made_of};
ghost use Rattle.event_word.specs.Lists.{tokens};

use crate::word_table_tests::step;
use event_word::{EventSeat, EventTable, Events, LookSeat, close};
use sleep_base::{Mem, drop_for_mem};
use sleep_model::pos;
use std::alloc::{AllocError, Global};
use std::sync::Wait;
use std::thread;
use std::thread::Threads;

/// A worker that has ended: its seat, the positions of the words that its steps found, and whether each look
/// found a later one.
#[derive(Drop)]
struct Done {
    seat: EventSeat,
    positions: Vec<u64>,
    later: bool,
}

/// Adds a position, if there is memory.
fn note(positions: &mut Vec<u64>, position: u64) {
    if positions.reserve(1).is_ok() {
        positions.push_reserved(position);
    }
}

/// All steps of one worker: events one after another, with a hard step in each. It looks at the word after
/// each step.
fn work(alloc: Global, table: &EventTable, seat: EventSeat, turns: u32) -> Done
    requires table { seat.token.table_id ≡ table.now.cells.shared.table_id }
    requires new { made_of seat.token ≡ [] }
    requires turns { turns ≤ 10000 }
    ensures table { result.seat.token.table_id ≡ seat.token.table_id }
    ensures number { number_of result.seat.token ≡ number_of seat.token }
{
    let mut seat = seat.on(table);
    let mut active = false;
    let mut positions = Vec::new(alloc);
    let mut later = true;
    for i in 0..turns {
        let (before, now) = step(&mut seat, active, i % 3 == 1);
        active = now;
        note(&mut positions, pos(before));
        let seen = seat.look();
        later = later && pos(seen) > pos(before);
    }
    Done {
        seat: seat.off(),
        positions,
        later,
    }
}

/// All workers, each in a thread of its own.
fn burst<R: Threads + Wait + Sync>(
    rt: &R,
    alloc: Global,
    table: &EventTable,
    look: &LookSeat,
    seats: Vec<EventSeat>,
    turns: u32,
) -> Result<Vec<Done>, AllocError>
    requires look { look.now.token.table_id ≡ table.now.cells.shared.table_id }
    requires seats { AreNew look.now.token (tokens seats.items) }
    requires turns { turns ≤ 10000 }
    ensures { IfOk result (λ done. AreAllSeats look.now.token (map (λ d. d.seat.token) done.items)) }
{
    let _ = look;
    let one = |seat: EventSeat| -> Done
        requires { (seat.token.table_id ≡ table.now.cells.shared.table_id) × (made_of seat.token ≡ []) × (turns ≤ 10000) }
        ensures { (result.seat.token.table_id ≡ seat.token.table_id) × (number_of result.seat.token ≡ number_of seat.token) }
    { work(alloc, table, seat, turns) };
    let done = thread::map_vec(rt, seats, &one)?;
    Ok(done)
}

/// Counts how often each position was found, if no look went back.
fn count(times: &mut Vec<u32>, positions: &Vec<u64>, later: bool) {
    for &position in positions {
        if !later {
            return;
        }
        if let Some(n) = times.get_mut(position as usize) {
            *n = n.saturating_add(1);
        }
    }
}

/// The seats of all workers, in order. Counts the positions that they found, and forgets those of a worker
/// that looked back.
fn gathered(alloc: Global, done: Vec<Done>, times: &mut Vec<u32>) -> Result<Vec<EventSeat>, Mem>
    ensures { IfOk result (λ seats. tokens seats.items ≡ map (λ d. d.seat.token) done.items) }
{
    let Ok(mut seats) = Vec::with_capacity(alloc, done.len()) else {
        return Err(drop_for_mem(done));
    };
    for one in done {
        let Done {
            seat,
            positions,
            later,
        } = one;
        count(times, &positions, later);
        seats.push_reserved(seat);
    }
    Ok(seats)
}

/// Whether each was found once.
fn are_once(times: &[u32]) -> bool {
    for n in times {
        if *n != 1 {
            return false;
        }
    }
    true
}

/// Whether ten thousand steps of all workers found each position once, and the last word is the one after
/// them.
fn each_once<R: Threads + Wait + Sync>(
    rt: &R,
    alloc: Global,
    workers: u32,
    turns: u32,
) -> Result<bool, Mem>
    requires workers { (1 ≤ workers) × (workers ≤ 256) }
    requires turns { turns ≤ 10000 }
{
    let mut times = vec![in alloc; 0; 10_000]?;
    let (table, seats, look) = EventTable::new(alloc, workers)?;
    let Ok(done) = burst(rt, alloc, &table, &look, seats, turns) else {
        return Err(drop_for_mem((table, look)));
    };
    let Ok(seats) = gathered(alloc, done, &mut times) else {
        return Err(drop_for_mem((table, look)));
    };
    let now = close(table, seats, look)?;
    Ok(pos(now) == 10_000 && are_once(&times))
}

/// Four workers find each position once, and so do sixteen.
#[test]
fn many_workers_find_each_position_once(rt: HostRuntime) {
    assert!(rt; each_once(&rt, rt.alloc(), 4, 2500) == Ok(true));
    assert!(rt; each_once(&rt, rt.alloc(), 16, 625) == Ok(true));
}
