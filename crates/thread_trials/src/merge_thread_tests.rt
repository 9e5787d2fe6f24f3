//! The log that is merged of what several workers made.
use log_merge::{merge, rises};
use sleep_base::{Mem, drop_for_mem};
use sleep_model::{
    Actor, Entry, EntryList, EntryReader, EventNow, Kind, ListOf, SourceEntry, SourceList, Stamp,
};
use std::alloc::{AllocError, Global};
use std::sync::atomic::{AtomicU64, Ordering};
use std::sync::{Barrier, Wait};
use std::thread;
use std::thread::Threads;

/// A hard step of a source, which is known by its time.
fn entry(time: u64, source: u32) -> Entry {
    let now = EventNow {
        inpr: 0,
        count: 0,
        hard: 0,
    };
    Entry {
        time,
        now,
        actor: Actor::Script(source),
        kind: Kind::Hard(source),
    }
}

/// A step on a worker's source, at the next position that threads share. Its time is its position.
fn step(next: &AtomicU64, worker: usize, tick: u64) -> SourceEntry {
    let pos = next.fetch_add(1, Ordering::SeqCst);
    SourceEntry {
        stamp: Stamp { pos, tick },
        entry: entry(pos, (worker % 256) as u32),
    }
}

/// Whether a log has `count` entries, at the times 0, 1, 2 and on.
fn is_in_order(log: &EntryList, count: u64) -> bool {
    let mut reader = log.reader();
    for time in 0..count {
        match reader.next() {
            Some(entry) if entry.time == time => {}
            _ => return false,
        }
    }
    reader.next().is_none()
}

/// The history of a source, of which one worker makes all steps.
fn history(alloc: Global, next: &AtomicU64, worker: usize, steps: u64) -> Vec<SourceEntry> {
    let mut entries = Vec::new(alloc);
    for tick in 0..steps {
        if entries.reserve(1).is_ok() {
            entries.push_reserved(step(next, worker, tick));
        }
    }
    entries
}

/// What the workers made, as histories of sources.
fn histories_of(alloc: Global, made: Vec<Vec<SourceEntry>>) -> Result<Vec<SourceList>, Mem> {
    let Ok(mut histories) = Vec::with_capacity(alloc, made.len()) else {
        return Err(drop_for_mem(made));
    };
    for history in made {
        histories.push_reserved(ListOf::of_vec(history));
    }
    Ok(histories)
}

/// The one log of what the workers made.
fn log_of(alloc: Global, made: Vec<Vec<SourceEntry>>) -> Result<EntryList, Mem> {
    let histories = histories_of(alloc, made)?;
    let log = merge(alloc, &[], &histories);
    drop(histories);
    log
}

/// The histories of that number of workers, each in a thread of its own.
fn burst<R: Threads + Sync>(
    rt: &R,
    alloc: Global,
    workers: usize,
    steps: u64,
) -> Result<Vec<Vec<SourceEntry>>, AllocError> {
    let next = AtomicU64::new(0);
    let one = |i: usize| history(alloc, &next, i, steps);
    thread::map_indices(rt, alloc, workers, &one)
}

/// Whether the one log of ten thousand steps has each position once, in order.
fn is_merged<R: Threads + Sync>(
    rt: &R,
    alloc: Global,
    workers: usize,
    steps: u64,
) -> Result<bool, Mem> {
    let log = log_of(alloc, burst(rt, alloc, workers, steps)?)?;
    let in_order = is_in_order(&log, 10_000);
    drop(log);
    Ok(in_order)
}

/// Four workers, and sixteen. They have no journal, and one without entries rises.
#[test]
fn the_steps_of_many_workers_stand_by_position(rt: HostRuntime) {
    assert!(rt; rises(&[]));
    assert!(rt; is_merged(&rt, rt.alloc(), 4, 2500) == Ok(true));
    assert!(rt; is_merged(&rt, rt.alloc(), 16, 625) == Ok(true));
}

/// A step, and a second one once the other worker has made its first.
fn meet<R: Wait>(
    rt: &R,
    alloc: Global,
    next: &AtomicU64,
    both: &Barrier,
    worker: usize,
) -> Vec<SourceEntry> {
    let mut entries = Vec::new(alloc);
    let room = entries.reserve(2).is_ok();
    let first = step(next, worker, 0);
    both.wait(rt);
    let second = step(next, worker, 1);
    if room {
        entries.push_reserved(first);
        entries.push_reserved(second);
    }
    entries
}

/// The histories of two workers that meet.
fn met<R: Threads + Wait + Sync>(
    rt: &R,
    alloc: Global,
) -> Result<Vec<Vec<SourceEntry>>, AllocError> {
    let next = AtomicU64::new(0);
    let both = Barrier::new(2);
    let one = |i: usize| meet(rt, alloc, &next, &both, i);
    thread::map_indices(rt, alloc, 2, &one)
}

/// Whether the first two entries of a log are of two actors.
fn are_of_two(reader: &mut EntryReader<'_>) -> bool {
    match (reader.next(), reader.next()) {
        (Some(first), Some(second)) => first.actor != second.actor,
        _ => false,
    }
}

/// Whether a log has four entries, of which the first two are of two actors, and so are the last two.
fn overlaps(log: &EntryList) -> bool {
    let mut reader = log.reader();
    are_of_two(&mut reader) && are_of_two(&mut reader) && reader.next().is_none()
}

/// Whether the steps of two workers overlap in their one log.
fn are_overlapping<R: Threads + Wait + Sync>(rt: &R, alloc: Global) -> Result<bool, Mem> {
    let log = log_of(alloc, met(rt, alloc)?)?;
    let both = overlaps(&log);
    drop(log);
    Ok(both)
}

/// Two workers overlap: in the one log the first steps of both come before the second ones.
#[test]
fn two_workers_overlap(rt: HostRuntime) {
    assert!(rt; are_overlapping(&rt, rt.alloc()) == Ok(true));
}
