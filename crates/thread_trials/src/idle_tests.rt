//! Suspend-to-idle by four workers, and its log merged again from its parts.
ghost use Rattle.std.specs.Prelude.{◌≡◌};

use idle_loop::{IdleEntry, IdleKind, IdleLog, IdleSizes, merge_idle, run_idle};
use sleep_base::Mem;
use std::alloc::Global;
use std::sync::Wait;
use std::thread::Threads;

fn entry(hard: u32, who: u32, what: IdleKind) -> IdleEntry
    ensures { result ≡ record { hard = hard; who = who; what = what } }
{
    IdleEntry { hard, who, what }
}

/// Whether the journal of a run with two hard events, without these, merges with them to that log.
fn merges_to(alloc: Global, log: &IdleLog) -> Result<bool, Mem> {
    let journal = [
        entry(1, 1, IdleKind::Begin),
        entry(1, 0, IdleKind::Wake),
        entry(1, 1, IdleKind::TryOk),
        entry(2, 0, IdleKind::Wake),
        entry(2, 1, IdleKind::Leave),
        entry(2, 1, IdleKind::TryBusy),
    ];
    let merged = merge_idle(alloc, &journal, &[0, 0])?;
    Ok(merged.as_slice() == log.entries.as_slice())
}

/// Whether a run of one waker with two hard events merges again.
fn merges_again<R: Threads + Wait + Sync>(rt: &R, alloc: Global) -> Result<bool, Mem> {
    let sizes = IdleSizes {
        wakers: 1,
        events: 2,
        sessions: 1,
    };
    let log = run_idle(rt, alloc, sizes, 1)?;
    let merged = merges_to(alloc, &log);
    drop(log);
    merged
}

/// The journal of a run, without its hard events, merges with them to the run's log.
#[test]
fn a_run_taken_apart_merges_again(rt: HostRuntime) {
    assert!(rt; merges_again(&rt, rt.alloc()) == Ok(true));
}

/// How many entries of a kind the log has.
fn count(log: &IdleLog, what: IdleKind) -> u32 {
    let mut count = 0u32;
    for entry in &log.entries {
        count = count.saturating_add(u32::from(entry.what == what));
    }
    count
}

/// Whether four workers make all hard events and wakes of eight wakers.
fn is_whole<R: Threads + Wait + Sync>(rt: &R, alloc: Global) -> Result<bool, Mem> {
    let sizes = IdleSizes {
        wakers: 8,
        events: 100,
        sessions: 50,
    };
    let log = run_idle(rt, alloc, sizes, 4)?;
    let whole = count(&log, IdleKind::Hard) == 800 && count(&log, IdleKind::Wake) == 800;
    drop(log);
    Ok(whole)
}

/// Four workers, again and again: each waker makes all its hard events and wakes.
#[test]
fn four_workers_lose_no_step(rt: HostRuntime) {
    for _ in 0..20 {
        assert!(rt; is_whole(&rt, rt.alloc()) == Ok(true));
    }
}
