//! Jobs of a pool: their turns are counted, a Stop ends its part, and workers overlap.
ghost use Rattle.std.specs.Prelude.{◌≡◌, ◌+◌, ◌<◌, ◌≤◌};
ghost use Rattle.std.proofs.Common.{rules};

use sleep_pool::{Job, Turn, burst};
use std::process::Abort;
use std::sync::atomic::{AtomicBool, AtomicU64, Ordering};
use std::thread::{Threads, yield_now};

/// A job that does something `wants` times, then stops or is done. It can make `left` turns.
#[derive(Clone, Copy, Drop)]
struct CountingJob {
    left: u64,
    wants: u64,
    did: u64,
    stops: bool,
}

/// A job that does something on its first `wants` turns, and then stops or is done.
fn that_wants(wants: u64, stops: bool) -> CountingJob
    ensures { (result.left ≡ 1000) × (result.did ≡ 0) }
{
    CountingJob {
        left: 1000,
        wants,
        did: 0,
        stops,
    }
}

impl Job<AtomicU64> for CountingJob {
    ghost left = { λ t. t.left };

    ghost goes = { λ t _ _. t.did + t.left ≤ 1000 };

    ghost made = { λ a _ b. a.did ≤ b.did };

    /// Does something while it wants to, then answers `Stop` or `Done`.
    fn turn(&mut self, shared: &AtomicU64, _now: u64) -> Turn {
        self.left -= 1;
        if self.wants == 0 {
            return if self.stops { Turn::Stop } else { Turn::Done };
        }
        self.wants -= 1;
        self.did += 1;
        shared.fetch_add(1, Ordering::SeqCst);
        Turn::Did
    }

    ghost made_none = { λ _. Prim.search rules };

    ghost made_more = { λ a b c _ _ h k. Prim.search rules };
}

/// Sixteen jobs that do ten thousand things in all.
fn ten_thousand(rt: &(impl Threads + Abort + Sync), workers: u8) -> u64
    requires { 0 < workers }
{
    let shared = AtomicU64::new(0);
    let mut jobs = [that_wants(625, false); 16];
    let did = burst(rt, &mut jobs, &shared, 0, workers);
    assert!(rt; shared.load(Ordering::SeqCst) == 10_000);
    for job in jobs {
        assert!(rt; job.did == 625 && job.left == 374);
    }
    did
}

/// Each thing that is done is counted, by 4 workers and by 16.
#[test]
fn ten_thousand_turns_are_counted(rt: HostRuntime) {
    assert!(rt; ten_thousand(&rt, 4) == 10_000);
    assert!(rt; ten_thousand(&rt, 16) == 10_000);
}

/// Of six jobs in three parts, the third stops at its second turn. Its part ends there: the fourth has had
/// one turn. The other parts go on.
#[test]
fn a_stop_ends_its_part_alone(rt: HostRuntime) {
    let shared = AtomicU64::new(0);
    let long = that_wants(5, false);
    let mut jobs = [long, long, that_wants(1, true), long, long, long];
    assert!(rt; burst(&rt, &mut jobs, &shared, 0, 3) == 22);
    let [_, _, third, fourth, fifth, _] = jobs;
    assert!(rt; third.left == 998 && fourth.left == 999 && fifth.left == 994);
}

/// A worker makes a thousand rounds at most; there may be more workers than jobs, and no jobs.
#[test]
fn a_worker_makes_a_thousand_rounds(rt: HostRuntime) {
    let shared = AtomicU64::new(0);
    let mut jobs = [that_wants(5000, false), that_wants(2, false)];
    assert!(rt; burst(&rt, &mut jobs, &shared, 0, 1) == 1002);
    let [first, second] = jobs;
    assert!(rt; first.left == 0 && second.left == 0);
    let mut few = [that_wants(3, false); 2];
    assert!(rt; burst(&rt, &mut few, &shared, 0, 255) == 6);
    let mut none: [CountingJob; 0] = [];
    assert!(rt; burst(&rt, &mut none, &shared, 0, 4) == 0);
}

/// The parts are as long as said: of five jobs, two workers have three and two. If each first of a part
/// stops, no other has a turn.
#[test]
fn the_parts_are_contiguous(rt: HostRuntime) {
    let shared = AtomicU64::new(0);
    let stops = that_wants(0, true);
    let other = that_wants(1, false);
    let mut jobs = [stops, other, other, stops, other];
    assert!(rt; burst(&rt, &mut jobs, &shared, 0, 2) == 0);
    let [first, second, third, fourth, fifth] = jobs;
    assert!(rt; first.left == 999 && fourth.left == 999);
    assert!(rt; second.left == 1000 && third.left == 1000 && fifth.left == 1000);
}

/// Who has begun.
#[derive(Drop)]
struct Begun {
    first: AtomicBool,
    second: AtomicBool,
}

/// A job whose first turn waits for a while until the other has begun, and stops if it did not see that.
#[derive(Clone, Copy, Drop)]
struct Meeting {
    left: u64,
    is_first: bool,
    met: bool,
}

/// Raises one flag, and looks ten million times whether the other is up.
fn meets(mine: &AtomicBool, others: &AtomicBool) -> bool {
    mine.store(true, Ordering::SeqCst);
    for _look in 0..10_000_000u32 {
        if others.load(Ordering::SeqCst) {
            return true;
        }
        yield_now();
    }
    false
}

impl Job<Begun> for Meeting {
    ghost left = { λ m. m.left };

    ghost goes = { λ _ _ _. Unit {0} };

    ghost made = { λ _ _ _. Unit {0} };

    /// Meets the other job once, then is done; it stops if they do not meet.
    fn turn(&mut self, shared: &Begun, _now: u64) -> Turn {
        self.left -= 1;
        if self.met {
            return Turn::Done;
        }
        self.met = if self.is_first {
            meets(&shared.first, &shared.second)
        } else {
            meets(&shared.second, &shared.first)
        };
        if self.met { Turn::Did } else { Turn::Stop }
    }

    ghost made_none = { λ _. tt };

    ghost made_more = { λ _ _ _ _ _ _ _. tt };
}

/// Two workers overlap: each job's first turn sees that the other's has begun.
#[test]
fn two_workers_overlap(rt: HostRuntime) {
    let shared = Begun {
        first: AtomicBool::new(false),
        second: AtomicBool::new(false),
    };
    let one = Meeting {
        left: 1000,
        is_first: true,
        met: false,
    };
    let two = Meeting {
        left: 1000,
        is_first: false,
        met: false,
    };
    assert!(rt; burst(&rt, &mut [one, two], &shared, 0, 2) == 2);
}
