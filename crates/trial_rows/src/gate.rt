//! The gate that the workers of a row's run pass. It counts their turns, and by its plan some turns wait
//! there for others.

use run_world::Gate;
use sleep_model::Actor;
use std::sync::atomic::{AtomicU64, Ordering};
use std::thread::yield_now;

/// How often a turn looks for what it waits for.
const LOOKS: u32 = 10_000_000;

/// The counters: the turns of the first six jobs, then how often scripts, autosleep's work and others have
/// taken the machine's lock, and last the waits that did not end in vain.
const JOBS: usize = 6;

pub(crate) const SCRIPTS: usize = 6;

pub(crate) const AUTO: usize = 7;

pub(crate) const OTHERS: usize = 8;

pub(crate) const WAITS: usize = 9;

/// A counter, and a number of it.
pub type Count = (usize, u64);

/// What happens at a gate.
#[derive(Clone, Copy, Drop)]
pub struct GatePlan {
    /// Which turns wait, each after so many of its counter, and up to which number of another counter.
    pub waits: &'static [(Count, Count)],
    /// Numbers that counters have at the end.
    pub exact: &'static [Count],
    /// Numbers that counters have at least at the end.
    pub least: &'static [Count],
}

/// A gate at which nobody waits.
pub const OPEN: GatePlan = GatePlan {
    waits: &[],
    exact: &[],
    least: &[],
};

/// A gate in use.
#[derive(Drop)]
pub struct RowGate {
    plan: GatePlan,
    counts: [AtomicU64; 10],
}

impl Gate for RowGate {
    /// Counts the job's turn.
    fn pass(&self, job: u32) {
        let at = job as usize;
        if at < JOBS {
            self.count(at);
        }
    }

    /// Counts who holds the machine's lock.
    fn held(&self, who: Actor) {
        let at = match who {
            Actor::Script(_) => SCRIPTS,
            Actor::Auto => AUTO,
            _ => OTHERS,
        };
        self.count(at);
    }
}

impl RowGate {
    /// A gate with that plan.
    pub fn new(plan: GatePlan) -> Self {
        let counts = [
            AtomicU64::new(0),
            AtomicU64::new(0),
            AtomicU64::new(0),
            AtomicU64::new(0),
            AtomicU64::new(0),
            AtomicU64::new(0),
            AtomicU64::new(0),
            AtomicU64::new(0),
            AtomicU64::new(0),
            AtomicU64::new(0),
        ];
        RowGate { plan, counts }
    }

    /// The number of a counter.
    fn number(&self, at: usize) -> u64 {
        match self.counts.get(at) {
            Some(count) => count.load(Ordering::SeqCst),
            None => 0,
        }
    }

    /// Counts one more at a counter. What it had before.
    fn add(&self, at: usize) -> u64 {
        match self.counts.get(at) {
            Some(count) => count.fetch_add(1, Ordering::SeqCst),
            None => 0,
        }
    }

    /// Counts a turn, which then waits for what its plan says.
    fn count(&self, at: usize) {
        let turn = (at, self.add(at));
        let waits = self.plan.waits;
        for (waiting, goal) in waits {
            if *waiting == turn && self.comes_to(*goal) {
                self.add(WAITS);
            }
        }
    }

    /// Waits until the counter has at least that number. Whether it came to it.
    fn comes_to(&self, goal: Count) -> bool {
        for _ in 0..LOOKS {
            if self.number(goal.0) >= goal.1 {
                return true;
            }
            yield_now();
        }
        false
    }

    /// Whether the counters are at the end as the plan says.
    pub fn is_kept(&self) -> bool {
        let (exact, least) = (self.plan.exact, self.plan.least);
        exact.iter().all(|count| self.number(count.0) == count.1)
            && least.iter().all(|count| self.number(count.0) >= count.1)
    }
}
