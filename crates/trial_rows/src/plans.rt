//! The plans of gates. A run's jobs are its scripts, autosleep's work, its devices and its timers, in this
//! order.

use crate::gate::{AUTO, Count, GatePlan, OTHERS, SCRIPTS, WAITS};

/// The first turns of the jobs 0 and 2 wait for each other: a script, and the timer after autosleep's work.
const TWO_MEET: &[(Count, Count)] = &[((0, 0), (2, 1)), ((2, 0), (0, 1))];

/// The first turns of a script, autosleep's work and the timer wait for each other.
const THREE_MEET: &[(Count, Count)] = &[
    ((0, 0), (1, 1)),
    ((0, 0), (2, 1)),
    ((1, 0), (0, 1)),
    ((1, 0), (2, 1)),
    ((2, 0), (0, 1)),
    ((2, 0), (1, 1)),
];

/// The gates, by the numbers that rows give.
const PLANS: [GatePlan; 7] = [
    // An interrupt, the job 1, begins once a task holds the machine's lock. The task holds it until the
    // interrupt has made its calls.
    GatePlan {
        waits: &[((1, 0), (SCRIPTS, 1)), ((SCRIPTS, 0), (1, 3))],
        exact: &[(WAITS, 2)],
        least: &[],
    },
    // Of two workers the first has the task and autosleep's work, the other the timer.
    GatePlan {
        waits: TWO_MEET,
        exact: &[(WAITS, 2), (0, 32), (1, 32)],
        least: &[],
    },
    // Of three workers each has a job.
    GatePlan {
        waits: THREE_MEET,
        exact: &[(WAITS, 6), (0, 32), (1, 2)],
        least: &[],
    },
    // One worker makes no burst.
    GatePlan {
        waits: &[],
        exact: &[(0, 0), (1, 0)],
        least: &[],
    },
    // Sixty-four workers run a machine with one script.
    GatePlan {
        waits: &[],
        exact: &[(0, 32), (1, 2)],
        least: &[],
    },
    // A reader's first burst is three rounds of its script, of which the last makes nothing. Its second begins
    // once the first timer had its turn there and ends the event, so the reader goes on up to the device's
    // suspend. If the timer makes no expiry in a burst the reader has three tries. The device tries its turn.
    GatePlan {
        waits: &[((1, 3), (5, 2))],
        exact: &[],
        least: &[(SCRIPTS, 8), (AUTO, 1), (OTHERS, 1)],
    },
    // Autosleep's work makes most of its attempt in bursts.
    GatePlan {
        waits: &[],
        exact: &[],
        least: &[(SCRIPTS, 1), (AUTO, 8)],
    },
];

/// The plan of that number, from 1.
pub(crate) fn plan_of(number: usize) -> Option<GatePlan> {
    let at = number.checked_sub(1)?;
    PLANS.get(at).copied()
}
