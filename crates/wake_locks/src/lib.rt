//! Named wakelocks: user space locks and unlocks names, each a wakeup source (`kernel/power/wakelock.c`). Its
//! tests are in `part_cases`; `row_trials` runs the command `locks`.
//!
//! Promises: A write to `wake_lock` or `wake_unlock` makes the one call that its text asks for, on the source
//! of that name. It is refused exactly if the text is of no form, the name is unknown or 100 are known. A
//! refused write changes nothing. A later, shorter timeout cuts no earlier one. Each expiry comes at its own
//! moment, those of one moment by name. `Full` names the lock, and comes exactly if a call meets a source
//! with fewer than four places left. Statistics are those of each source's calls. By the clauses of
//! `WakeLocks::wake_lock`, `wake_unlock`: `ended`; `advance`: `ended`; `names`, `list_names`, `stats`,
//! `all_stats`.
//!
//! Begin reading in `src/locks.rt`, `src/soonest.rt`; `specs/LockStatuses.antt`, `specs/Writes.antt`,
//! `specs/Expiries.antt`.
#![tactic(auto)]

mod answer;
mod floors;
mod lock;
mod locks;
mod soonest;
mod status;
mod text;

pub use answer::{LockAnswer, LockFault};
pub use lock::LockStats;
pub use locks::{MOST_LOCKS, NameList, WakeLocks};
pub use status::LockStatus;
