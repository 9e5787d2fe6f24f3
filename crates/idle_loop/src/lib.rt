//! Suspend-to-idle (`kernel/power/suspend.c`, `s2idle_loop`): wakers race with the idler, which looks for
//! hard events and then enters. Each waker and the idler is a worker of a burst. A waker's hard event takes
//! no lock; every other step takes the one of the idler's gate, which keeps a journal. Journal and hard
//! events merge to one legal log. `run_idle` is the run. Its tests are in `part_cases` and `thread_trials`.
//!
//! Promises: `run_idle` by any number of workers from 1 to 255 gives one legal log of suspend-to-idle, and it
//! is over: all wakers are done, and nothing is left for the idler. If the idler has entered, a waker that
//! made a hard event in this session still owes its wake, after every entry of the log: no wakeup is lost. If
//! it ends in idle, no hard event came since the last begin. Both are also laws of every legal log, whoever
//! made it. Wakers make their hard events without the lock that the idler looks under. Only `Mem` comes in
//! place of a log. By the clauses of `run_idle`; `no_wakeup_is_lost`, `no_hard_event_sleeps`.
//!
//! Promises: The log that is made of a journal and of the makers of the hard events is their merge: each
//! entry comes after as many hard events as it saw. Let the journal be one of the gate by itself, and each
//! waker make hard events and wakes in turn by the numbers that the wakes saw. Then every merge is a legal
//! log of suspend-to-idle. The gate with its journal is under a lock. It adds one entry a call, takes no
//! memory after its making, and gives back a journal that is one of the gate by itself and in order. By the
//! clauses of `merge_idle`; `journal_and_hard_events_merge`; `GateLog::new`, `begin`, `try_enter`, `wake`,
//! `leave`, `into_journal`.
//!
//! Begin reading in `specs/IdleLogs.antt`, `src/run.rt`; `src/gate_log.rt`, `src/merge.rt`, `src/worker.rt`,
//! `src/closing.rt`.
#![tactic(auto)]

mod burst;
mod closing;
mod entry;
mod gate_log;
mod laws;
mod looks;
mod makers;
mod merge;
mod roles;
mod run;
mod steps;
mod worker;

pub use entry::{IdleEntry, IdleKind, IdleLog, IdleSizes};
pub use gate_log::GateLog;
pub use idle_gate::{IdleGate, IdleState, WakerNow};
pub use laws::{journal_and_hard_events_merge, no_hard_event_sleeps, no_wakeup_is_lost};
pub use merge::merge_idle;
pub use run::run_idle;
