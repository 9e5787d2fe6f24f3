//! Locks in one table, one an object. A pass remembers each entry that it added to an object. Threads share
//! the `cells` of a `LockTable`; the table's own seat stays with its owner, who needs it to close the table.
//! Its tests are in `thread_trials`.
//!
//! Promises: A lock guards a list that only grows. A pass that takes it sees every entry that it added before
//! (`take`). At the end each entry that an object gained is in the list of exactly one pass (`close_locks`).
//! No clause says who gets a lock when. By the clauses of `LockTable::new`, `take`, `Held::value`, `give`,
//! `close_locks`.
//!
//! Begin reading in `src/table.rt`, `specs/Locks.antt`, `specs/Passes.antt`.
#![tactic(auto)]

mod booked;
mod closing;
mod opening;
mod plays;
mod table;
mod view;

pub use booked::Booked;
pub use closing::close_locks;
pub use table::{Held, LockTable, LockToken, Pass, SharedLocks, give, take};
pub use view::{Made, PassView};
