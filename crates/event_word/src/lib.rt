//! The event word, as its holders look at it and move it (`drivers/base/power/wakeup.c`,
//! `combined_event_count`): one plain counter, or a table that threads share. Its tests are in `part_cases`,
//! those with threads in `thread_trials`.
//!
//! Promises: A look answers the word, a step the word before it, if the holder knows the word. No position
//! falls. The plain counter is the word after its steps. A table of one 64-bit word serves up to 256 sources
//! in any threads: each step is one atomic addition in which no counter overflows. When the table is closed,
//! the steps of all sources are one history with positions 0 to n-1, each once. Each source's list is its
//! steps in it, and each look was at the word before one of them or at the last word. No clause says who gets
//! on, nor the order in real time. By the clauses of `Events::look`; `Bump::start`, `finish`, `hard`;
//! `look_from`; `PlainEvents::new`; `EventTable::new`, `on`, `off`, `close`.
//!
//! Begin reading in `src/events.rt`, `specs/Steps.antt`; `src/table.rt`, `specs/Histories.antt`.
#![tactic(auto)]

mod closing;
mod events;
mod opening;
mod plain;
mod plays;
mod seats;
mod table;
mod view;

pub use closing::close;
pub use events::{Bump, Events, look_from};
pub use plain::PlainEvents;
pub use seats::{TableLook, TableSeat};
pub use table::{EventSeat, EventTable, LookSeat, SharedWord, WordToken};
pub use view::{MadeStep, WordView};
