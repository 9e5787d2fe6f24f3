//! The objects of a run: the machine's core and each wakeup source, each with the seat by which it looks at
//! the event word that all of them share (`drivers/base/power/wakeup.c`, `combined_event_count`). What an
//! object has between its calls is all that its next caller knows, so a run can have each under a lock of its
//! own. At the end the seats come back to their table, and what they did gives the word. Its tests are
//! rows of `row_trials`.
//!
//! Promises: A wakeup source with its seat makes a whole call by the steps of that seat. Its history gains
//! the call's note and each step of it, and `Full` comes exactly if fewer than four places are left. The
//! machine with its seat makes a turn by a word that the seat looks at, no older than what the actor and the
//! journal knew. It also makes a turn or a jump of time by the word that it looked at last. Between calls a
//! seat's steps are those of its source's history, and each other word there, or in the journal, is one that
//! the seat looked at. The closed table has the steps of all histories, and the journal and each history are
//! answered as they are. By the clauses of `SeatedSource::call`: `calls`, `full`, `err`; `SeatedCore::look`,
//! `turn`, `turn_by`, `jump`; `source`, `core`: `kept`; `seated_sources`; `close_table`: `closed_over`,
//! `journal`, `histories`.
//!
//! Begin reading in `src/machine.rt`, `src/source.rt`, `specs/Objects.antt`, `specs/Closed.antt`.
#![tactic(auto)]

mod closing;
mod machine;
mod opening;
mod seen;
mod source;

pub use closing::close_table;
pub use machine::SeatedCore;
pub use opening::seated_sources;
pub use source::SeatedSource;
