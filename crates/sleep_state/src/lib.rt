//! What the core reads from its journal, brought up to date by each entry: the state of the attempt, of the
//! tasks and of the devices. Its tests are in `part_cases`.
//!
//! Promises: After an entry each part is as the definitions say; the least end of the scripts' sleeps. By the
//! clauses of `note` of each; `Tasks::position`, `raised`, `all_exited`, `least_end`, `are_stopped`.
//!
//! Begin reading in `src/path.rt`, `src/devices.rt`, `src/tasks.rt`.
#![tactic(auto)]

mod devices;
mod moments;
mod path;
mod positions;
mod table;
mod tasks;

pub use devices::{Devices, is_device};
pub use moments::sooner;
pub use path::{OpenAttempt, busy_error};
pub use table::next_stage;
pub use tasks::Tasks;
