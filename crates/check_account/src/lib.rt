//! The account that the checker of logs keeps of the entries of the journal that it has passed: each field is
//! what a definition reads from them. Its tests are in `row_trials`, by the command `check`.
//!
//! Promises: After each entry of a journal each field of the account is what the definitions read from all
//! entries so far: of the saved count and the open attempt, of the tasks with the freezer, the marks and
//! autosleep, of devices, notifiers, processors and syscore operations. By the clauses of `AttemptAccount`,
//! `TaskAccount`, `DeviceAccount`: `new`, `pass`, and one call a field; `accounts_follow`, `each_is_known`.
//!
//! Begin reading in `src/attempts.rt`, `src/tasks.rt`, `src/devices.rt`; `specs/Accounts.antt`,
//! `specs/PairStates.antt`.
#![tactic(auto)]

mod attempt;
mod attempts;
mod autosleep;
mod counts;
mod devices;
mod errors;
mod flags;
mod freezings;
mod law;
mod pair_states;
mod phase_states;
mod positions;
mod stage;
mod tasks;

pub use attempts::AttemptAccount;
pub use autosleep::{is_actor, is_same};
pub use counts::{time_after, word_after};
pub use devices::DeviceAccount;
pub use freezings::is_in;
pub use law::{accounts_follow, each_is_known};
pub use pair_states::PairStates;
pub use stage::next_stage;
pub use tasks::TaskAccount;
