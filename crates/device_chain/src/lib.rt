//! The longest chain of devices that wait for one another, with the level of each device, which shows that
//! none is longer (`drivers/base/power/main.c`, `dpm_wait_for_superior`). `sleep_stats` asks it at a log's
//! end. Its tests are in `part_cases` and `row_trials`, by the command `stats`.
//!
//! Promises: A device's level is one more than the greatest level right above it. No chain is longer than the
//! longest one. Of several it is the one that has, from its end up, the device that was registered first each
//! time. A certificate is accepted exactly if its chain is one and its levels, up to the chain's length, rise
//! along all links that are active. By the clauses of `longest_chain`, `is_certified`.
//!
//! Begin reading in `specs/Chains.antt`; `src/levels.rt`, `src/chain.rt`, `src/certificate.rt`.
#![tactic(auto)]

mod certificate;
mod chain;
mod levels;

pub use certificate::is_certified;
pub use chain::{Chain, longest_chain};
