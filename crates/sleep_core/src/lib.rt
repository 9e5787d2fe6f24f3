//! The core of system sleep: what each actor may do next, and the journal of what it did.
//!
//! Promises: A turn makes exactly the entry that is due of its actor at the word that it saw, or says exactly
//! why not. That word is at or above its holder's floor. The journal stays legal. Out of memory comes neither
//! for the open attempt's maker nor for a device. A script that is found by its sleep has slept, and none is
//! found only if none has. By the clauses of `Core::turn`, `jump`, `due`, `calls_due`, `enabled`,
//! `next_time`, `next_slept`, `whole`, `is_open`, `is_stopped`, `into_journal`.
//!
//! Begin reading in `src/turns.rt`, `src/due.rt`, `src/state.rt`.
#![tactic(auto)]

mod attempt;
mod auto;
mod due;
mod linking;
mod outside;
mod pending;
mod phases;
mod reports;
mod start;
mod state;
mod steps;
mod tasks;
mod turn_parts;
mod turns;

pub use state::Core;
pub use turns::{CoreFault, CoreTurn};
