//! The ten phases of the devices' way into sleep and out of it, as one table (`drivers/base/power/main.c`).
//! Its tests are in `part_cases`.
//!
//! Promises: Each question about a phase is answered by the table. A mirror's mirror is the phase, mirrors
//! walk opposite ways, a name gives its phase back and no other text does. By the clauses of `Phase::..`,
//! `phases`, `CaseTable::row`; `mirrors_are_mutual`, `mirrors_walk_opposite_ways`, `names_read_back`.
//!
//! Begin reading in `specs/Phases.antt`, `src/phase.rt`.
#![tactic(auto)]

pub mod laws;
mod phase;
mod table;

pub use phase::{Phase, phases};
pub use table::{CaseTable, PhaseRow};
