//! Reads and writes a machine file: one JSON object that spells a machine. A file is read if it obeys the 24
//! rules of the format; else the first rule that it breaks is named, with the first place that breaks it. Its
//! tests are rows of `row_trials`.
//!
//! Promises: The machine that the bytes spell, with its links; else the first broken rule with its first
//! place; nothing but out of memory refuses a file that breaks none. The written bytes are the text that the
//! definitions give the machine. By the clauses of `read_machine`: `spells`, `links`, `accepted`, `refused`;
//! `write_machine`.
//!
//! Begin reading in `specs/Spelling.antt`; `specs/Whole.antt` of `file_rules`.
#![tactic(auto)]

mod fault;
mod reading;
mod rules;
mod writing;

pub use fault::MachineFault;
pub use reading::{ReadMachine, read_machine};
pub use writing::write_machine;
