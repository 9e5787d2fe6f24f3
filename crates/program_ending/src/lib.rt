//! How the program ends: what a command has read and written by then, the status, and what it writes to
//! standard error.
//!
//! Each command has a crate above, and reads its input and writes its text by the calls of this one. Its
//! tests are those of the whole program, `row_trials`.
//!
//! Promises: An ending's status, and its text piece by piece. An input is read whole, within its limit, or
//! the ending says why not. A text is written whole, or up to the first write that fails. A number is put
//! after its word. By the clauses of `Ending::status`, `head`, `number`, `colon`, `name`, `tail`;
//! `read_input`, `write_run_text`, `say`; `put_count`.
//!
//! Begin reading in `src/ending.rt`, `src/refusal.rt`, `src/input.rt`, `src/run_text.rt`;
//! `specs/Endings.antt`, `specs/Streams.antt`, `specs/CommandEndings.antt`.
#![tactic(auto)]

mod count_text;
mod ending;
mod input;
mod refusal;
mod run_text;
mod standard_error;

pub use count_text::put_count;
pub use ending::Ending;
pub use input::{MOST_MACHINE, read_input};
pub use refusal::Refusal;
pub use run_text::{RunText, write_result, write_run_text};
pub use standard_error::say;
