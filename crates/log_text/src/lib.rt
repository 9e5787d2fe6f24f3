//! The text of a sleep log, written and read: a line for each entry, a line for each wakeup source, and how
//! the run ended. A log is read only from its own text; of other bytes the first bad line is named. Its tests
//! are rows of `row_trials`.
//!
//! Promises: The written bytes are the text of the log, or a front of it if a write failed. A log is read
//! only from its text, and fits the machine. Let the machine's names be spelled as names and different. Then
//! the text of a fitting log is read as that log, and of other bytes the first bad line is named. By the
//! clauses of `write_log`, `LogText::write_to`; `read_log`: `text`, `fits`, `back`, `taken`, `line`;
//! `log_text_is_injective`, `written_lines_are_good`, `first_bad_line_is_one`.
//!
//! Begin reading in `specs/Grammar.antt`.
#![tactic(auto)]

mod fault;
mod laws;
mod reading;
mod writing;

pub use fault::LogFault;
pub use laws::{first_bad_line_is_one, log_text_is_injective, written_lines_are_good};
pub use reading::read::read_log;
pub use writing::log::write_log;
pub use writing::referred::write_entries;
pub use writing::stream::{LineStream, LogText, TextFrame};
