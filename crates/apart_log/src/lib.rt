//! A log that is stored as the journal and the sources' histories that it is put together from: put together
//! in one list, written from where its entries are stored, or written slice by slice, the slices side by side
//! on threads (own: Linux keeps no such log). Its tests are in `row_trials`, which runs machines by several
//! workers.
//!
//! Promises: A log that is stored as a journal and histories is the merge of both: in one list, as its text,
//! or as slices whose texts, one after the other, are the text of the log. The text is written whole, or a
//! front of it if a write fails. By the clauses of `ApartLog::new`, `into_log`; `MergedText::new`,
//! `SlicedText::new`, `write_to`: `bytes`.
//!
//! Begin reading in `src/log.rt`, `src/writing.rt`, `src/cut.rt`, `src/slice.rt`, `src/text.rt`;
//! `specs/Slices.antt`.
#![tactic(auto)]

mod cut;
mod log;
mod merged;
mod merged_text;
mod others;
mod range;
mod slice;
mod text;
mod writing;

pub use log::ApartLog;
pub use merged_text::MergedText;
pub use text::SlicedText;
